// What a post makes of another's part of a row: whether it accepts it, and the share in it.
#![tactic(auto)]

ghost use Rattle.std.specs.Prelude.{◌≡◌, true, length, get_or, ◌+◌, ◌≤◌, ◌<◌};
ghost use Rattle.field.specs.Arithmetic.{difference};
ghost use Rattle.poly.specs.Polynomial.{value};
ghost use Rattle.shape.specs.Lengths.{Valid, v_length, row_length};
ghost use Rattle.shape.specs.Row.{point_at, public_sum_of};
ghost use Rattle.blocks.specs.Between.{PostIn};
ghost use Rattle.accepting.specs.Accepting.{accepts, share};
ghost use Rattle.accepting.specs.Between.{PowersAt, MarkedAs, MarkedTo, Judged, Unmarked};

use blocks::Opening;
use session::Party;
use shape::{Points, Shape};

// A polynomial of so few coefficients is valued by Horner's rule: the powers of the check point would take longer than they save.
const FEW_COEFFICIENTS: usize = 4;

// The powers of a check point where polynomials are longer, else what the list has.
#[tactic(auto, using(crate::proofs::Weights::filled, crate::proofs::Weights::not_asked))]
fn fill_weights(shape: Shape, w: u32, list: &mut [u32])
    requires { length list.old ≡ v_length shape }
    ensures { PowersAt shape w list.new }
{
    if FEW_COEFFICIENTS < list.len() {
        poly::powers(w, list);
    }
}

// A polynomial's value at a check point.
#[tactic(auto, using(crate::proofs::Weights::weights_enough, crate::proofs::Weights::weights_elements, crate::proofs::Weights::weighed_value))]
fn checked_value(shape: Shape, w: u32, part: &[u32], weights: &[u32]) -> u32
    requires { Valid shape × (length part.now ≤ v_length shape) × PowersAt shape w weights.now }
    ensures { result ≡ value part.now w }
{
    if part.len() <= FEW_COEFFICIENTS {
        poly::evaluate(part, w)
    } else {
        poly::weigh_elements(part, weights)
    }
}

// A post's share, of the part that it sent.
fn share_of(shape: Shape, row: &[u32], part: &[u32], j: usize) -> u32
    requires { Valid shape × PostIn shape j × (length row.now ≡ row_length shape) × (0 < length part.now) }
    ensures { result ≡ difference (public_sum_of shape row.now j) (get_or part.now 0 0) }
{
    let at = shape.sums_at() + (j - 1);
    field::sub(row[at], part[0])
}

// A post's h-th check point.
fn point(points: Points, h: usize) -> u32
    ensures { result ≡ point_at points h }
{
    if h == 0 { points.first } else { points.second }
}

// Post j's mark: its share while its polynomial has the right value at the h-th check point w too, and at those before it; else p, which no share is.
#[tactic(auto, using(crate::proofs::Parts::mark_kept, crate::proofs::Parts::mark_absent, crate::proofs::Parts::mark_right, crate::proofs::Parts::mark_wrong, crate::proofs::Parts::part_short, crate::proofs::Parts::part_there))]
fn mark_of(opening: Opening, h: usize, w: u32, j: usize, weights: &[u32], mark: u32) -> u32
    requires { PostIn opening.party.shape j × (h < opening.party.shape.points) × (w ≡ point_at opening.party.points h)
        × PowersAt opening.party.shape w weights.now }
    ensures { MarkedAs opening.entry.party opening.entry.row.now opening.entry.blocks.now j h mark result }
{
    if mark == field::P {
        return mark;
    }
    let part = opening.sent(j);
    if part.len() == 0 {
        return field::P;
    }
    let shape = opening.party.shape;
    let row = opening.row;
    let at = shape.checks_at() + (j - 1) * shape.points + h;
    if checked_value(shape, w, part, weights) == row[at] {
        return share_of(shape, row, part, j);
    }
    field::P
}

// All posts' marks, by the h-th check point w.
#[tactic(auto, using(crate::proofs::Marks::marking_start, crate::proofs::Marks::marking_in, crate::proofs::Marks::marking_more, crate::proofs::Marks::marking_end, crate::proofs::Marks::next_post))]
fn mark_all(opening: Opening, h: usize, w: u32, weights: &[u32], marks: &mut [u32])
    requires { (h < opening.party.shape.points) × (w ≡ point_at opening.party.points h)
        × PowersAt opening.party.shape w weights.now × MarkedTo opening.party opening.row.now opening.blocks.now h marks.old }
    ensures { MarkedTo opening.entry.party opening.entry.row.now opening.entry.blocks.now (h + 1) marks.new }
{
    let n = opening.party.shape.n;
    for (i, mark) in marks[..n].iter_mut().enumerate() {
        *mark = mark_of(opening, h, w, i + 1, weights, *mark);
    }
}

#[tactic(auto, using(crate::proofs::Weights::front_lent, crate::proofs::Weights::front_long, crate::proofs::Weights::front_in, crate::proofs::Weights::front_again, crate::proofs::Weights::front_powers))]
fn judge_at(opening: Opening, h: usize, weights: &mut [u32], marks: &mut [u32])
    requires { (h < opening.party.shape.points) × (v_length opening.party.shape ≤ length weights.old)
        × MarkedTo opening.party opening.row.now opening.blocks.now h marks.old }
    ensures { MarkedTo opening.entry.party opening.entry.row.now opening.entry.blocks.now (h + 1) marks.new }
{
    let shape = opening.party.shape;
    let w = point(opening.party.points, h);
    let count = shape.v_len();
    let powers = &mut weights[..count];
    fill_weights(shape, w, powers);
    mark_all(opening, h, w, powers, marks);
}

// Marks the posts: those that the party accepts with their shares. They are judged before both walks, a point after the other, so that one loop with a small body
// does it: the compiler splits it by the polynomials' length.
#[tactic(auto, using(crate::proofs::Marks::marked_none, crate::proofs::Marks::marked_all))]
pub fn judge(opening: Opening, weights: &mut [u32], marks: &mut [u32])
    requires { (v_length opening.party.shape ≤ length weights.old) × Unmarked opening.party.shape marks.old }
    ensures { Judged opening.entry.party opening.entry.row.now opening.entry.blocks.now marks.new }
{
    for h in 0..opening.party.shape.points {
        judge_at(opening, h, weights, marks);
    }
}

// Post j is accepted, by the marks that `judge` left.
#[tactic(auto, using(crate::proofs::Marks::judged_in, crate::proofs::Marks::judged_is))]
pub fn accepts(party: Party, row: &[u32], blocks: &[u32], j: usize, marks: &[u32]) -> bool
    requires { PostIn party.shape j × Judged party row.now blocks.now marks.now }
    ensures { result ≡ accepts party row.now blocks.now j }
{
    let i = j - 1;
    marks[i] != field::P
}

// And its share is its mark.
#[tactic(auto, using(crate::proofs::Marks::judged_in, crate::proofs::Marks::judged_share))]
pub fn share(party: Party, row: &[u32], blocks: &[u32], j: usize, marks: &[u32]) -> u32
    requires { PostIn party.shape j × Judged party row.now blocks.now marks.now × (accepts party row.now blocks.now j ≡ true) }
    ensures { result ≡ share party row.now blocks.now j }
{
    let i = j - 1;
    marks[i]
}
