// All posts' parts of one drawn row, and of a drawn triple.
#![tactic(auto)]

ghost use Rattle.std.specs.Prelude.{◌≡◌, ◌∷◌, ◌++◌, ◌+◌, ◌*◌, ◌≤◌, ◌<◌, length};
ghost use Rattle.shape.specs.Lengths.{Valid};
ghost use Rattle.shape.specs.Lengths.{draw_length, triple_draw_length, packs_length};
ghost use Rattle.parts.specs.Draw.{first_draw, second_draw};
ghost use Rattle.packs.specs.Packs.{points_at_of, points_from, parts_from, packs, triple_packs};
ghost use Rattle.packs.specs.Between.{passed_on, first_sums, parts_with, points_on_of, RowAt, PartsRoom, PostsRoom, Fine, FactorsRoom};
ghost use Rattle.parts.specs.Between.{Drawn};

use shape::{Points, Shape};

// The public sums of the first row, to their place in the row from `at` on. `copy_within` would have the library need `memmove`; it needs
// `memcpy` and `memset` alone.
fn pass_sums_on(shape: Shape, at: usize, out: &mut [u32])
    requires { RowAt shape at out.old }
    ensures { out.new ≡ passed_on shape at out.old }
{
    let n = shape.n;
    let first = shape.sums_at();
    let sums = at + first;
    for i in 0..n {
        let from = first + i;
        let to = sums + i;
        out[to] = out[from];
    }
}

// The check points of the j-th post of a list of `count` posts' points.
#[tactic(auto, using(crate::proofs::Posts::points_fit, crate::proofs::Posts::first_fits, crate::proofs::Posts::next_fits, crate::proofs::Posts::second_fits, crate::proofs::Posts::first_in, crate::proofs::Posts::one_there, crate::proofs::Posts::second_in, crate::proofs::Posts::two_there))]
pub fn points_at(shape: Shape, points: &[u32], j: usize, count: usize) -> Points
    requires { Valid shape × (length points.now ≡ shape.points * count) × (count ≤ shape.n) × (j < count) }
    ensures { result ≡ points_at_of shape.points points.now j }
{
    let at = j * shape.points;
    let first = points[at];
    if shape.points < 2 {
        return Points { first, second: 0 };
    }
    let next = at + 1;
    Points {
        first,
        second: points[next],
    }
}

// The middle part of `out` is lent for one post after the other; `i` posts stand before the first. The public sums stand in the first
// row, from which they are passed on: so the list is not cut into rows, and each part's place is counted.
fn write_parts(shape: Shape, i: usize, count: usize, points: &[u32], vs: &[u32], out: &mut [u32])
    requires { Drawn shape vs.now × PartsRoom shape i count points.now out.old }
    ensures { out.new
        ≡ parts_with shape vs.now (first_sums shape out.old) (points_on_of shape points.now i) i count }
{
    let width = shape.row_len();
    let mut at = 0;
    for j in 0..count {
        let end = at + width;
        pass_sums_on(shape, at, out);
        let w = points_at(shape, points, j, count);
        parts::write_part(shape, i + j, w, vs, &mut out[at..end]);
        at = end;
    }
}

// The parts of `count` posts that have these check points; `i` posts stand before the first. A draw is its first number and the rest, so
// that f's constant need not stand in it.
#[tactic(auto, using(crate::proofs::Rest::higher_length, crate::proofs::Rest::higher_fits, crate::proofs::Rest::vs_drawn, crate::proofs::Rest::none_there, crate::proofs::Rest::first_inside, crate::proofs::Rest::first_lent, crate::proofs::Rest::first_row, crate::proofs::Rest::posts_written))]
pub fn write_posts(
    shape: Shape,
    i: usize,
    count: usize,
    points: &[u32],
    constant: u32,
    rest: &[u32],
    out: &mut [u32],
)
    requires { PostsRoom shape i count points.now rest.now out.old }
    ensures { out.new
        ≡ parts_from shape (constant ∷ rest.now) (points_from shape points.now i) (i + 1) count }
{
    if count < 1 {
        return;
    }
    let higher = shape.f_len() - 1;
    let width = shape.row_len();
    parts::write_sums(
        shape,
        constant,
        &rest[..higher],
        &rest[higher..],
        &mut out[..width],
    );
    write_parts(shape, i, count, points, &rest[higher..], out);
}

// The packs of a row whose draw has all its numbers.
#[tactic(auto, using(crate::proofs::Rest::some_drawn, crate::proofs::Rest::row_room, crate::proofs::Rest::row_written))]
pub fn write_row(shape: Shape, points: &[u32], draw: &[u32], out: &mut [u32])
    requires { Fine shape points.now draw.now (draw_length shape) out.old (packs_length shape) }
    ensures { out.new ≡ packs shape points.now draw.now }
{
    let n = shape.n;
    write_posts(shape, 0, n, points, draw[0], &draw[1..], out);
}

// The packs of l, then of l'.
#[tactic(auto, using(crate::proofs::Factors::two_drawn, crate::proofs::Factors::first_drawn, crate::proofs::Factors::first_lent, crate::proofs::Factors::first_fine, crate::proofs::Factors::second_fine, crate::proofs::Factors::factors_written))]
fn write_factors(shape: Shape, points: &[u32], draw: &[u32], out: &mut [u32])
    requires { FactorsRoom shape points.now draw.now out.old }
    ensures { out.new
        ≡ packs shape points.now (first_draw (draw_length shape) draw.now)
        ++ packs shape points.now (second_draw (draw_length shape) draw.now) }
{
    let d = shape.draw_len();
    let s = shape.packs_len();
    let end = d + d;
    write_row(shape, points, &draw[..d], &mut out[..s]);
    write_row(shape, points, &draw[d..end], &mut out[s..]);
}

// The packs of a triple; f(0) of l'' is the product of those of l and l'.
#[tactic(auto, using(crate::proofs::Factors::factors_lent, crate::proofs::Factors::third_drawn, crate::proofs::Factors::factors_room, crate::proofs::Factors::third_room, crate::proofs::Factors::triple_written_is))]
pub fn write_triple(shape: Shape, points: &[u32], draw: &[u32], out: &mut [u32])
    requires { Fine shape points.now draw.now (triple_draw_length shape) out.old (3 * packs_length shape) }
    ensures { out.new ≡ triple_packs shape points.now draw.now }
{
    let d = shape.draw_len();
    let s = shape.packs_len();
    let constant = field::mul(draw[0], draw[d]);
    let third = d + d;
    let at = s + s;
    let n = shape.n;
    write_factors(shape, points, draw, &mut out[..at]);
    write_posts(
        shape,
        0,
        n,
        points,
        constant,
        &draw[third..],
        &mut out[at..],
    );
}
