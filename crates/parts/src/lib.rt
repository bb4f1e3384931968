// One post's part of a drawn row. f is its constant and the `higher` coefficients behind it, and `vs` are v1 to vn, one
// after the other: a triple's third draw, whose f has no drawn constant, is then written like any other. Values are sums of
// products with the powers of the point. These stand where the post's own coefficients come last, so that no room is needed.
#![tactic(auto)]

ghost use Rattle.std.specs.Prelude.{◌≡◌, ◌∷◌, ◌*◌, ◌≤◌, ◌<◌, length, take, drop};
ghost use Rattle.poly.specs.Polynomial.{value};
ghost use Rattle.poly.specs.Counting.{Elements};
ghost use Rattle.shape.specs.Bounds.{longest_v};
ghost use Rattle.shape.specs.Lengths.{Valid, v_length, checks_length, sums_at_of, row_length};
ghost use Rattle.parts.specs.Draw.{each_from};
ghost use Rattle.parts.specs.Between.{v_of, value_of, weighed_at, check_values, woven, sum_at, sums, part_with, Drawn, ChecksRoom, Higher};

use shape::{Points, Shape};

// So few coefficients go by Horner's rule: their powers would take longer.
const FEW: usize = 2;

// The polynomial of post i + 1.
#[tactic(auto, using(crate::proofs::Turns::v_room, crate::proofs::Turns::v_fits, crate::proofs::Turns::v_end_fits, crate::proofs::Turns::v_bytes_fit, crate::proofs::Turns::v_is, crate::proofs::Turns::v_length_is))]
fn v<'a>(shape: Shape, vs: &'a [u32], i: usize) -> &'a [u32]
    requires { Valid shape × (length vs.now ≡ shape.n * v_length shape) × (i < shape.n) }
    ensures result_value { result.now ≡ v_of shape vs.now i }
    ensures result_len { length result.now ≡ v_length shape }
{
    let k = shape.v_len();
    let at = i * k;
    let end = at + k;
    &vs[at..end]
}

// The sum of the products of each polynomial's coefficients with the powers in front, behind them: each polynomial's h-th check value. The powers
// are read from the list that is written at every so many places, which an iterator cannot lend at once.
fn weigh_each(shape: Shape, h: usize, vs: &[u32], out: &mut [u32])
    requires { Drawn shape vs.now × ChecksRoom shape out.old × Elements (take (v_length shape) out.old) × (h < shape.points) }
    ensures { drop (v_length shape) out.new
        ≡ each_from 0 (checks_length shape)
        (woven shape.points h (weighed_at shape (take (v_length shape) out.old) vs.now)
        (drop (v_length shape) out.old)) }
{
    let n = shape.n;
    let points = shape.points;
    let k = shape.v_len();
    for i in 0..n {
        let sum = poly::weigh_elements(v(shape, vs, i), &out[..k]);
        let place = i * points + h;
        let at = k + place;
        out[at] = sum;
    }
}

// The value of each polynomial at w.
fn evaluate_each(shape: Shape, w: u32, vs: &[u32], out: &mut [u32])
    requires { Valid shape × (length vs.now ≡ shape.n * v_length shape) × (length out.old ≡ shape.n) }
    ensures { out.new ≡ each_from 0 shape.n (value_of shape w vs.now) }
{
    for (i, place) in out.iter_mut().enumerate() {
        *place = poly::evaluate(v(shape, vs, i), w);
    }
}

// The h-th check value of each post, behind room for the powers of w; the other check values are as they were.
#[tactic(auto, using(crate::proofs::Row::checks_lent, crate::proofs::Row::filled_room, crate::proofs::Row::filled_elements, crate::proofs::Row::checks_written))]
fn weigh_at(shape: Shape, h: usize, w: u32, vs: &[u32], out: &mut [u32])
    requires { Drawn shape vs.now × ChecksRoom shape out.old × (h < shape.points) }
    ensures { drop (v_length shape) out.new
        ≡ each_from 0 (checks_length shape) (woven shape.points h (value_of shape w vs.now) (drop (v_length shape) out.old)) }
{
    let k = shape.v_len();
    poly::powers(w, &mut out[..k]);
    weigh_each(shape, h, vs, out);
}

// vj(w) for each post j and each point w, behind room for the powers of a point. So few coefficients are with one point only.
#[tactic(auto, using(crate::proofs::Row::horner_room, crate::proofs::Row::horner_written, crate::proofs::Row::one_pass, crate::proofs::Row::two_passes))]
fn write_check_values(shape: Shape, w: Points, vs: &[u32], out: &mut [u32])
    requires { Drawn shape vs.now × ChecksRoom shape out.old }
    ensures { drop (v_length shape) out.new ≡ check_values shape w vs.now }
{
    let k = shape.v_len();
    if k == FEW {
        evaluate_each(shape, w.first, vs, &mut out[k..]);
        return;
    }
    weigh_at(shape, 0, w.first, vs, out);
    if shape.points < 2 {
        return;
    }
    weigh_at(shape, 1, w.second, vs, out);
}

// f(x).
#[tactic(auto, using(crate::proofs::Turns::elements_filled, crate::proofs::Turns::f_horner, crate::proofs::Turns::f_value))]
fn shared_value(constant: u32, higher: &[u32], x: u32, powers: &mut [u32]) -> u32
    requires { (length higher.now ≤ length powers.old) × (length powers.old ≤ longest_v) }
    ensures { result ≡ value (constant ∷ higher.now) x }
{
    if higher.len() <= FEW {
        return field::add_product(constant, x, poly::evaluate(higher, x));
    }
    poly::powers(x, powers);
    field::add_product(constant, x, poly::weigh_elements(higher, powers))
}

// mj = vj(0) + f(j), of post j = i + 1.
#[tactic(auto, using(crate::proofs::Turns::some_coefficient, crate::proofs::Turns::post_fits, crate::proofs::Turns::higher_room, crate::proofs::Turns::powers_short, crate::proofs::Turns::sum_is))]
fn public_sum(
    shape: Shape,
    constant: u32,
    higher: &[u32],
    vs: &[u32],
    powers: &mut [u32],
    i: usize,
) -> u32
    requires { Drawn shape vs.now × Higher shape higher.now × (length powers.old ≡ v_length shape) × (i < shape.n) }
    ensures { result ≡ sum_at shape (constant ∷ higher.now) vs.now i }
{
    let own = v(shape, vs, i);
    let j = (i + 1) as u32;
    field::add(own[0], shared_value(constant, higher, j, powers))
}

// m1 to mn, at their place in a row. The powers of a point stand in front meanwhile, so that a turn lends them and then writes behind them.
pub fn write_sums(shape: Shape, constant: u32, higher: &[u32], vs: &[u32], out: &mut [u32])
    requires { Drawn shape vs.now × Higher shape higher.now × (length out.old ≡ row_length shape) }
    ensures { drop (sums_at_of shape) out.new ≡ sums shape (constant ∷ higher.now) vs.now }
{
    let n = shape.n;
    let k = shape.v_len();
    let sums = shape.sums_at();
    for i in 0..n {
        let sum = public_sum(shape, constant, higher, vs, &mut out[..k], i);
        let at = sums + i;
        out[at] = sum;
    }
}

// The part of post i + 1, whose check points are w, before the public sums, which stand at their place.
#[tactic(auto, using(crate::proofs::Row::front_lent, crate::proofs::Row::front_room, crate::proofs::Row::own_lent, crate::proofs::Row::own_fits, crate::proofs::Row::part_written))]
pub fn write_part(shape: Shape, i: usize, w: Points, vs: &[u32], out: &mut [u32])
    requires { Drawn shape vs.now × (i < shape.n) × (length out.old ≡ row_length shape) }
    ensures { out.new ≡ part_with shape vs.now (drop (sums_at_of shape) out.old) i w }
{
    let k = shape.v_len();
    let sums = shape.sums_at();
    write_check_values(shape, w, vs, &mut out[..sums]);
    lists::copy(v(shape, vs, i), &mut out[..k]);
}
