// Sums of rows: c added to the public sums of a row, and a row plus a multiple of another.
#![tactic(auto)]

ghost use Rattle.std.specs.Prelude.{◌≡◌, map, length};
ghost use Rattle.field.specs.Arithmetic.{sum};
ghost use Rattle.shape.specs.Lengths.{row_length, sums_at_of};
ghost use Rattle.session.specs.Rows.{row_at, with_row, combined, plus_sums, summed};
ghost use Rattle.session.specs.Between.{Sized, RowIn};

use shape::Shape;

// c added to each number, as a deal adds it to the public sums of a row.
fn add_to_each(sums: &mut [u32], c: u32)
    ensures { sums.new ≡ map (λ m. sum m c) sums.old }
{
    for place in sums.iter_mut() {
        *place = field::add(*place, c);
    }
}

// x plus scale times y, into `out`.
pub fn combine(scale: u32, x: &[u32], y: &[u32], out: &mut [u32])
    requires { (length x.now ≡ length out.old) × (length y.now ≡ length out.old) }
    ensures { out.new ≡ combined scale x.now y.now }
{
    for (i, place) in out.iter_mut().enumerate() {
        *place = field::add_product(x[i], scale, y[i]);
    }
}

// c added to the public sums of a row, which are its last n numbers.
#[tactic(auto, using(session::proofs::RowLaws::sums_put), unfolding(session::specs::Rows::plus_sums))]
pub fn add_to_sums(shape: Shape, rows: &mut [u32], row: usize, c: u32)
    requires { Sized shape rows.old × RowIn shape row }
    ensures { rows.new
        ≡ with_row (row_length shape) row (plus_sums (sums_at_of shape) c (row_at (row_length shape) rows.old row))
        rows.old }
{
    let start = session::rows::row_at(shape, row);
    let from = start + shape.sums_at();
    let end = from + shape.n;
    add_to_each(&mut rows[from..end], c);
}

// Row a plus scale times row b, number by number, in the place of row dest, which may be one of them: so all three are read and written
// by their places in one list.
#[tactic(auto, using(crate::proofs::Within::within_start))]
fn combine_rows(shape: Shape, rows: &mut [u32], dest: usize, a: usize, b: usize, scale: u32)
    requires { Sized shape rows.old × RowIn shape dest × RowIn shape a × RowIn shape b }
    ensures { rows.new
        ≡ with_row (row_length shape) dest (combined scale (row_at (row_length shape) rows.old a)
        (row_at (row_length shape) rows.old b)) rows.old }
{
    let width = shape.row_len();
    let to = session::rows::row_at(shape, dest);
    let from = session::rows::row_at(shape, a);
    let other = session::rows::row_at(shape, b);
    for i in 0..width {
        rows[to + i] = field::add_product(rows[from + i], scale, rows[other + i]);
    }
}

// Row a plus scale times row b, in the place of row dest, with a fee added to its public sums: linear's sum, and a product's.
#[tactic(auto, using(crate::proofs::Summed::sum_without_fee, crate::proofs::Summed::sum_with_fee))]
pub fn sum_rows(
    shape: Shape,
    rows: &mut [u32],
    dest: usize,
    a: usize,
    b: usize,
    scale: u32,
    fee: u32,
)
    requires { Sized shape rows.old × RowIn shape dest × RowIn shape a × RowIn shape b }
    ensures { rows.new
        ≡ with_row (row_length shape) dest (summed (sums_at_of shape) scale fee (row_at (row_length shape) rows.old a)
        (row_at (row_length shape) rows.old b)) rows.old }
{
    combine_rows(shape, rows, dest, a, b, scale);
    if fee != 0 {
        add_to_sums(shape, rows, dest, fee);
    }
}
