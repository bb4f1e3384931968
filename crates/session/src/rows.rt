// Rows in the list that the caller lends: where one stands, read and written whole.
ghost use Rattle.std.specs.Prelude.{◌≡◌, ◌*◌, length};
ghost use Rattle.shape.specs.Lengths.{Valid, row_length};
ghost use Rattle.session.specs.Rows.{row_at, with_row};
ghost use Rattle.session.specs.Between.{Sized, RowIn};

use shape::Shape;

// Where a row begins.
pub fn row_at(shape: Shape, row: usize) -> usize
    requires { Valid shape × RowIn shape row }
    ensures { result ≡ row * row_length shape }
{
    row * shape.row_len()
}

// A row, as a part of the list.
pub fn row<'a>(shape: Shape, rows: &'a [u32], row: usize) -> &'a [u32]
    requires { Sized shape rows.now × RowIn shape row }
    ensures result_value { result.now ≡ row_at (row_length shape) rows.now row }
    ensures result_len { length result.now ≡ row_length shape }
{
    let from = row_at(shape, row);
    let end = from + shape.row_len();
    &rows[from..end]
}

// The numbers, in the place of a row.
pub fn put_row(shape: Shape, rows: &mut [u32], row: usize, numbers: &[u32])
    requires { Sized shape rows.old × RowIn shape row × (length numbers.now ≡ row_length shape) }
    ensures { rows.new ≡ with_row (row_length shape) row numbers.now rows.old }
{
    let from = row_at(shape, row);
    let end = from + shape.row_len();
    lists::copy(numbers, &mut rows[from..end]);
}
