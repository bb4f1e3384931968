// The second call of a finish: l'' + y l' + y' l + y y' goes into the triple's third row, from the y and y' that the session remembers.
#![tactic(auto)]

ghost use Rattle.std.specs.Prelude.{◌≡◌, ◌+◌, ◌≤◌, get_or};
ghost use Rattle.field.specs.Arithmetic.{product};
ghost use Rattle.shape.specs.Bounds.{last_triple};
ghost use Rattle.shape.specs.Lengths.{row_length, sums_at_of};
ghost use Rattle.refusal.specs.Refusal.{first};
ghost use Rattle.refusal.specs.Numbers.{refused};
ghost use Rattle.session.specs.Sessions.{opened_a_of, opened_b_of};
ghost use Rattle.session.specs.Rows.{row_at, with_row, summed};
ghost use Rattle.session.specs.Between.{Framed, Sized, TripleIn};
ghost use Rattle.multiply.specs.Multiply.{remembered_numbers_of, multiply_marks_of, multiply_own_of, multiply_refusal_of, multiply_answer, multiply_rows_of};

use refusal::Refusal;
use session::{Answer, Session};
use shape::{Mark, Shape};

// 8, of the two numbers and of the triple's three rows.
fn remembered_numbers(
    shape: Shape,
    rows: &[u32],
    row: usize,
    y_a: u32,
    y_b: u32,
) -> Result<(), Refusal>
    requires { Sized shape rows.now × (row ≤ last_triple) }
    ensures { refused result ≡ first (remembered_numbers_of (row_length shape) rows.now row y_a y_b) }
{
    refusal::number(y_a)?;
    refusal::number(y_b)?;
    session::checks::numbers(shape, rows, row)?;
    session::checks::numbers(shape, rows, row + 1)?;
    session::checks::numbers(shape, rows, row + 2)
}

// A remembered number; 0 for a row that is none. It is read once for all: a list of them is copied for each look.
fn number(numbers: &[u32], row: usize) -> u32
    ensures { result ≡ get_or numbers.now row 0 }
{
    match numbers.get(row) {
        Some(&number) => number,
        None => 0,
    }
}

// 7, of the triple's rows and of the factor rows that it remembers.
#[tactic(auto, using(crate::proofs::Multiplying::triple_96))]
fn multiply_marks(session: Session, row: usize) -> Result<(), Refusal>
    requires { row ≤ last_triple }
    ensures { refused result ≡ first (multiply_marks_of session row) }
{
    let all_marks = session.marks;
    let factors_a = session.factor_a;
    let factors_b = session.factor_b;
    let a = factors_a[row] as usize;
    let b = factors_b[row] as usize;
    session::checks::wrong_marks(
        &all_marks,
        row,
        Mark::Collected,
        Mark::Further,
        Mark::Further,
    )?;
    session::checks::wrong_mark(&all_marks, a, Mark::Held)?;
    session::checks::wrong_mark(&all_marks, b, Mark::Held)
}

// 7 and 8, once 1 to 6 have passed.
#[tactic(auto, using(crate::proofs::Multiplying::own_stopped, crate::proofs::Multiplying::own_asked, session::proofs::Calls::same_sized, refusal::proofs::Checks::not_zero))]
fn multiply_own(
    session: Session,
    rows: &[u32],
    row: usize,
    y_a: u32,
    y_b: u32,
) -> Result<(), Refusal>
    requires { Framed session rows.now × (row ≤ last_triple) × (y_a ≡ opened_a_of session row) × (y_b ≡ opened_b_of session row) }
    ensures { refused result ≡ first (multiply_own_of session rows.now row) }
{
    multiply_marks(session, row)?;
    remembered_numbers(session.shape(), rows, row, y_a, y_b)
}

#[tactic(auto, using(crate::proofs::Multiplying::multiply_stopped, crate::proofs::Multiplying::multiply_misplaced, crate::proofs::Multiplying::multiply_placed, crate::proofs::Multiplying::multiply_checked, refusal::proofs::Checks::not_zero))]
fn multiply_checks(
    session: Session,
    rows: &[u32],
    first: usize,
    y_a: u32,
    y_b: u32,
) -> Result<(), Refusal>
    requires { (y_a ≡ opened_a_of session first) × (y_b ≡ opened_b_of session first) }
    ensures { refused result ≡ multiply_refusal_of session rows.now first }
{
    session.frame(rows)?;
    session::checks::triple(first)?;
    multiply_own(session, rows, first, y_a, y_b)
}

// l'' + y l' + y' l into the triple's third row, with the fee y y'.
#[tactic(auto, using(crate::proofs::Sums::product_written))]
pub fn write_product(shape: Shape, rows: &mut [u32], first: usize, y_a: u32, y_b: u32)
    requires { Sized shape rows.old × TripleIn shape first }
    ensures { rows.new
        ≡ with_row (row_length shape) (first + 2) (summed (sums_at_of shape) y_b (product y_a y_b)
        (summed (sums_at_of shape) y_a 0 (row_at (row_length shape) rows.old (first + 2))
        (row_at (row_length shape) rows.old (first + 1))) (row_at (row_length shape) rows.old first)) rows.old }
{
    let third = first + 2;
    let fee = field::mul(y_a, y_b);
    sums::sum_rows(shape, rows, third, third, first + 1, y_a, 0);
    sums::sum_rows(shape, rows, third, third, first, y_b, fee);
}

// The rows, after a call whose checks found this.
#[tactic(auto, using(crate::proofs::Multiplying::multiply_untouched, crate::proofs::Multiplying::multiply_written, refusal::proofs::Checks::ok_zero, refusal::proofs::Checks::err_not_zero))]
fn multiply_rows(
    session: Session,
    rows: &mut [u32],
    first: usize,
    y_a: u32,
    y_b: u32,
    checked: Result<(), Refusal>,
)
    requires { (y_a ≡ opened_a_of session first) × (y_b ≡ opened_b_of session first) × (refused checked ≡ multiply_refusal_of session rows.old first) }
    ensures { rows.new ≡ multiply_rows_of session rows.old first }
{
    if checked.is_ok() {
        write_product(session.shape(), rows, first, y_a, y_b);
    }
}

#[tactic(auto, using(crate::proofs::Multiplying::multiply_allows))]
pub fn multiply(session: Session, rows: &mut [u32], first: usize) -> Answer
    ensures value { result ≡ multiply_answer session rows.old first }
    ensures rows_after { rows.new ≡ multiply_rows_of session rows.old first }
{
    let opened_a = session.y_a;
    let opened_b = session.y_b;
    let y_a = number(&opened_a, first);
    let y_b = number(&opened_b, first);
    let checked = multiply_checks(session, rows, first, y_a, y_b);
    multiply_rows(session, rows, first, y_a, y_b, checked);
    session.answer_multiplying(checked, first)
}
