// Linear: a plus scale times b, element by element over whole rows, into an empty row, which becomes held; the fee is added to
// its public sums and to nothing else.
#![tactic(auto)]

pub mod sets;

ghost use Rattle.std.specs.Prelude.{◌≡◌, ◌≤◌, length, set};
ghost use Rattle.shape.specs.Bounds.{row_count_of, last_row_at};
ghost use Rattle.shape.specs.Marks.{held};
ghost use Rattle.refusal.specs.Refusal.{first, outcome};
ghost use Rattle.refusal.specs.Numbers.{refused};
ghost use Rattle.session.specs.Between.{Allows, Sized};
ghost use Rattle.linear.specs.Between.{linear_places_of, linear_numbers_of};
ghost use Rattle.linear.specs.Linear.{linear_marks_of, linear_refusal_of, linear_answer, linear_rows_of};

use refusal::Refusal;
use session::{Answer, Session};
use shape::{Mark, Shape};

// 6, of the three rows.
fn linear_places(dest: usize, a: usize, b: usize) -> Result<(), Refusal>
    ensures { refused result ≡ first (linear_places_of dest a b) }
{
    session::checks::row(dest)?;
    session::checks::row(a)?;
    session::checks::row(b)
}

// 7, of the three rows.
fn linear_marks(marks: &[u8], dest: usize, a: usize, b: usize) -> Result<(), Refusal>
    ensures { refused result ≡ first (linear_marks_of marks.now dest a b) }
{
    session::checks::wrong_mark(marks, dest, Mark::Empty)?;
    session::checks::wrong_mark(marks, a, Mark::Held)?;
    session::checks::wrong_mark(marks, b, Mark::Held)
}

// 8, of scale and fee and of the two rows that are read.
fn linear_numbers(
    shape: Shape,
    rows: &[u32],
    a: usize,
    b: usize,
    scale: u32,
    fee: u32,
) -> Result<(), Refusal>
    requires { Sized shape rows.now }
    ensures { refused result ≡ first (linear_numbers_of shape rows.now a b scale fee) }
{
    refusal::number(scale)?;
    refusal::number(fee)?;
    session::checks::numbers(shape, rows, a)?;
    session::checks::numbers(shape, rows, b)
}

// The marks are lent, since the call changes this copy of them too.
#[tactic(auto, using(session::proofs::Calls::shape_sized, crate::proofs::Combining::linear_stopped, crate::proofs::Combining::linear_misplaced, crate::proofs::Combining::linear_unmarked, crate::proofs::Combining::linear_checked, refusal::proofs::Checks::not_zero))]
fn linear_checks(
    session: Session,
    marks: &[u8],
    rows: &[u32],
    dest: usize,
    a: usize,
    b: usize,
    scale: u32,
    fee: u32,
) -> Result<(), Refusal>
    requires { marks.now ≡ session.marks }
    ensures { refused result ≡ linear_refusal_of session rows.now dest a b scale fee }
{
    session.frame(rows)?;
    linear_places(dest, a, b)?;
    linear_marks(marks, dest, a, b)?;
    linear_numbers(session.shape(), rows, a, b, scale, fee)
}

// The rows, after a call whose checks found this.
#[tactic(auto, using(crate::proofs::Combining::linear_untouched, crate::proofs::Combining::linear_written, refusal::proofs::Checks::ok_zero, refusal::proofs::Checks::err_not_zero))]
fn linear_rows(
    session: Session,
    rows: &mut [u32],
    dest: usize,
    a: usize,
    b: usize,
    scale: u32,
    fee: u32,
    checked: Result<(), Refusal>,
)
    requires { refused checked ≡ linear_refusal_of session rows.old dest a b scale fee }
    ensures { rows.new ≡ linear_rows_of session rows.old dest a b scale fee }
{
    if checked.is_ok() {
        sums::sum_rows(session.shape(), rows, dest, a, b, scale, fee);
    }
}

// The marks, after a call whose checks found this.
#[tactic(auto, using(crate::proofs::Sharing::row_96, crate::proofs::Sharing::set_refused, crate::proofs::Sharing::set_done, refusal::proofs::Checks::ok_zero, refusal::proofs::Checks::err_not_zero))]
fn hold_unless(checked: Result<(), Refusal>, marks: &mut [u8], dest: usize)
    requires { (length marks.old ≡ row_count_of) × Allows (refused checked) (dest ≤ last_row_at) }
    ensures { marks.new ≡ outcome (refused checked) (set marks.old dest held) marks.old }
{
    if checked.is_ok() {
        marks[dest] = Mark::Held as u8;
    }
}

#[tactic(auto, using(crate::proofs::Combining::linear_allows, crate::proofs::Sharing::allows_a, crate::proofs::Sharing::allows_b, crate::proofs::Sharing::sum_done))]
pub fn linear(
    session: Session,
    rows: &mut [u32],
    dest: usize,
    a: usize,
    b: usize,
    scale: u32,
    fee: u32,
) -> Answer
    ensures value { result ≡ linear_answer session rows.old dest a b scale fee }
    ensures rows_after { rows.new ≡ linear_rows_of session rows.old dest a b scale fee }
{
    // The lists that change are copied first, for both ends: behind the rows they would be copied in two places.
    let mut marks = session.marks;
    let mut barred = session.barred;
    let checked = linear_checks(session, &marks, rows, dest, a, b, scale, fee);
    linear_rows(session, rows, dest, a, b, scale, fee, checked);
    sets::share_unless(checked, &mut barred, dest, a, b);
    hold_unless(checked, &mut marks, dest);
    Answer {
        refusal: refusal::number_of(checked),
        value: 0,
        session: Session {
            marks,
            barred,
            ..session
        },
    }
}
