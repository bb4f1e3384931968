// Deal: c is added to m1..mn of a raw row, which becomes held.
#![tactic(auto)]

ghost use Rattle.std.specs.Prelude.{◌≡◌};
ghost use Rattle.refusal.specs.Refusal.{first};
ghost use Rattle.refusal.specs.Numbers.{refused};
ghost use Rattle.session.specs.Between.{Sized};
ghost use Rattle.deal.specs.Between.{row_tests};
ghost use Rattle.deal.specs.Deal.{deal_refusal_of, deal_answer, deal_rows_of};

use refusal::Refusal;
use session::{Answer, Session};
use shape::{Mark, Shape};

// 6 to 8, once 1 to 5 are checked. Marks are lent and the session is not handed over: a turn of `dealers` asks this too.
pub fn row_checks(
    shape: Shape,
    marks: &[u8],
    rows: &[u32],
    row: usize,
    c: u32,
) -> Result<(), Refusal>
    requires { Sized shape rows.now }
    ensures { refused result ≡ first (row_tests shape marks.now rows.now row c) }
{
    session::checks::row(row)?;
    session::checks::wrong_mark(marks, row, Mark::Raw)?;
    refusal::number(c)?;
    session::checks::numbers(shape, rows, row)
}

#[tactic(auto, using(session::proofs::Calls::shape_sized, crate::proofs::Dealing::deal_stopped, crate::proofs::Dealing::deal_checked, refusal::proofs::Checks::not_zero))]
fn deal_checks(
    session: Session,
    marks: &[u8],
    rows: &[u32],
    row: usize,
    c: u32,
) -> Result<(), Refusal>
    requires { marks.now ≡ session.marks }
    ensures { refused result ≡ deal_refusal_of session rows.now row c }
{
    session.frame(rows)?;
    row_checks(session.shape(), marks, rows, row, c)
}

// The rows, after a call whose checks found this.
#[tactic(auto, using(crate::proofs::Dealing::deal_untouched, crate::proofs::Dealing::deal_written, refusal::proofs::Checks::ok_zero, refusal::proofs::Checks::err_not_zero))]
fn deal_rows(session: Session, rows: &mut [u32], row: usize, c: u32, checked: Result<(), Refusal>)
    requires { refused checked ≡ deal_refusal_of session rows.old row c }
    ensures { rows.new ≡ deal_rows_of session rows.old row c }
{
    if checked.is_ok() {
        sums::add_to_sums(session.shape(), rows, row, c);
    }
}

#[tactic(auto, using(session::proofs::Endings::endings, crate::proofs::Dealing::deal_allows))]
pub fn deal(session: Session, rows: &mut [u32], row: usize, c: u32) -> Answer
    ensures value { result ≡ deal_answer session rows.old row c }
    ensures rows_after { rows.new ≡ deal_rows_of session rows.old row c }
{
    // The marks are copied first: behind the checks the whole session would be copied with them.
    let marks = session.marks;
    let checked = deal_checks(session, &marks, rows, row, c);
    // The answer last: made before the sums it would stand on the stack until they are added, since nothing says that it is none of them.
    deal_rows(session, rows, row, c, checked);
    session.answer_marking(checked, row, Mark::Held)
}
