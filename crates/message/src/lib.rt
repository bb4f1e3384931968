// Opening message: the coefficients of a held row's polynomial, into a lent list.
#![tactic(auto)]

ghost use Rattle.std.specs.Prelude.{◌≡◌, ◌≤◌, ◌<◌, length, [], ◌∷◌};
ghost use Rattle.refusal.specs.Refusal.{first, ◌when◌};
ghost use Rattle.refusal.specs.Numbers.{refused};
ghost use Rattle.shape.specs.Marks.{held};
ghost use Rattle.shape.specs.Lengths.{row_length, v_length};
ghost use Rattle.shape.specs.Row.{coefficients};
ghost use Rattle.session.specs.Sessions.{barred_from};
ghost use Rattle.session.specs.Rows.{row_at};
ghost use Rattle.session.specs.Checks.{wrong_mark_of};
ghost use Rattle.session.specs.Between.{Framed, Sized, RowIn};
ghost use Rattle.message.specs.Between.{message_own_tests};
ghost use Rattle.message.specs.Message.{message_early, message_refusal_of, message_answer, message_out_of};

use refusal::Refusal;
use session::{Answer, Session};
use shape::{Mark, Shape};

// 5 to 8, once the session and its rows are checked; 7 has been looked up.
#[tactic(auto, using(session::proofs::Calls::same_sized, session::proofs::Calls::same_valid))]
fn message_own(
    session: Session,
    rows: &[u32],
    row: usize,
    out: &[u32],
    marks: Result<(), Refusal>,
) -> Result<(), Refusal>
    requires { Framed session rows.now × (refused marks ≡ first (7 when wrong_mark_of session row held ∷ [])) }
    ensures { refused result ≡ first (message_own_tests session rows.now row out.now) }
{
    let shape = session.shape();
    refusal::size(out, shape.v_len())?;
    session::checks::row(row)?;
    marks?;
    session::checks::numbers(shape, rows, row)
}

// 1 to 8.
#[tactic(auto, using(session::proofs::Calls::frame_passed, crate::proofs::Messages::message_stopped, crate::proofs::Messages::message_checked, refusal::proofs::Checks::not_zero))]
fn message_checks(
    session: Session,
    rows: &[u32],
    row: usize,
    out: &[u32],
    marks: Result<(), Refusal>,
) -> Result<(), Refusal>
    requires { refused marks ≡ first (7 when wrong_mark_of session row held ∷ []) }
    ensures { refused result ≡ message_early session rows.now row out.now }
{
    session.frame(rows)?;
    message_own(session, rows, row, out, marks)
}

// 15, of the post that calls for the row's opening.
#[tactic(auto, using(crate::proofs::Messages::caller_low, crate::proofs::Messages::caller_high, crate::proofs::Messages::caller_barred, crate::proofs::Messages::caller_there))]
fn not_called(session: Session, row: usize, caller: usize) -> Result<(), Refusal>
    requires { (row < 96) × (session.n ≤ 255) }
    ensures { refused result ≡ first (15 when barred_from session row caller ∷ []) }
{
    if caller < 1 || session.n < caller {
        return Err(Refusal::CallerBarred);
    }
    let sets = session.barred;
    if callers::bars(&sets, row, caller) {
        return Err(Refusal::CallerBarred);
    }
    Ok(())
}

#[tactic(auto, using(crate::proofs::Messages::message_refused, crate::proofs::Messages::message_called, crate::proofs::Messages::checked_row, crate::proofs::Messages::checked_posts, refusal::proofs::Checks::not_zero))]
fn all_checks(
    session: Session,
    rows: &[u32],
    row: usize,
    caller: usize,
    out: &[u32],
) -> Result<(), Refusal>
    ensures { refused result ≡ message_refusal_of session rows.now row caller out.now }
{
    let all_marks = session.marks;
    let marks = session::checks::wrong_mark(&all_marks, row, Mark::Held);
    message_checks(session, rows, row, out, marks)?;
    not_called(session, row, caller)
}

#[tactic(auto, using(crate::proofs::Messages::front_long, crate::proofs::Messages::front_size, crate::proofs::Messages::front_copied))]
fn message_accepted(shape: Shape, rows: &[u32], row: usize, out: &mut [u32])
    requires { Sized shape rows.now × RowIn shape row × (length out.old ≡ v_length shape) }
    ensures { out.new ≡ coefficients shape (row_at (row_length shape) rows.now row) }
{
    let count = shape.v_len();
    let own = session::rows::row(shape, rows, row);
    lists::copy(&own[..count], out);
}

// The lent list, after a call whose checks found this.
#[tactic(auto, using(crate::proofs::Messages::message_untouched, crate::proofs::Messages::message_written, refusal::proofs::Checks::ok_zero, refusal::proofs::Checks::err_not_zero))]
fn message_out(
    session: Session,
    rows: &[u32],
    row: usize,
    caller: usize,
    out: &mut [u32],
    checked: Result<(), Refusal>,
)
    requires { refused checked ≡ message_refusal_of session rows.now row caller out.old }
    ensures { out.new ≡ message_out_of session rows.now row caller out.old }
{
    if checked.is_ok() {
        message_accepted(session.shape(), rows, row, out);
    }
}

// A message changes nothing: refused or not, the session goes back as it came, with the refusal or with 0 for none.
#[tactic(auto, using(session::proofs::Endings::same_answer))]
pub fn opening_message(
    session: Session,
    rows: &[u32],
    row: usize,
    caller: usize,
    out: &mut [u32],
) -> Answer
    ensures value { result ≡ message_answer session rows.now row caller out.old }
    ensures out_after { out.new ≡ message_out_of session rows.now row caller out.old }
{
    let checked = all_checks(session, rows, row, caller, out);
    message_out(session, rows, row, caller, out, checked);
    // Written out: by a method of the session, the session would be copied once more.
    Answer {
        refusal: refusal::number_of(checked),
        value: 0,
        session,
    }
}
