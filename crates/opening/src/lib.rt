// Opening: a post checks what the others sent of a row, and brings the number out.
#![tactic(auto)]

ghost use Rattle.std.specs.Prelude.{◌≡◌, [], ◌∷◌, length};
ghost use Rattle.shape.specs.Marks.{held};
ghost use Rattle.refusal.specs.Refusal.{first, ◌when◌};
ghost use Rattle.refusal.specs.Numbers.{refused};
ghost use Rattle.session.specs.Sessions.{holding};
ghost use Rattle.session.specs.Checks.{wrong_mark_of};
ghost use Rattle.session.specs.Between.{Framed};
ghost use Rattle.walk.specs.Number.{value_or_zero};
ghost use Rattle.opening.specs.Walking.{record_length};
ghost use Rattle.opening.specs.Opening.{row_checks_of, open_checks_of, open_answer};

use blocks::Opening;
use refusal::Refusal;
use session::{Answer, Session};
use shape::Mark;

// 6 to 8 of an opening, once 1 to 5 have passed and 7 has been looked up.
#[tactic(auto, using(session::proofs::Calls::same_sized, crate::proofs::Opens::own_recorded, crate::proofs::Opens::row_stopped, crate::proofs::Opens::mark_stopped, crate::proofs::Opens::numbers_stopped, crate::proofs::Opens::record_checked, refusal::proofs::Checks::not_zero))]
fn row_checks(
    session: Session,
    rows: &[u32],
    row: usize,
    blocks: &[u32],
    mark: Result<(), Refusal>,
) -> Result<(), Refusal>
    requires { Framed session rows.now × (length blocks.now ≡ record_length session) × (refused mark ≡ first (7 when wrong_mark_of session row held ∷ [])) }
    ensures { refused result ≡ first (row_checks_of session rows.now row blocks.now) }
{
    session::checks::row(row)?;
    mark?;
    session::checks::numbers(session.shape(), rows, row)?;
    blocks::refusal(session.party(), blocks)
}

// 1 to 8 of an opening; 9 and 13 are the walk's.
#[tactic(auto, using(session::proofs::Calls::frame_passed, session::proofs::Calls::shape_valid, crate::proofs::Opens::record_long, crate::proofs::Opens::open_stopped, crate::proofs::Opens::open_sized, crate::proofs::Opens::open_checked, refusal::proofs::Checks::not_zero))]
fn open_checks(
    session: Session,
    rows: &[u32],
    row: usize,
    blocks: &[u32],
    mark: Result<(), Refusal>,
) -> Result<(), Refusal>
    requires { refused mark ≡ first (7 when wrong_mark_of session row held ∷ []) }
    ensures { refused result ≡ first (open_checks_of session rows.now row blocks.now) }
{
    session.frame(rows)?;
    refusal::size(blocks, session.shape().record_len())?;
    row_checks(session, rows, row, blocks, mark)
}

// The number that a row opens to, or the refusal: the answer but for the session.
#[tactic(auto, using(crate::proofs::Opens::open_refused, crate::proofs::Opens::open_row_sized, crate::proofs::Opens::open_row_in, crate::proofs::Opens::row_openable, crate::proofs::Opens::open_walked, refusal::proofs::Checks::not_zero))]
fn opened(
    session: Session,
    rows: &[u32],
    row: usize,
    blocks: &[u32],
    mark: Result<(), Refusal>,
) -> Result<u32, Refusal>
    requires { refused mark ≡ first (7 when wrong_mark_of session row held ∷ []) }
    ensures { holding (refused result) (value_or_zero result) session ≡ open_answer session rows.now row blocks.now }
{
    open_checks(session, rows, row, blocks, mark)?;
    rooms::open_row(Opening {
        party: session.party(),
        row: session::rows::row(session.shape(), rows, row),
        blocks,
    })
}

// The number that a row opens to, or the refusal: `open` without the session in its answer, so that no session is copied. 7 is looked up
// in a copy of the marks, since a list that is lent stays in memory with all that it is a part of.
pub fn open_number(
    session: Session,
    rows: &[u32],
    row: usize,
    blocks: &[u32],
) -> Result<u32, Refusal>
    ensures { holding (refused result) (value_or_zero result) session ≡ open_answer session rows.now row blocks.now }
{
    let marks = session.marks;
    let mark = session::checks::wrong_mark(&marks, row, Mark::Held);
    opened(session, rows, row, blocks, mark)
}

// Opens a held row with a record of what the posts sent. Session and rows stay as they are: there is one end, refused or not, so that the
// session is copied once.
pub fn open(session: Session, rows: &[u32], row: usize, blocks: &[u32]) -> Answer
    ensures { result ≡ open_answer session rows.now row blocks.now }
{
    let found = open_number(session, rows, row, blocks);
    Answer {
        refusal: refusal::number_of(found),
        value: found.unwrap_or(0),
        session,
    }
}
