// Loading: a raw row goes to an empty row, a triple to three empty rows one after the other.
#![tactic(auto)]

ghost use Rattle.std.specs.Prelude.{◌≡◌, ◌≤◌, ◌<◌, length, [], ◌∷◌};
ghost use Rattle.refusal.specs.Refusal.{first, ◌when◌};
ghost use Rattle.refusal.specs.Numbers.{refused};
ghost use Rattle.shape.specs.Bounds.{last_triple};
ghost use Rattle.shape.specs.Marks.{empty};
ghost use Rattle.shape.specs.Lengths.{Valid, row_length, triple_length};
ghost use Rattle.session.specs.Sessions.{shape_of};
ghost use Rattle.load.specs.Between.{load_row_own_tests, load_triple_place_tests};
ghost use Rattle.session.specs.Checks.{wrong_mark_of, wrong_marks_of};
ghost use Rattle.session.specs.Between.{Sized, TripleIn};
ghost use Rattle.load.specs.Load.{load_row_refusal_of, load_row_answer, load_row_rows_of, load_triple_refusal_of, load_triple_answer, load_triple_rows_of, with_triple};

use refusal::Refusal;
use session::{Answer, Session};
use shape::{Mark, Shape};

// 5 to 8, once the session and its rows are checked; 7 has been looked up.
fn load_row_own(
    session: Session,
    row: usize,
    pack: &[u32],
    marks: Result<(), Refusal>,
) -> Result<(), Refusal>
    requires { Valid (shape_of session) × (refused marks ≡ first (7 when wrong_mark_of session row empty ∷ [])) }
    ensures { refused result ≡ first (load_row_own_tests session row pack.now) }
{
    let shape = session.shape();
    refusal::size(pack, shape.row_len())?;
    session::checks::row(row)?;
    marks?;
    refusal::numbers(pack)
}

#[tactic(auto, using(crate::proofs::Loading::load_row_valid, crate::proofs::Loading::load_row_stopped, crate::proofs::Loading::load_row_checked, refusal::proofs::Checks::not_zero))]
fn load_row_checks(
    session: Session,
    rows: &[u32],
    row: usize,
    pack: &[u32],
    marks: Result<(), Refusal>,
) -> Result<(), Refusal>
    requires { refused marks ≡ first (7 when wrong_mark_of session row empty ∷ []) }
    ensures { refused result ≡ load_row_refusal_of session rows.now row pack.now }
{
    session.frame(rows)?;
    load_row_own(session, row, pack, marks)
}

// The rows, after a call whose checks found this.
#[tactic(auto, using(crate::proofs::Loading::load_row_untouched, crate::proofs::Loading::load_row_written, refusal::proofs::Checks::ok_zero, refusal::proofs::Checks::err_not_zero))]
fn load_row_rows(
    session: Session,
    rows: &mut [u32],
    row: usize,
    pack: &[u32],
    checked: Result<(), Refusal>,
)
    requires { refused checked ≡ load_row_refusal_of session rows.old row pack.now }
    ensures { rows.new ≡ load_row_rows_of session rows.old row pack.now }
{
    if checked.is_ok() {
        session::rows::put_row(session.shape(), rows, row, pack);
    }
}

#[tactic(auto, using(session::proofs::Endings::endings, crate::proofs::Loading::load_row_allows))]
pub fn load_row(session: Session, rows: &mut [u32], row: usize, pack: &[u32]) -> Answer
    ensures value { result ≡ load_row_answer session rows.old row pack.now }
    ensures rows_after { rows.new ≡ load_row_rows_of session rows.old row pack.now }
{
    let all_marks = session.marks;
    let marks = session::checks::wrong_mark(&all_marks, row, Mark::Empty);
    let checked = load_row_checks(session, rows, row, pack, marks);
    load_row_rows(session, rows, row, pack, checked);
    session.answer_marking(checked, row, Mark::Raw)
}

// 7, of the three rows from `row` on, which have to be empty; nothing where there are no three.
fn full_triple(marks: &[u8], row: usize) -> Result<(), Refusal>
    ensures { (row ≤ last_triple → refused result ≡ first (wrong_marks_of marks.now row empty empty empty))
        × (last_triple < row → refused result ≡ 0) }
{
    if row <= shape::LAST_TRIPLE {
        session::checks::wrong_marks(marks, row, Mark::Empty, Mark::Empty, Mark::Empty)
    } else {
        Ok(())
    }
}

// 5 and 6, once the session and its rows are checked.
fn load_triple_place(session: Session, row: usize, pack: &[u32]) -> Result<(), Refusal>
    requires { Valid (shape_of session) }
    ensures { refused result ≡ first (load_triple_place_tests session row pack.now) }
{
    let shape = session.shape();
    refusal::size(pack, shape.triple_len())?;
    session::checks::triple(row)
}

// The checks, where 7 has been looked up.
#[tactic(auto, using(crate::proofs::Loading::load_row_valid, crate::proofs::Loading::load_triple_stopped, crate::proofs::Loading::load_triple_misplaced, crate::proofs::Loading::load_triple_full, crate::proofs::Loading::load_triple_checked, refusal::proofs::Checks::not_zero))]
fn load_triple_checks(
    session: Session,
    rows: &[u32],
    row: usize,
    pack: &[u32],
    marks: Result<(), Refusal>,
) -> Result<(), Refusal>
    requires { row ≤ last_triple → refused marks ≡ first (wrong_marks_of session.marks row empty empty empty) }
    ensures { refused result ≡ load_triple_refusal_of session rows.now row pack.now }
{
    session.frame(rows)?;
    load_triple_place(session, row, pack)?;
    marks?;
    refusal::numbers(pack)
}

// The three rows stand one after the other in the pack and in the list.
#[tactic(auto, using(crate::proofs::Triples::triple_loaded_lem))]
fn load_triple_accepted(shape: Shape, rows: &mut [u32], first: usize, pack: &[u32])
    requires { Sized shape rows.old × TripleIn shape first × (length pack.now ≡ triple_length shape) }
    ensures { rows.new ≡ with_triple (row_length shape) first pack.now rows.old }
{
    let from = session::rows::row_at(shape, first);
    let end = from + shape.triple_len();
    lists::copy(pack, &mut rows[from..end]);
}

// The rows, after a call whose checks found this.
#[tactic(auto, using(crate::proofs::Loading::load_triple_untouched, crate::proofs::Loading::load_triple_written, refusal::proofs::Checks::ok_zero, refusal::proofs::Checks::err_not_zero))]
fn load_triple_rows(
    session: Session,
    rows: &mut [u32],
    first: usize,
    pack: &[u32],
    checked: Result<(), Refusal>,
)
    requires { refused checked ≡ load_triple_refusal_of session rows.old first pack.now }
    ensures { rows.new ≡ load_triple_rows_of session rows.old first pack.now }
{
    if checked.is_ok() {
        load_triple_accepted(session.shape(), rows, first, pack);
    }
}

#[tactic(auto, using(session::proofs::Endings::endings, crate::proofs::Loading::load_triple_allows))]
pub fn load_triple(session: Session, rows: &mut [u32], first: usize, pack: &[u32]) -> Answer
    ensures value { result ≡ load_triple_answer session rows.old first pack.now }
    ensures rows_after { rows.new ≡ load_triple_rows_of session rows.old first pack.now }
{
    let all_marks = session.marks;
    let marks = full_triple(&all_marks, first);
    let checked = load_triple_checks(session, rows, first, pack, marks);
    load_triple_rows(session, rows, first, pack, checked);
    session.answer_marking_triple(checked, first, Mark::Unused, Mark::Further, Mark::Further)
}
