// The checks that calls on a session share; a call joins them in the order of their numbers.
ghost use Rattle.std.specs.Prelude.{◌≡◌, ◌≤◌, [], ◌∷◌};
ghost use Rattle.refusal.specs.Refusal.{first, ◌when◌};
ghost use Rattle.refusal.specs.Numbers.{refused};
ghost use Rattle.refusal.specs.Conditions.{any_beyond};
ghost use Rattle.session.specs.Sessions.{mark_in, session_tests};
ghost use Rattle.shape.specs.Bounds.{last_triple};
ghost use Rattle.shape.specs.Lengths.{row_length};
ghost use Rattle.session.specs.Rows.{row_at};
ghost use Rattle.session.specs.Checks.{frame_tests, no_row, no_triple, wrong_mark_in, wrong_marks_of};
ghost use Rattle.session.specs.Between.{Sized};

use crate::{Session, rows};
use refusal::{HasNumber, Refusal};
use shape::{Mark, Points, Shape};

// 1 to 4, of a session's settings.
pub fn settings(n: usize, t: usize, post: usize, points: usize, w: Points) -> Result<(), Refusal>
    ensures { refused result ≡ first (session_tests n t post points w) }
{
    refusal::posts(n, t)?;
    refusal::post(n, post)?;
    refusal::points(points, w)
}

// 6, of a row.
pub fn row(row: usize) -> Result<(), Refusal>
    ensures { refused result ≡ first (6 when no_row row ∷ []) }
{
    if shape::LAST_ROW < row {
        return Err(Refusal::NoSuchRow);
    }
    Ok(())
}

// 6, of a triple's first row.
pub fn triple(row: usize) -> Result<(), Refusal>
    ensures { refused result ≡ first (6 when no_triple row ∷ []) }
{
    if shape::LAST_TRIPLE < row {
        return Err(Refusal::NoSuchRow);
    }
    Ok(())
}

// The mark of a row; 0 for a row that is none. Marks are lent and the session is not handed over: it would be copied for each look.
fn mark(marks: &[u8], row: usize) -> u8
    ensures { result ≡ mark_in marks.now row }
{
    match marks.get(row) {
        Some(&mark) => mark,
        None => Mark::Empty as u8,
    }
}

// 7, of the mark that a call needs on a row.
pub fn wrong_mark<M: HasNumber>(marks: &[u8], row: usize, need: M) -> Result<(), Refusal>
    ensures { refused result ≡ first (7 when wrong_mark_in marks.now row (M.numbered need) ∷ []) }
{
    if mark(marks, row) != need.as_number() {
        return Err(Refusal::WrongMark);
    }
    Ok(())
}

// 7, of the marks that a call needs on a triple's three rows.
pub fn wrong_marks<A: HasNumber, B: HasNumber, C: HasNumber>(
    marks: &[u8],
    row: usize,
    a: A,
    b: B,
    c: C,
) -> Result<(), Refusal>
    requires { row ≤ last_triple }
    ensures { refused result ≡ first (wrong_marks_of marks.now row (A.numbered a) (B.numbered b) (C.numbered c)) }
{
    wrong_mark(marks, row, a)
        .and(wrong_mark(marks, row + 1, b))
        .and(wrong_mark(marks, row + 2, c))
}

// 8, of every number of a row.
#[tactic(auto, using(crate::proofs::Passed::no_row_none, crate::proofs::Passed::row_below))]
pub fn numbers(shape: Shape, rows: &[u32], row: usize) -> Result<(), Refusal>
    requires { Sized shape rows.now }
    ensures { refused result ≡ first (8 when any_beyond (row_at (row_length shape) rows.now row) ∷ []) }
{
    if row <= shape::LAST_ROW {
        refusal::numbers(rows::row(shape, rows, row))
    } else {
        Ok(())
    }
}

impl Session {
    // 1 to 4 of the session, whose fields may hold anything, and 5 of its list of rows.
    #[tactic(auto, using(crate::proofs::Passed::frame_stopped, crate::proofs::Passed::frame_valid, crate::proofs::Passed::frame_sized, refusal::proofs::Checks::not_zero))]
    pub fn frame(self, rows: &[u32]) -> Result<(), Refusal>
        ensures { refused result ≡ first (frame_tests self rows.now) }
    {
        let w = self.check_points();
        settings(self.n, self.t, self.post, self.points, w)?;
        let shape = self.shape();
        refusal::size(rows, shape.rows_len())
    }
}
