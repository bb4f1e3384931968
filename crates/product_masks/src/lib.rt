// Masks: for held a and b and an unused triple, the polynomials of a − l and of b − l'.
//
// The call has its checks, what it does where nothing is refused, and the call itself, which has no `requires`: any session, any
// list of any length and any row number gets an answer.
#![tactic(auto)]

ghost use Rattle.std.specs.Prelude.{◌≡◌, ◌≤◌, length};
ghost use Rattle.shape.specs.Bounds.{last_triple};
ghost use Rattle.shape.specs.Lengths.{Valid, v_length, row_length, masks_length};
ghost use Rattle.shape.specs.Marks.{mark_number};
ghost use Rattle.shape.specs.Row.{coefficients};
ghost use Rattle.refusal.specs.Refusal.{first};
ghost use Rattle.refusal.specs.Numbers.{refused};
ghost use Rattle.session.specs.Sessions.{shape_of};
ghost use Rattle.session.specs.Between.{Sized, RowIn, TripleIn};
ghost use Rattle.product_masks.specs.Masks.{mask_row, masks_place_of, triple_marks_of, factor_numbers_of, masks_refusal_of, masks_answer, both_masks, masks_out_of};

use refusal::{HasNumber, Refusal};
use session::{Answer, Session};
use shape::{Mark, Shape};

// 7, of the factor rows a and b and of the triple at `row`, whose first row needs this mark.
pub fn triple_marks<M: HasNumber>(
    session: Session,
    a: usize,
    b: usize,
    row: usize,
    mark: M,
) -> Result<(), Refusal>
    requires { row ≤ last_triple }
    ensures { refused result ≡ first (triple_marks_of session a b row (M.numbered mark)) }
{
    let all_marks = session.marks;
    session::checks::wrong_mark(&all_marks, a, Mark::Held)?;
    session::checks::wrong_mark(&all_marks, b, Mark::Held)?;
    session::checks::wrong_marks(&all_marks, row, mark, Mark::Further, Mark::Further)
}

// 8, of the factor rows and of the first two rows of the triple at `row`.
pub fn factor_numbers(
    shape: Shape,
    rows: &[u32],
    a: usize,
    b: usize,
    row: usize,
) -> Result<(), Refusal>
    requires { Sized shape rows.now × (row ≤ last_triple) }
    ensures { refused result ≡ first (factor_numbers_of (row_length shape) rows.now a b row) }
{
    session::checks::numbers(shape, rows, a)?;
    session::checks::numbers(shape, rows, b)?;
    session::checks::numbers(shape, rows, row)?;
    session::checks::numbers(shape, rows, row + 1)
}

// 5 of the lent list, and 6.
fn masks_place(session: Session, a: usize, b: usize, row: usize, out: &[u32]) -> Result<(), Refusal>
    requires { Valid (shape_of session) }
    ensures { refused result ≡ first (masks_place_of session a b row out.now) }
{
    let shape = session.shape();
    refusal::size(out, shape.masks_len())?;
    session::checks::row(a)?;
    session::checks::row(b)?;
    session::checks::triple(row)
}

#[tactic(auto, using(crate::proofs::Masking::masks_stopped, crate::proofs::Masking::masks_valid, crate::proofs::Masking::masks_misplaced, crate::proofs::Masking::masks_placed, crate::proofs::Masking::masks_unmarked, crate::proofs::Masking::masks_checked, session::proofs::Calls::shape_sized, refusal::proofs::Checks::not_zero))]
fn masks_checks(
    session: Session,
    rows: &[u32],
    a: usize,
    b: usize,
    first: usize,
    out: &[u32],
) -> Result<(), Refusal>
    ensures { refused result ≡ masks_refusal_of session rows.now a b first out.now }
{
    session.frame(rows)?;
    masks_place(session, a, b, first, out)?;
    triple_marks(session, a, b, first, Mark::Unused)?;
    factor_numbers(session.shape(), rows, a, b, first)
}

// One mask: the coefficients of a factor row less a row of the triple.
#[tactic(auto, using(crate::proofs::Differences::mask_front))]
fn mask(shape: Shape, rows: &[u32], factor: usize, row: usize, out: &mut [u32])
    requires { Sized shape rows.now × RowIn shape factor × RowIn shape row × (length out.old ≡ v_length shape) }
    ensures { out.new ≡ coefficients shape (mask_row shape rows.now factor row) }
{
    let count = shape.v_len();
    let x = session::rows::row(shape, rows, factor);
    let y = session::rows::row(shape, rows, row);
    sums::combine(field::P - 1, &x[..count], &y[..count], out);
}

pub fn masks_accepted(shape: Shape, rows: &[u32], a: usize, b: usize, first: usize, out: &mut [u32])
    requires { Sized shape rows.now × RowIn shape a × RowIn shape b × TripleIn shape first × (length out.old ≡ masks_length shape) }
    ensures { out.new ≡ both_masks shape rows.now a b first }
{
    let count = shape.v_len();
    mask(shape, rows, a, first, &mut out[..count]);
    mask(shape, rows, b, first + 1, &mut out[count..]);
}

// The lent list, after a call whose checks found this.
#[tactic(auto, using(crate::proofs::Masking::masks_written, crate::proofs::Masking::masks_untouched, refusal::proofs::Checks::ok_zero, refusal::proofs::Checks::err_not_zero))]
fn masks_out(
    session: Session,
    rows: &[u32],
    a: usize,
    b: usize,
    first: usize,
    out: &mut [u32],
    checked: Result<(), Refusal>,
)
    requires { refused checked ≡ masks_refusal_of session rows.now a b first out.old }
    ensures { out.new ≡ masks_out_of session rows.now a b first out.old }
{
    if checked.is_ok() {
        masks_accepted(session.shape(), rows, a, b, first, out);
    }
}

#[tactic(auto, using(crate::proofs::Masking::masks_first, crate::proofs::Masking::masks_a_is, crate::proofs::Masking::masks_b_is))]
pub fn masks(
    session: Session,
    rows: &[u32],
    a: usize,
    b: usize,
    first: usize,
    out: &mut [u32],
) -> Answer
    ensures value { result ≡ masks_answer session rows.now a b first out.old }
    ensures out_after { out.new ≡ masks_out_of session rows.now a b first out.old }
{
    let checked = masks_checks(session, rows, a, b, first, out);
    masks_out(session, rows, a, b, first, out, checked);
    session.answer_masking(checked, first, a, b)
}
