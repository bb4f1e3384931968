// The first call of a finish: y = a − l and y' = b − l' are opened and remembered.
//
// The records `record_a` and `record_b` are those of a − l and b − l'. No row is written.
#![tactic(auto)]

ghost use Rattle.std.specs.Prelude.{◌≡◌, [], ◌∷◌, ◌≤◌};
ghost use Rattle.shape.specs.Bounds.{last_triple};
ghost use Rattle.shape.specs.Lengths.{Valid};
ghost use Rattle.refusal.specs.Refusal.{first, ◌when◌};
ghost use Rattle.refusal.specs.Numbers.{refused};
ghost use Rattle.session.specs.Sessions.{shape_of, party_of, factor_a_of, factor_b_of};
ghost use Rattle.session.specs.Checks.{no_row};
ghost use Rattle.session.specs.Between.{Framed, RowIn, TripleIn};
ghost use Rattle.blocks.specs.Between.{Recorded};
ghost use Rattle.collect.specs.Collect.{mask_a, mask_b, finish_place, finish_marks, opened_both, collect_numbers_of, collect_own_of, collect_checks_of};
ghost use Rattle.collect.specs.Collect.{shown, opened_masks, collect_answer};

use mask_opening::Masks;
use refusal::Refusal;
use session::{Answer, Session};
use shape::Mark;

// y = a − l and y' = b − l', opened.
#[derive(Clone, Copy)]
pub struct Numbers {
    pub y_a: u32,
    pub y_b: u32,
}

// What an answer shows of them: the refusal, or none, and the numbers, 0 beside a refusal.
#[derive(Clone, Copy)]
struct Told {
    checked: Result<(), Refusal>,
    y_a: u32,
    y_b: u32,
}

// 5 of the two records, and 6.
#[tactic(auto, using(session::proofs::Calls::same_valid))]
fn collect_place(
    session: Session,
    row: usize,
    record_a: &[u32],
    record_b: &[u32],
) -> Result<(), Refusal>
    requires { Valid (shape_of session) }
    ensures { refused result ≡ first (finish_place session row record_a.now record_b.now) }
{
    let shape = session.shape();
    let count = shape.record_len();
    refusal::size(record_a, count)?;
    refusal::size(record_b, count)?;
    session::checks::triple(row)
}

// 7, of a remembered row above the last.
fn remembered(row: usize) -> Result<(), Refusal>
    ensures { refused result ≡ first (7 when no_row row ∷ []) }
{
    if shape::LAST_ROW < row {
        return Err(Refusal::WrongMark);
    }
    Ok(())
}

// 7, of the remembered rows a and b and of the triple at `row`.
fn collect_marks(session: Session, a: usize, b: usize, row: usize) -> Result<(), Refusal>
    requires { row ≤ last_triple }
    ensures { refused result ≡ first (finish_marks session a b row) }
{
    remembered(a)?;
    remembered(b)?;
    product_masks::triple_marks(session, a, b, row, Mark::Masked)
}

// 8, of every row and record that the call reads.
#[tactic(auto, using(session::proofs::Calls::same_sized, crate::proofs::Finishing::same_recorded, crate::proofs::Finishing::numbers_stopped, crate::proofs::Finishing::numbers_first, crate::proofs::Finishing::numbers_second, refusal::proofs::Checks::not_zero))]
fn collect_numbers(
    session: Session,
    rows: &[u32],
    a: usize,
    b: usize,
    row: usize,
    record_a: &[u32],
    record_b: &[u32],
) -> Result<(), Refusal>
    requires { Framed session rows.now × (row ≤ last_triple) × Recorded (party_of session) record_a.now × Recorded (party_of session) record_b.now }
    ensures { refused result ≡ first (collect_numbers_of session rows.now a b row record_a.now record_b.now) }
{
    product_masks::factor_numbers(session.shape(), rows, a, b, row)?;
    let party = session.party();
    blocks::refusal(party, record_a)?;
    blocks::refusal(party, record_b)
}

// 7 and 8, once 1 to 6 have passed.
#[tactic(auto, using(crate::proofs::Finishing::own_stopped, crate::proofs::Finishing::own_asked, refusal::proofs::Checks::not_zero))]
fn collect_own(
    session: Session,
    rows: &[u32],
    row: usize,
    record_a: &[u32],
    record_b: &[u32],
) -> Result<(), Refusal>
    requires { Framed session rows.now × (row ≤ last_triple) × Recorded (party_of session) record_a.now × Recorded (party_of session) record_b.now }
    ensures { refused result ≡ first (collect_own_of session rows.now row record_a.now record_b.now) }
{
    let factor_a = session.factor_a;
    let factor_b = session.factor_b;
    let a = factor_a[row] as usize;
    let b = factor_b[row] as usize;
    collect_marks(session, a, b, row)?;
    collect_numbers(session, rows, a, b, row, record_a, record_b)
}

// 1 to 8; 9 and 13 are the openings'.
#[tactic(auto, using(crate::proofs::Finishing::collect_valid, crate::proofs::Finishing::collect_placed))]
fn collect_checks(
    session: Session,
    rows: &[u32],
    row: usize,
    record_a: &[u32],
    record_b: &[u32],
) -> Result<(), Refusal>
    ensures { refused result ≡ first (collect_checks_of session rows.now row record_a.now record_b.now) }
{
    session.frame(rows)?;
    collect_place(session, row, record_a, record_b)?;
    collect_own(session, rows, row, record_a, record_b)
}

// y and y', or 9, or 13.
#[tactic(auto, using(crate::proofs::Finishing::party_maskable, crate::proofs::Opens::both_refused, crate::proofs::Opens::both_opened))]
fn open_both(
    session: Session,
    rows: &[u32],
    row: usize,
    record_a: &[u32],
    record_b: &[u32],
) -> Result<Numbers, Refusal>
    requires { Framed session rows.now × RowIn (shape_of session) (factor_a_of session row) × RowIn (shape_of session) (factor_b_of session row)
        × TripleIn (shape_of session) row × Recorded (party_of session) record_a.now × Recorded (party_of session) record_b.now }
    ensures { shown result
        ≡ opened_both session (mask_a session rows.now row) (mask_b session rows.now row) record_a.now
        record_b.now }
{
    let factor_a = session.factor_a;
    let factor_b = session.factor_b;
    let masks = Masks {
        party: session.party(),
        rows,
        a: factor_a[row] as usize,
        b: factor_b[row] as usize,
        first: row,
        record_a,
        record_b,
    };
    let pair = masks.open();
    mask_opening::either(pair.a, pair.b)?;
    Ok(Numbers {
        y_a: pair.a.unwrap_or(0),
        y_b: pair.b.unwrap_or(0),
    })
}

// All checks, and the two numbers.
#[tactic(auto, using(crate::proofs::Opens::masks_unopened, crate::proofs::Opens::masks_opened_is, crate::proofs::Finishing::checks_allowed))]
fn open_masks(
    session: Session,
    rows: &[u32],
    first: usize,
    record_a: &[u32],
    record_b: &[u32],
) -> Result<Numbers, Refusal>
    ensures { shown result ≡ opened_masks session rows.now first record_a.now record_b.now }
{
    collect_checks(session, rows, first, record_a, record_b)?;
    open_both(session, rows, first, record_a, record_b)
}

// The same for the answer: what the checks and openings found, and the numbers, 0 where they refuse. A function of its own, with the checks and the
// openings in it: as part of the call they have a copy of the session, and the answer is written once for each end that the compiler can tell apart.
#[inline(never)]
#[tactic(auto, using(crate::proofs::Opens::shown_refusal, crate::proofs::Opens::shown_a, crate::proofs::Opens::shown_b))]
fn tell(session: Session, rows: &[u32], first: usize, record_a: &[u32], record_b: &[u32]) -> Told
    ensures { (refused result.checked ≡ (opened_masks session rows.now first record_a.now record_b.now).refusal)
        × (result.y_a ≡ (opened_masks session rows.now first record_a.now record_b.now).y_a)
        × (result.y_b ≡ (opened_masks session rows.now first record_a.now record_b.now).y_b) }
{
    let opened = open_masks(session, rows, first, record_a, record_b);
    let numbers = opened.unwrap_or(Numbers { y_a: 0, y_b: 0 });
    Told {
        checked: opened.and(Ok(())),
        y_a: numbers.y_a,
        y_b: numbers.y_b,
    }
}

pub fn collect(
    session: Session,
    rows: &[u32],
    first: usize,
    record_a: &[u32],
    record_b: &[u32],
) -> Answer
    ensures { result ≡ collect_answer session rows.now first record_a.now record_b.now }
{
    let told = tell(session, rows, first, record_a, record_b);
    session.answer_collecting(told.checked, first, told.y_a, told.y_b)
}
