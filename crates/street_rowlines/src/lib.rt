// The calls of the lines that name rows: `L` and `G` here, `R` and `T` in `loads`.
#![tactic(auto)]

pub mod loads;

ghost use Rattle.std.specs.Prelude.{◌≡◌, ◌≤◌, length, replicate};
ghost use Rattle.session.specs.Sessions.{shape_of, holding};
ghost use Rattle.opening.specs.Opening.{open_answer};
ghost use Rattle.refusal.specs.Numbers.{refused};
ghost use Rattle.walk.specs.Number.{value_or_zero};
ghost use Rattle.street_store.specs.Sizes.{InStreet, openings_at, record_room, store_room};
ghost use Rattle.street_store.specs.Records.{record_for};
ghost use Rattle.street_states.specs.States.{rows_of, with_rows};
ghost use Rattle.street_rowlines.specs.Steps.{sum_answer, sum_rows_of};

use refusal::Refusal;
use session::{Answer, Session};

// The sum that five numbers name.
pub fn add(session: Session, store: &mut [u32], numbers: &[u32]) -> Answer
    requires { InStreet (shape_of session) × (length store.old ≡ store_room) × (5 ≤ length numbers.now) }
    ensures value { result ≡ sum_answer session (rows_of session store.old) numbers.now }
    ensures store_after { store.new
        ≡ with_rows session (sum_rows_of session (rows_of session store.old) numbers.now) store.old }
{
    let end = street_states::rows_end(session);
    let dest = street_states::place(numbers[0]);
    let a = street_states::place(numbers[1]);
    let b = street_states::place(numbers[2]);
    linear::linear(
        session,
        &mut store[..end],
        dest,
        a,
        b,
        numbers[3],
        numbers[4],
    )
}

// A row is opened with the record that is kept for it, or with an empty one.
pub fn open<'a>(
    session: Session,
    store: &'a [u32],
    empty: &'a [u32],
    kept: usize,
    row: usize,
) -> Result<u32, Refusal>
    requires { InStreet (shape_of session) × (length store.now ≡ store_room) × (empty.now ≡ replicate record_room 0) }
    ensures { holding (refused result) (value_or_zero result) session ≡ open_answer session (rows_of session store.now) row
        (record_for openings_at (shape_of session) kept row store.now) }
{
    let end = street_states::rows_end(session);
    let same = kept == row;
    let blocks = street_store::record(
        session.shape(),
        store,
        empty,
        street_store::OPENINGS_AT,
        same,
    );
    opening::open_number(session, &store[..end], row, blocks)
}
