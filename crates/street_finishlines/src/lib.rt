// The calls of a product's lines: `F`, which finishes it, here, and `X`, which makes its masks, in `masks`.
#![tactic(auto)]

pub mod masks;

ghost use Rattle.std.specs.Prelude.{◌≡◌, length, replicate};
ghost use Rattle.session.specs.Sessions.{shape_of};
ghost use Rattle.collect.specs.Collect.{collect_answer};
ghost use Rattle.street_store.specs.Sizes.{InStreet, record_room, store_room, masks_a_at, masks_b_at};
ghost use Rattle.street_store.specs.Records.{record_at, record_if, record_for};
ghost use Rattle.street_states.specs.States.{rows_of, with_rows, settled};
ghost use Rattle.street_finishlines.specs.Steps.{pair_answer, pair_rows};
ghost use Rattle.street_finishlines.specs.Between.{after_answer, after_rows};

use session::{Answer, Session};

// y and y' are worked out with the two records of the `M` lines where they stand, if they are kept for the triple, else with empty ones.
fn collect_kept<'a>(
    session: Session,
    store: &'a [u32],
    empty: &'a [u32],
    same: bool,
    first: usize,
) -> Answer
    requires { InStreet (shape_of session) × (length store.now ≡ store_room) × (empty.now ≡ replicate record_room 0) }
    ensures { result ≡ collect_answer session (rows_of session store.now) first
        (record_if same (record_at masks_a_at (shape_of session) store.now))
        (record_if same (record_at masks_b_at (shape_of session) store.now)) }
{
    let shape = session.shape();
    let end = street_states::rows_end(session);
    let record_a = street_store::record(shape, store, empty, street_store::MASKS_A_AT, same);
    let record_b = street_store::record(shape, store, empty, street_store::MASKS_B_AT, same);
    collect::collect(session, &store[..end], first, record_a, record_b)
}

// The second call, where the first was not refused.
fn multiply_after(collected: Answer, store: &mut [u32], first: usize) -> Answer
    requires { InStreet (shape_of collected.session) × (length store.old ≡ store_room) }
    ensures value { result ≡ after_answer collected store.old first }
    ensures store_after { store.new ≡ after_rows collected store.old first }
{
    if collected.refusal != 0 {
        return collected;
    }
    let session = collected.session;
    let end = street_states::rows_end(session);
    multiply::multiply(session, &mut store[..end], first)
}

// A triple is finished, by the pair of calls, with the records that are kept for it, or with empty ones. The session of a refused answer is of no use.
pub fn finish(
    session: Session,
    store: &mut [u32],
    empty: &[u32],
    triple: usize,
    first: usize,
) -> Answer
    requires { InStreet (shape_of session) × (length store.old ≡ store_room) × (empty.now ≡ replicate record_room 0) }
    ensures result_value { settled session result ≡ pair_answer session (rows_of session store.old) first
        (record_for masks_a_at (shape_of session) triple first store.old)
        (record_for masks_b_at (shape_of session) triple first store.old) }
    ensures store_after { store.new ≡ with_rows session (pair_rows session (rows_of session store.old) first
        (record_for masks_a_at (shape_of session) triple first store.old)
        (record_for masks_b_at (shape_of session) triple first store.old)) store.old }
{
    let same = triple == first;
    let collected = collect_kept(session, store, empty, same, first);
    multiply_after(collected, store, first)
}
