// The call of a `D`, and what is kept of `O` and `M` lines.
#![tactic(auto)]

ghost use Rattle.std.specs.Prelude.{◌≡◌, ◌≤◌, length, take, drop};
ghost use Rattle.shape.specs.Lengths.{v_length, masks_length};
ghost use Rattle.session.specs.Sessions.{shape_of};
ghost use Rattle.deal.specs.Deal.{deal_answer, deal_rows_of};
ghost use Rattle.street_store.specs.Sizes.{InStreet, store_room, openings_at, masks_a_at, masks_b_at};
ghost use Rattle.street_store.specs.Records.{kept};
ghost use Rattle.street_states.specs.States.{rows_of, with_rows};

use session::{Answer, Session};
use shape::Shape;

// c is dealt to a row of the session.
pub fn deal(session: Session, store: &mut [u32], row: usize, c: u32) -> Answer
    requires { InStreet (shape_of session) × (length store.old ≡ store_room) }
    ensures value { result ≡ deal_answer session (rows_of session store.old) row c }
    ensures store_after { store.new ≡ with_rows session (deal_rows_of session (rows_of session store.old) row c) store.old }
{
    let end = street_states::rows_end(session);
    deal::deal(session, &mut store[..end], row, c)
}

// A post's coefficients are kept in the record of the `O` lines.
pub fn keep(shape: Shape, store: &mut [u32], same: bool, post: usize, coefficients: &[u32])
    requires { InStreet shape × (length store.old ≡ store_room) × (1 ≤ post) × (post ≤ shape.n) × (length coefficients.now ≡ v_length shape) }
    ensures { store.new ≡ kept openings_at shape same post coefficients.now store.old }
{
    street_store::keep(
        store,
        street_store::OPENINGS_AT,
        shape,
        same,
        post,
        coefficients,
    );
}

// A post's masks are kept for a triple: those of a − l in one record, those of b − l' in the other.
pub fn keep_masks(shape: Shape, store: &mut [u32], same: bool, post: usize, masks: &[u32])
    requires { InStreet shape × (length store.old ≡ store_room) × (1 ≤ post) × (post ≤ shape.n) × (length masks.now ≡ masks_length shape) }
    ensures { store.new ≡ kept masks_b_at shape same post (drop (v_length shape) masks.now)
        (kept masks_a_at shape same post (take (v_length shape) masks.now) store.old) }
{
    let count = shape.v_len();
    street_store::keep(
        store,
        street_store::MASKS_A_AT,
        shape,
        same,
        post,
        &masks[..count],
    );
    street_store::keep(
        store,
        street_store::MASKS_B_AT,
        shape,
        same,
        post,
        &masks[count..],
    );
}
