// What one line does, before it is read and after: whether the state and the store will do, whether its letter may change the session, and
// what a refused change leaves.
#![tactic(auto)]

ghost use Rattle.std.specs.Prelude.{◌≡◌};
ghost use Rattle.refusal.specs.Numbers.{refused};
ghost use Rattle.street_states.specs.States.{settled};
ghost use Rattle.street_steps.specs.Stepping.{station_refusal_of, room_refusal_of};
ghost use Rattle.street_steps.specs.Letters.{is_change};

use refusal::Refusal;
use session::{Answer, Session};
use street_states::State;

// 1, 2 and 4 of a session that no start line can have made.
#[tactic(auto, using(crate::proofs::Room::station_many, crate::proofs::Room::station_asked, crate::proofs::Room::station_unasked))]
fn station_refusal(state: State) -> Result<(), Refusal>
    ensures { refused result ≡ station_refusal_of state }
{
    if !state.started {
        return Ok(());
    }
    let session = state.session;
    if street_store::STREET_POSTS < session.n {
        return Err(Refusal::BadPostCount);
    }
    refusal::station(session.n, session.t, session.points)
}

// 1, 2, 4 and 5 of a step, before its line is looked at.
pub fn room_refusal(state: State, store: &[u32]) -> Result<(), Refusal>
    ensures { refused result ≡ room_refusal_of state store.now }
{
    station_refusal(state).and(refusal::size(store, street_store::STORE_ROOM))
}

// Whether the line of a letter may change the session.
pub fn changes(letter: u8) -> bool
    ensures { result ≡ is_change letter }
{
    matches!(
        letter,
        b'R' | b'T' | b'F' | b'L' | b'X' | b'D' | b'A' | b'S'
    )
}

// What a change leaves of its answer: where it is refused, the session as it was.
#[tactic(auto, using(crate::proofs::Settling::settle_old, crate::proofs::Settling::settle_new))]
pub fn settle(session: Session, answer: Answer) -> Answer
    ensures { (settled session result ≡ settled session answer) × (result.session ≡ (settled session answer).session) }
{
    // An answer crosses to C, so its refusal is a number.
    if answer.refusal != 0 {
        return Answer {
            refusal: answer.refusal,
            value: 0,
            session,
        };
    }
    answer
}
