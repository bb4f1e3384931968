// Several dealers at one station.
ghost use Rattle.std.specs.Prelude.{◌≡◌, length};
ghost use Rattle.dealers.specs.Calls.{new_state_refusal, new_state_after, place_refusal_of, place_after_of, turn_answer, turn_rows, turn_state};

use session::{Answer, Session};

#[unsafe(no_mangle)]
pub extern "C" fn gantsorol_new_state(state: &mut [u8]) -> u8
    ensures value { result ≡ new_state_refusal state.old }
    ensures state_after { state.new ≡ new_state_after state.old }
{
    refusal::number_of(dealers::new_state(state))
}

#[unsafe(no_mangle)]
pub extern "C" fn gantsorol_place(state: &mut [u8], dealer: usize, line: &[u8]) -> u8
    ensures value { result ≡ place_refusal_of state.old dealer (length line.now) }
    ensures state_after { state.new ≡ place_after_of state.old dealer line.now }
{
    refusal::number_of(dealers::place(state, dealer, line))
}

#[unsafe(no_mangle)]
pub extern "C" fn gantsorol_turn(session: Session, rows: &mut [u32], state: &mut [u8]) -> Answer
    ensures value { result ≡ turn_answer session rows.old state.old }
    ensures rows_after { rows.new ≡ turn_rows session rows.old state.old }
    ensures state_after { state.new ≡ turn_state session rows.old state.old }
{
    dealers::turn(session, rows, state)
}
