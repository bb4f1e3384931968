// The lent state: the last dealer, then for each dealer's place a length, 0 when free, and the 16 bytes.
ghost use Rattle.std.specs.Prelude.{◌≡◌, ◌+◌, ◌≤◌, length};
ghost use Rattle.refusal.specs.Refusal.{first};
ghost use Rattle.refusal.specs.Numbers.{refused};
ghost use Rattle.csv_fields.specs.Fields.{overwrite};
ghost use Rattle.dealers.specs.State.{state_length, new_state_of, place_at_of, length_in_of, next, bad_state, overlong, chosen, placed, served};
ghost use Rattle.dealers.specs.Calls.{state_tests};
ghost use Rattle.dealers.specs.Between.{Good, Dealer, Choice};

use refusal::Refusal;

pub const STATE_LEN: usize = 137;

pub const DEALERS: usize = 8;

pub const PLACE_LEN: usize = 16;

// Where a dealer's place begins.
pub fn place_at(dealer: usize) -> usize
    requires { Dealer dealer }
    ensures { result ≡ place_at_of dealer }
{
    17 * dealer - 16
}

// The length of a dealer's waiting line, 0 where none waits.
pub fn length_in(state: &[u8], dealer: usize) -> usize
    requires { Dealer dealer × (length state.now ≡ state_length) }
    ensures { result ≡ length_in_of state.now dealer }
{
    let at = place_at(dealer);
    usize::from(state[at])
}

// Whether a place has over 16 bytes.
#[tactic(auto, using(crate::proofs::Positions::over_passed, crate::proofs::Positions::over_end))]
fn any_overlong(state: &[u8]) -> bool
    requires { length state.now ≡ state_length }
    ensures { result ≡ overlong 8 1 state.now }
{
    for dealer in 1..=DEALERS {
        if PLACE_LEN < length_in(state, dealer) {
            return true;
        }
    }
    false
}

// A last dealer outside 1..8, or a place over 16 bytes.
#[tactic(auto, unfolding(crate::specs::State::bad_state))]
fn is_bad(state: &[u8]) -> bool
    requires { length state.now ≡ state_length }
    ensures { result ≡ bad_state state.now }
{
    let last = usize::from(state[0]);
    last < 1 || DEALERS < last || any_overlong(state)
}

// 5 and 16, of a state.
pub fn checks(state: &[u8]) -> Result<(), Refusal>
    ensures { refused result ≡ first (state_tests state.now) }
{
    if state.len() != STATE_LEN {
        return Err(Refusal::BadLength);
    }
    if is_bad(state) {
        return Err(Refusal::BadDealer);
    }
    Ok(())
}

// 8 as the last served, then zeros.
pub fn begin(state: &mut [u8])
    requires { length state.old ≡ state_length }
    ensures { state.new ≡ new_state_of }
{
    state.fill(0);
    state[0] = 8;
}

// Bytes, over a state from a position on.
fn lay_at(state: &mut [u8], from: usize, line: &[u8])
    requires { (length state.old ≡ state_length) × (from + length line.now ≤ state_length) }
    ensures { state.new ≡ overwrite from line.now state.old }
{
    let end = from + line.len();
    lists::copy(line, &mut state[from..end]);
}

// A line, into a dealer's place.
pub fn lay(state: &mut [u8], dealer: usize, line: &[u8])
    requires { Dealer dealer × (length state.old ≡ state_length) × (1 ≤ length line.now) × (length line.now ≤ 16) }
    ensures { state.new ≡ placed state.old dealer line.now }
{
    let at = place_at(dealer);
    lay_at(state, at + 1, line);
    state[at] = line.len() as u8;
}

// A dealer's place is freed, and the dealer is the last served.
pub fn serve(state: &mut [u8], dealer: usize)
    requires { Dealer dealer × (length state.old ≡ state_length) }
    ensures { state.new ≡ served state.old dealer }
{
    let at = place_at(dealer);
    state[0] = dealer as u8;
    state[at] = 0;
}

fn next_dealer(dealer: usize) -> usize
    ensures { result ≡ next dealer }
{
    if dealer < DEALERS { dealer + 1 } else { 1 }
}

// The first with a line waiting, from the dealer after the one last served, going round.
#[tactic(auto, using(crate::proofs::Choosing::seek_found, crate::proofs::Choosing::seek_on, crate::proofs::Choosing::seek_end))]
pub fn choose(state: &[u8]) -> Option<usize>
    requires { Good state.now }
    ensures { Choice state.now result }
{
    let mut dealer = usize::from(state[0]);
    for turn in 0..DEALERS {
        dealer = next_dealer(dealer);
        if length_in(state, dealer) != 0 {
            return Some(dealer);
        }
    }
    None
}
