// Several dealers at one station: a lent state with a place for each dealer's waiting line, and turns that take one line.
#![tactic(auto)]

pub mod places;

ghost use Rattle.std.specs.Prelude.{◌≡◌, length};
ghost use Rattle.refusal.specs.Numbers.{refused};
ghost use Rattle.refusal.specs.Conditions.{beyond};
ghost use Rattle.session.specs.Between.{Sized, Allows};
ghost use Rattle.forms.specs.Forms.{out_of_range_of};
ghost use Rattle.forms.specs.Between.{Headed};
ghost use Rattle.lines.specs.Reading.{limit_of_of};
ghost use Rattle.dealers.specs.State.{line_in, served};
ghost use Rattle.dealers.specs.Calls.{new_state_refusal, new_state_after, place_refusal_of, place_after_of, turn_answer, turn_rows, turn_state};
ghost use Rattle.dealers.specs.Between.{Good, Dealer, heard, said_by_of};
ghost use Rattle.dealers.specs.Turning.{dealt_as, RowDealt, line_dealt, line_rows, turn_dealt, turn_dealt_rows, turn_dealt_state, answer_by};

use refusal::Refusal;
use session::{Answer, Session};
use shape::{Mark, Shape};

// What a line taken says: the row and the number of a `D`.
#[derive(Clone, Copy)]
pub struct Said {
    pub row: usize,
    pub c: u32,
}

// A new state: 8 as the last served, and no line waiting.
#[tactic(auto, unfolding(refusal::specs::Refusal::outcome))]
pub fn new_state(state: &mut [u8]) -> Result<(), Refusal>
    ensures value { refused result ≡ new_state_refusal state.old }
    ensures state_after { state.new ≡ new_state_after state.old }
{
    if state.len() != places::STATE_LEN {
        return Err(Refusal::BadLength);
    }
    places::begin(state);
    Ok(())
}

#[tactic(auto, using(refusal::proofs::Checks::not_zero, crate::proofs::Placing::place_stopped, crate::proofs::Placing::place_on))]
fn place_checks(state: &[u8], dealer: usize, len: usize) -> Result<(), Refusal>
    ensures { refused result ≡ place_refusal_of state.now dealer len }
{
    places::checks(state)?;
    if dealer < 1 || places::DEALERS < dealer {
        return Err(Refusal::BadDealer);
    }
    if places::length_in(state, dealer) != 0 {
        return Err(Refusal::PlaceFilled);
    }
    if len < 1 || places::PLACE_LEN < len {
        return Err(Refusal::MalformedLine);
    }
    Ok(())
}

// A dealer's line is placed, to wait for its turn.
#[tactic(auto, using(refusal::proofs::Checks::not_zero, crate::proofs::Placing::place_state, crate::proofs::Placing::place_dealer, crate::proofs::Placing::place_some, crate::proofs::Placing::place_few), unfolding(refusal::specs::Refusal::outcome))]
pub fn place(state: &mut [u8], dealer: usize, line: &[u8]) -> Result<(), Refusal>
    ensures value { refused result ≡ place_refusal_of state.old dealer (length line.now) }
    ensures state_after { state.new ≡ place_after_of state.old dealer line.now }
{
    place_checks(state, dealer, line.len())?;
    places::lay(state, dealer, line);
    Ok(())
}

// What a deal's number stays below, if its row is in range: p. No number is below 0.
fn limit_for(row: u64) -> u64
    ensures { result ≡ limit_of_of (out_of_range_of 2 68 row 0 (beyond 0)) }
{
    if (shape::LAST_ROW as u64) < row {
        0
    } else {
        2147483647
    }
}

// The number of a deal, and the line's end behind it.
#[tactic(auto, using(crate::proofs::Reading::limit_fits, crate::proofs::Reading::number_broken, crate::proofs::Reading::number_beyond, crate::proofs::Reading::number_read))]
fn read_number(line: &[u8], at: usize, row: u64) -> Result<Said, Refusal>
    requires { Headed 2 line.now 68 row 0 at 1 }
    ensures { heard result ≡ said_by_of line.now }
{
    let mut number = [0u32; 1];
    let limit = limit_for(row);
    let run = forms::read_fields(line, at, 0, limit, &mut number).ok_or(Refusal::MalformedLine)?;
    if limit <= run.largest {
        return Err(Refusal::LineOutOfRange);
    }
    Ok(Said {
        row: row as usize,
        c: number[0],
    })
}

// A `D` line is the same at every station: its two fields are read, and `lines::read` keeps its one caller.
#[tactic(auto, using(crate::proofs::Reading::not_deal, crate::proofs::Reading::no_line, crate::proofs::Reading::no_row, crate::proofs::Reading::row_read))]
fn read_deal(line: &[u8]) -> Result<Said, Refusal>
    ensures { heard result ≡ said_by_of line.now }
{
    if line.len() < 1 || line[0] != b'D' {
        return Err(Refusal::MalformedLine);
    }
    let row = csv_fields::short::one_field(line, 1).ok_or(Refusal::MalformedLine)?;
    read_number(line, row.next, row.largest)
}

// What a dealer's waiting line says.
#[tactic(auto, using(crate::proofs::Turns::part_in, crate::proofs::Turns::part_is))]
fn said_by(state: &[u8], dealer: usize) -> Result<Said, Refusal>
    requires { Dealer dealer × Good state.now }
    ensures { heard result ≡ said_by_of (line_in state.now dealer) }
{
    let from = places::place_at(dealer) + 1;
    let end = from + places::length_in(state, dealer);
    read_deal(&state[from..end])
}

// A dealer's line is taken, whatever it says.
fn take_line(state: &mut [u8], dealer: usize) -> Result<Said, Refusal>
    requires { Dealer dealer × Good state.old }
    ensures value { heard result ≡ said_by_of (line_in state.old dealer) }
    ensures state_after { state.new ≡ served state.old dealer }
{
    let said = said_by(state, dealer);
    places::serve(state, dealer);
    said
}

// What a line says, dealt where nothing refuses it: the row.
#[tactic(auto, using(crate::proofs::Turning::said_row_in, crate::proofs::Turning::said_in), unfolding(refusal::specs::Refusal::outcome))]
fn deal_said(
    shape: Shape,
    marks: &[u8],
    rows: &mut [u32],
    said: Said,
) -> Result<Option<usize>, Refusal>
    requires { Sized shape rows.old }
    ensures value { dealt_as result ≡ line_dealt shape marks.now rows.old said.row said.c }
    ensures row_is { RowDealt result }
    ensures rows_after { rows.new ≡ line_rows shape marks.now rows.old said.row said.c }
{
    deal::row_checks(shape, marks, rows, said.row, said.c)?;
    sums::add_to_sums(shape, rows, said.row, said.c);
    Ok(Some(said.row))
}

// One line is taken, read and dealt, in a turn with this refusal of session, rows and state: the row that is then held, if a line waits.
// The session is not handed over: a call that writes would keep a copy of it.
#[tactic(auto, using(crate::proofs::Turning::taken_state), unfolding(refusal::specs::Refusal::outcome))]
fn take_turn(
    shape: Shape,
    marks: &[u8],
    rows: &mut [u32],
    state: &mut [u8],
    checked: Result<(), Refusal>,
) -> Result<Option<usize>, Refusal>
    requires { Allows (refused checked) (Sized shape rows.old) × Allows (refused checked) (Good state.old) }
    ensures value { dealt_as result ≡ turn_dealt shape marks.now rows.old state.old (refused checked) }
    ensures row_is { RowDealt result }
    ensures rows_after { rows.new ≡ turn_dealt_rows shape marks.now rows.old state.old (refused checked) }
    ensures state_after { state.new ≡ turn_dealt_state state.old (refused checked) }
{
    checked?;
    let Some(dealer) = places::choose(state) else {
        return Ok(None);
    };
    let said = take_line(state, dealer)?;
    deal_said(shape, marks, rows, said)
}

// The one end of a turn, for every outcome: where ends meet, the session would be copied.
fn answer_turn(session: Session, dealt: Result<Option<usize>, Refusal>) -> Answer
    requires { RowDealt dealt }
    ensures { result ≡ answer_by session (dealt_as dealt) }
{
    let mut marks = session.marks;
    if let Ok(Some(row)) = dealt {
        marks[row] = Mark::Held as u8;
    }
    Answer {
        refusal: refusal::number_of(dealt),
        value: 0,
        session: Session { marks, ..session },
    }
}

// A turn: one line is taken, read and dealt.
#[tactic(auto, using(crate::proofs::Turning::turn_sized, crate::proofs::Turning::turn_good))]
pub fn turn(session: Session, rows: &mut [u32], state: &mut [u8]) -> Answer
    ensures value { result ≡ turn_answer session rows.old state.old }
    ensures rows_after { rows.new ≡ turn_rows session rows.old state.old }
    ensures state_after { state.new ≡ turn_state session rows.old state.old }
{
    // The marks are copied first: behind the checks more of the session would be copied with them.
    let marks = session.marks;
    let checked = session.frame(rows).and(places::checks(state));
    let dealt = take_turn(session.shape(), &marks, rows, state, checked);
    answer_turn(session, dealt)
}
