// What the street program keeps from line to line, and where the rows stand in the store.
//
// The session goes in by value and comes back in a call's answer; all else that is kept is small, and goes beside it. The rows and the
// records stand in one lent store.
#![tactic(auto)]

ghost use Rattle.std.specs.Prelude.{◌≡◌};
ghost use Rattle.shape.specs.Lengths.{rows_length};
ghost use Rattle.session.specs.Sessions.{shape_of};
ghost use Rattle.street_store.specs.Sizes.{InStreet};
ghost use Rattle.street_states.specs.States.{first_state};

use session::Session;
use shape::Points;

// What the program keeps from line to line, beside the store.
#[derive(Clone, Copy)]
pub struct State {
    pub session: Session,
    // a start line was accepted
    pub started: bool,
    // the row that the record of the `O` lines is kept for; an empty one may be for any
    pub kept: usize,
    // the triple that the records of the `M` lines are kept for; empty ones may be for any
    pub triple: usize,
}

// The same without the session, and what the program keeps of its input and output: small, so that it may be handed on as it likes.
#[derive(Clone, Copy)]
pub struct Head {
    pub started: bool,
    pub kept: usize,
    pub triple: usize,
    // how many lines were answered
    pub number: u64,
    // how many bytes of the line begun are kept
    pub len: usize,
    // how many bytes of answers there are
    pub at: usize,
}

impl State {
    // Before the first line.
    pub fn first() -> State
        ensures { result ≡ first_state }
    {
        let none = Points {
            first: 0,
            second: 0,
        };
        let refused = Session::new(0, 0, 0, 0, none);
        let session = refused.session;
        State {
            session,
            started: false,
            kept: 0,
            triple: 0,
        }
    }
}

// A number of a line, as a row.
pub fn place(number: u32) -> usize
    ensures { result ≡ number }
{
    number as usize
}

// Where the rows of the session end in the store.
pub fn rows_end(session: Session) -> usize
    requires { InStreet (shape_of session) }
    ensures { result ≡ rows_length (shape_of session) }
{
    let shape = session.shape();
    shape.rows_len()
}
