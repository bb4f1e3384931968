// The calls of the lines with a pack behind their letter: `R` and `T`.
ghost use Rattle.std.specs.Prelude.{◌≡◌, ◌≤◌, length, get_or, drop};
ghost use Rattle.session.specs.Sessions.{shape_of};
ghost use Rattle.load.specs.Load.{load_row_answer, load_row_rows_of, load_triple_answer, load_triple_rows_of};
ghost use Rattle.street_store.specs.Sizes.{InStreet, store_room};
ghost use Rattle.street_states.specs.States.{rows_of, with_rows};

use session::{Answer, Session};

// The row that the first number names is loaded with the others.
pub fn load_row(session: Session, store: &mut [u32], numbers: &[u32]) -> Answer
    requires { InStreet (shape_of session) × (length store.old ≡ store_room) × (1 ≤ length numbers.now) }
    ensures value { result ≡ load_row_answer session (rows_of session store.old) (get_or numbers.now 0 0) (drop 1 numbers.now) }
    ensures store_after { store.new ≡ with_rows session
        (load_row_rows_of session (rows_of session store.old) (get_or numbers.now 0 0) (drop 1 numbers.now))
        store.old }
{
    let end = street_states::rows_end(session);
    let row = street_states::place(numbers[0]);
    load::load_row(session, &mut store[..end], row, &numbers[1..])
}

// The triple whose first row the first number names is loaded with the others.
pub fn load_triple(session: Session, store: &mut [u32], numbers: &[u32]) -> Answer
    requires { InStreet (shape_of session) × (length store.old ≡ store_room) × (1 ≤ length numbers.now) }
    ensures value { result ≡ load_triple_answer session (rows_of session store.old) (get_or numbers.now 0 0) (drop 1 numbers.now) }
    ensures store_after { store.new ≡ with_rows session
        (load_triple_rows_of session (rows_of session store.old) (get_or numbers.now 0 0) (drop 1 numbers.now))
        store.old }
{
    let end = street_states::rows_end(session);
    let first = street_states::place(numbers[0]);
    load::load_triple(session, &mut store[..end], first, &numbers[1..])
}
