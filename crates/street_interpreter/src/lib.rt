// The station: what each line of the street program does. A line is read into its order (`street_orders`); then it is either a change of
// the session, with one call site for each of the library's calls, or a look.
#![tactic(auto)]

ghost use Rattle.std.specs.Prelude.{◌≡◌, false, ◌≤◌, length, replicate};
ghost use Rattle.session.specs.Sessions.{shape_of, holding};
ghost use Rattle.street_store.specs.Sizes.{InStreet, store_room, numbers_room, record_room, most_masks};
ghost use Rattle.street_steps.specs.Letters.{is_change};
ghost use Rattle.street_interpreter.specs.Changes.{Able, Brief, Changed, Finished, Alone, Looked, Opened, OpeningKept, HalvesKept};

use session::{Answer, Session};
use shape::Shape;
use street_orders::Order;

// What a look hands back: the answer, whose refusal and value are the numbers that are printed, and what the records are kept for.
#[derive(Clone, Copy)]
pub struct Outcome {
    pub refusal: u8,
    pub value: u32,
    pub kept: usize,
    pub triple: usize,
}

// A session before its first change, as an answer: the program keeps the last one, so that a change is copied into its place, and not twice.
pub fn unchanged(session: Session) -> Answer
    ensures { result ≡ holding 0 0 session }
{
    session.done(0)
}

// A line that changes the session by a call with no long work before its end: `D`, `R`, `T`, `L` and `X`. The others are functions of their own:
// the session that is handed over is read at their ends, so that this one would copy it for each letter. The masks of an `X` are made in a
// lent list.
pub fn change(
    session: Session,
    triple: usize,
    store: &mut [u32],
    line: &[u8],
    order: Order,
    numbers: &[u32],
    masks: &mut [u32],
) -> Answer
    requires { Able session order × Brief order.letter × (length store.old ≡ store_room) × (length numbers.now ≡ numbers_room)
        × (length masks.old ≡ most_masks) }
    ensures { Changed session triple order numbers.now line.now store.old result store.new masks.new }
{
    let shape = session.shape();
    let letter = order.letter;
    match letter {
        b'D' => street_postlines::deal(session, store, order.row, numbers[0]),
        b'R' => {
            let count = 1 + shape.row_len();
            street_rowlines::loads::load_row(session, store, &numbers[..count])
        }
        b'T' => {
            let count = 1 + shape.triple_len();
            street_rowlines::loads::load_triple(session, store, &numbers[..count])
        }
        b'L' => street_rowlines::add(session, store, numbers),
        _ => street_finishlines::masks::mask(session, store, numbers, masks),
    }
}

// An `F`.
pub fn finish(
    session: Session,
    triple: usize,
    store: &mut [u32],
    order: Order,
    numbers: &[u32],
    empty: &[u32],
) -> Answer
    requires { Able session order × (order.letter ≡ 70) × (length store.old ≡ store_room) × (length numbers.now ≡ numbers_room)
        × (empty.now ≡ replicate record_room 0) }
    ensures { Finished session triple order numbers.now store.old result store.new }
{
    let first = street_states::place(numbers[0]);
    let answer = street_finishlines::finish(session, store, empty, triple, first);
    street_steps::settle(session, answer)
}

// An `A`.
pub fn admit(session: Session, line: &[u8], order: Order) -> Answer
    requires { order.letter ≡ 65 }
    ensures { Alone session order line.now result }
{
    access::access(session, line)
}

// A start line.
pub fn start(session: Session, line: &[u8], order: Order) -> Answer
    requires { order.letter ≡ 83 }
    ensures { Alone session order line.now result }
{
    let answer = street_startlines::start(line);
    street_steps::settle(session, answer)
}

// A `G`.
fn open<'a>(
    session: Session,
    kept: usize,
    triple: usize,
    store: &'a [u32],
    empty: &'a [u32],
    row: usize,
) -> Outcome
    requires { InStreet (shape_of session) × (length store.now ≡ store_room) × (empty.now ≡ replicate record_room 0) }
    ensures { Opened session kept triple store.now row result }
{
    let found = street_rowlines::open(session, store, empty, kept, row);
    Outcome {
        refusal: refusal::number_of(found),
        value: found.unwrap_or(0),
        kept,
        triple,
    }
}

// An `O`.
fn keep_opening(
    shape: Shape,
    kept: usize,
    triple: usize,
    store: &mut [u32],
    order: Order,
    numbers: &[u32],
) -> Outcome
    requires { InStreet shape × (1 ≤ order.post) × (order.post ≤ shape.n) × (length store.old ≡ store_room) × (length numbers.now ≡ numbers_room) }
    ensures { OpeningKept shape kept triple order numbers.now store.old result store.new }
{
    let count = shape.v_len();
    street_postlines::keep(
        shape,
        store,
        kept == order.row,
        order.post,
        &numbers[..count],
    );
    Outcome {
        refusal: 0,
        value: 0,
        kept: order.row,
        triple,
    }
}

// An `M`.
fn keep_halves(
    shape: Shape,
    kept: usize,
    triple: usize,
    store: &mut [u32],
    order: Order,
    numbers: &[u32],
) -> Outcome
    requires { InStreet shape × (1 ≤ order.post) × (order.post ≤ shape.n) × (length store.old ≡ store_room) × (length numbers.now ≡ numbers_room) }
    ensures { HalvesKept shape kept triple order numbers.now store.old result store.new }
{
    let count = shape.masks_len();
    street_postlines::keep_masks(
        shape,
        store,
        triple == order.row,
        order.post,
        &numbers[..count],
    );
    Outcome {
        refusal: 0,
        value: 0,
        kept,
        triple: order.row,
    }
}

// A line that leaves the session as it is.
pub fn look(
    session: Session,
    kept: usize,
    triple: usize,
    store: &mut [u32],
    order: Order,
    numbers: &[u32],
    empty: &[u32],
) -> Outcome
    requires { Able session order × (is_change order.letter ≡ false) × (length store.old ≡ store_room) × (length numbers.now ≡ numbers_room)
        × (empty.now ≡ replicate record_room 0) }
    ensures { Looked session kept triple order numbers.now store.old result store.new }
{
    let shape = session.shape();
    let letter = order.letter;
    match letter {
        b'G' => open(
            session,
            kept,
            triple,
            store,
            empty,
            street_states::place(numbers[0]),
        ),
        b'O' => keep_opening(shape, kept, triple, store, order, numbers),
        b'M' => keep_halves(shape, kept, triple, store, order, numbers),
        _ => Outcome {
            refusal: order.refusal,
            value: 0,
            kept,
            triple,
        },
    }
}
