// The program between two bytes: bytes are kept for the line begun, and a line feed, or the end of the input, ends it. A line that has ended is
// read, and when it has been taken its answer is printed.
#![tactic(auto)]

ghost use Rattle.std.specs.Prelude.{◌≡◌, cond, not, false, ◌++◌, ◌+◌, ◌-◌, ◌≤◌, ◌<◌, ◌^◌, length, get_or, take, replicate, eqb};
ghost use Rattle.street_store.specs.Sizes.{store_room, numbers_room, record_room};
ghost use Rattle.street_steps.specs.Letters.{is_change};
ghost use Rattle.street_orders.specs.Orders.{Accepted};
ghost use Rattle.street_interpreter.specs.Changes.{Able};
ghost use Rattle.street_answers.specs.Text.{longest_print};
ghost use Rattle.street_splitting.specs.Lines.{kept_length, cut, laid};
ghost use Rattle.street_feeds.specs.Between.{head_of, feed_of, grown_head, unread_order, PartRead, Seen, Answered, told_text, TellRoom, answered_head};
ghost use Rattle.street_feeds.specs.Program.{drained_feed, first_feed};

use session::Session;
use shape::Shape;
use street_orders::Order;
use street_states::{Head, State};

// The program between two bytes, beside the store, the line begun and the answers.
#[derive(Clone, Copy)]
pub struct Feed {
    pub state: State,
    // how many lines were answered
    pub number: u64,
    // how many bytes of the line begun are kept
    pub len: usize,
    // how many bytes of answers there are
    pub at: usize,
}

// A part of a line: whether it ends the line, what the line then asks for, and what is kept.
#[derive(Clone, Copy)]
pub struct Part {
    pub ended: bool,
    pub order: Order,
    pub head: Head,
}

// All but the session.
pub fn head(feed: Feed) -> Head
    ensures { result ≡ head_of feed }
{
    let state = feed.state;
    Head {
        started: state.started,
        kept: state.kept,
        triple: state.triple,
        number: feed.number,
        len: feed.len,
        at: feed.at,
    }
}

// With the session.
pub fn whole(session: Session, head: Head) -> Feed
    ensures { result ≡ feed_of session head }
{
    let state = State {
        session,
        started: head.started,
        kept: head.kept,
        triple: head.triple,
    };
    Feed {
        state,
        number: head.number,
        len: head.len,
        at: head.at,
    }
}

// Bytes of the line begun are kept; at the end of the input there are none.
fn grow(head: Head, line: &mut [u8], part: &[u8], closing: bool) -> Head
    requires { (head.len ≤ kept_length) × (length line.old ≡ kept_length) }
    ensures value { (result ≡ grown_head head result.len) × (result.len ≤ kept_length) }
    ensures line_after { line.new ≡ cond closing line.old (laid head.len part.now line.old) }
    ensures line_after_2 { take result.len line.new
        ≡ cond closing (take head.len line.old) (cut (take head.len line.old ++ part.now)) }
    ensures len_value { result.len ≡ cond closing head.len result.len }
{
    if closing {
        let len = head.len;
        return Head { len, ..head }; // field by field: a copy of the whole takes the bytes between them too, for which the next copy waits
    }
    let len = street_splitting::append(line, head.len, part);
    Head { len, ..head }
}

// A line feed at the end of a part ends the line, and so does the end of the input, where one was begun.
fn ends(part: &[u8], closing: bool, len: usize) -> bool
    requires { 1 ≤ length part.now }
    ensures { result ≡ cond closing (not (eqb len 0)) (eqb (get_or part.now (length part.now - 1) 0) 10) }
{
    if closing {
        return len != 0;
    }
    let last = part.len() - 1;
    part[last] == b'\n'
}

// No line has ended.
fn unread() -> Order
    ensures { result ≡ unread_order }
{
    Order {
        letter: 0,
        refusal: 0,
        row: 0,
        post: 0,
    }
}

// A part of a line, or the end of the input: its bytes are kept, and the line is read where it has ended.
pub fn read_part(
    head: Head,
    shape: Shape,
    line: &mut [u8],
    part: &[u8],
    closing: bool,
    numbers: &mut [u32],
) -> Part
    requires { (head.len ≤ kept_length) × (length line.old ≡ kept_length) × (1 ≤ length part.now) × Accepted head.started shape
        × (length numbers.old ≡ numbers_room) }
    ensures { PartRead shape head line.old part.now closing result line.new numbers.new }
{
    let grown = grow(head, line, part, closing);
    let len = grown.len;
    if ends(part, closing, len) {
        let order = street_orders::read(head.started, shape, &line[..len], numbers);
        return Part {
            ended: true,
            order,
            head: grown,
        };
    }
    let order = unread();
    Part {
        ended: false,
        order,
        head: grown,
    }
}

// A line that leaves the session as it is: looked at, and answered.
pub fn look_line(
    session: Session,
    head: Head,
    order: Order,
    store: &mut [u32],
    numbers: &[u32],
    empty: &[u32],
    out: &mut [u8],
) -> Head
    requires { Able session order × (is_change order.letter ≡ false) × (length store.old ≡ store_room) × (length numbers.now ≡ numbers_room)
        × (empty.now ≡ replicate record_room 0) × (head.number + 1 < 2 ^ 64) × (head.at + longest_print ≤ length out.old) }
    ensures { Seen session head order numbers.now store.old out.old result store.new out.new }
{
    let seen = street_interpreter::look(
        session,
        head.kept,
        head.triple,
        store,
        order,
        numbers,
        empty,
    );
    let number = head.number + 1;
    let at = street_answers::print(out, head.at, number, seen.refusal, seen.value);
    Head {
        started: head.started,
        kept: seen.kept,
        triple: seen.triple,
        number,
        len: 0,
        at,
    }
}

// What is printed for a change: its answer, and the M line of an `X` that is not refused.
fn print_change(
    out: &mut [u8],
    head: Head,
    letter: u8,
    post: usize,
    shape: Shape,
    refusal: u8,
    numbers: &[u32],
    masks: &[u32],
) -> usize
    requires { TellRoom letter refusal post shape numbers.now masks.now × (head.number + 1 < 2 ^ 64) × (head.at + longest_print ≤ length out.old) }
    ensures { Answered head letter refusal (told_text letter refusal post shape numbers.now masks.now)
        out.old result out.new }
{
    let number = head.number + 1;
    if letter != b'X' {
        return street_answers::print(out, head.at, number, refusal, 0);
    }
    if refusal != 0 {
        return street_answers::print(out, head.at, number, refusal, 0);
    }
    let count = shape.masks_len();
    street_answers::print_masks(out, head.at, number, numbers[2], post, &masks[..count])
}

// A change is answered.
pub fn change_line(
    head: Head,
    letter: u8,
    post: usize,
    shape: Shape,
    refusal: u8,
    numbers: &[u32],
    masks: &[u32],
    out: &mut [u8],
) -> Head
    requires { TellRoom letter refusal post shape numbers.now masks.now × (head.number + 1 < 2 ^ 64) × (head.at + longest_print ≤ length out.old) }
    ensures { Answered head letter refusal (told_text letter refusal post shape numbers.now masks.now)
        out.old result.at out.new × (result ≡ answered_head head letter refusal result.at) }
{
    let at = print_change(out, head, letter, post, shape, refusal, numbers, masks);
    let started = starts(head.started, letter, refusal);
    Head {
        started,
        kept: head.kept,
        triple: head.triple,
        number: head.number + 1,
        len: 0,
        at,
    }
}

// Whether a start line was accepted, after a change.
fn starts(started: bool, letter: u8, refusal: u8) -> bool
    ensures { result ≡ cond (eqb letter 83) (eqb refusal 0) started }
{
    if letter == b'S' {
        return refusal == 0;
    }
    started
}

// What was answered is taken out to be printed; the rest goes on to the next chunk.
pub fn drain(feed: Feed) -> Feed
    ensures { result ≡ drained_feed feed }
{
    let state = feed.state;
    let number = feed.number;
    Feed {
        state,
        number,
        len: feed.len,
        at: 0,
    }
}

// Before the first byte: no start line was accepted, and nothing is kept.
pub fn begin() -> Feed
    ensures { result ≡ first_feed }
{
    let state = State::first();
    Feed {
        state,
        number: 0,
        len: 0,
        at: 0,
    }
}
