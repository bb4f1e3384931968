// A line read into its order, without the session. What else a new letter needs is in CONTRIBUTING.md, step 13.
#![tactic(auto)]

ghost use Rattle.std.specs.Prelude.{◌≡◌, [], ◌∷◌, ◌≤◌, length};
ghost use Rattle.refusal.specs.Numbers.{refused};
ghost use Rattle.shape.specs.Bounds.{last_row_at, last_triple};
ghost use Rattle.street_store.specs.Sizes.{InStreet, numbers_room};
ghost use Rattle.street_orders.specs.Orders.{order_of, refused_order, Numbered, Heard, Leads, Accepted, Reads, lettered, lated, early_order};

use refusal::Refusal;
use shape::Shape;

// What a line asks for: its letter, or 0 where it is refused when it is read; the row and the post of a `D`, `O` or `M`. Its numbers stand in
// a lent list. The form of an `A` is looked at by the library's call. The refusal is a number, as it is printed and as `lines::Line` has it for C.
#[derive(Clone, Copy)]
pub struct Order {
    pub letter: u8,
    pub refusal: u8,
    pub row: usize,
    pub post: usize,
}

fn refused_by(refusal: u8) -> Order
    ensures { result ≡ refused_order refusal }
{
    Order {
        letter: 0,
        refusal,
        row: 0,
        post: 0,
    }
}

#[tactic(auto, using(crate::proofs::Ordering::ordered_refused, crate::proofs::Ordering::ordered_fine))]
fn ordered(letter: u8, checked: Result<(), Refusal>) -> Order
    ensures { result ≡ order_of letter (refused checked) }
{
    if checked.is_err() {
        return refused_by(refusal::number_of(checked));
    }
    Order {
        letter,
        refusal: 0,
        row: 0,
        post: 0,
    }
}

// A letter and so many numbers, of which the first are rows, each with its last.
#[tactic(auto, using(crate::proofs::Ordering::numbers_prefix, crate::proofs::Ordering::lasts_in, crate::proofs::Ordering::numbered_is))]
fn numbered(letter: u8, line: &[u8], lasts: &[u32], count: usize, numbers: &mut [u32]) -> Order
    requires { (length lasts.now ≤ count) × (count ≤ length numbers.old) }
    ensures { Numbered letter lasts.now count line.now result numbers.new }
{
    ordered(
        letter,
        street_reading::read(line, lasts, &mut numbers[..count]),
    )
}

// `R,row,` and a raw row's numbers; `G,row`.
fn of_row(letter: u8, line: &[u8], count: usize, numbers: &mut [u32]) -> Order
    requires { (1 ≤ count) × (count ≤ length numbers.old) }
    ensures { Numbered letter (last_row_at ∷ []) count line.now result numbers.new }
{
    let lasts = [shape::LAST_ROW as u32];
    numbered(letter, line, &lasts, count, numbers)
}

// `T,first,` and a triple's three rows of numbers; `F,first`.
fn of_triple(letter: u8, line: &[u8], count: usize, numbers: &mut [u32]) -> Order
    requires { (1 ≤ count) × (count ≤ length numbers.old) }
    ensures { Numbered letter (last_triple ∷ []) count line.now result numbers.new }
{
    let lasts = [shape::LAST_TRIPLE as u32];
    numbered(letter, line, &lasts, count, numbers)
}

// `L,dest,a,b,s,fee`.
fn of_sum(line: &[u8], numbers: &mut [u32]) -> Order
    requires { length numbers.old ≡ numbers_room }
    ensures { Numbered 76 (last_row_at ∷ last_row_at ∷ last_row_at ∷ []) 5 line.now result numbers.new }
{
    let lasts = [shape::LAST_ROW as u32; 3];
    numbered(b'L', line, &lasts, 5, numbers)
}

// `X,a,b,first`.
fn of_masks(line: &[u8], numbers: &mut [u32]) -> Order
    requires { length numbers.old ≡ numbers_room }
    ensures { Numbered 88 (last_row_at ∷ last_row_at ∷ last_triple ∷ []) 3 line.now result numbers.new }
{
    let lasts = [
        shape::LAST_ROW as u32,
        shape::LAST_ROW as u32,
        shape::LAST_TRIPLE as u32,
    ];
    numbered(b'X', line, &lasts, 3, numbers)
}

// A broadcast line: `D`, `O` or `M`.
#[tactic(auto, using(crate::proofs::Heeding::masks_count, crate::proofs::Heeding::masks_front, crate::proofs::Heeding::heard_is))]
fn heard(shape: Shape, line: &[u8], numbers: &mut [u32]) -> Order
    requires { InStreet shape × (length numbers.old ≡ numbers_room) }
    ensures { Heard shape line.now result numbers.new }
{
    let count = shape.masks_len();
    let said = lines::read(shape.n, shape.t, shape.points, line, &mut numbers[..count]);
    Order {
        letter: said.letter,
        refusal: said.refusal,
        row: said.row,
        post: said.post,
    }
}

// A line by its letter.
#[tactic(auto, using(crate::proofs::Ordering::row_count, crate::proofs::Ordering::triple_count, crate::proofs::Ordering::leads_load, crate::proofs::Ordering::leads_triple, crate::proofs::Ordering::leads_open, crate::proofs::Ordering::leads_finish, crate::proofs::Ordering::leads_sum, crate::proofs::Ordering::leads_masks, crate::proofs::Ordering::leads_access, crate::proofs::Ordering::leads_other, crate::proofs::Heeding::leads_deal, crate::proofs::Heeding::leads_opening, crate::proofs::Heeding::leads_product))]
fn by_letter(shape: Shape, line: &[u8], numbers: &mut [u32]) -> Order
    requires { InStreet shape × (length numbers.old ≡ numbers_room) × (1 ≤ length line.now) }
    ensures { Leads shape line.now result numbers.new (lettered line.now) }
{
    match line[0] {
        b'R' => of_row(b'R', line, 1 + shape.row_len(), numbers),
        b'T' => of_triple(b'T', line, 1 + shape.triple_len(), numbers),
        b'G' => of_row(b'G', line, 1, numbers),
        b'L' => of_sum(line, numbers),
        b'F' => of_triple(b'F', line, 1, numbers),
        b'X' => of_masks(line, numbers),
        b'A' => ordered(b'A', Ok(())),
        // An arm each: at `D | O | M` the last arm knows of no letter that it is none of them, and its proof didn't close.
        b'D' => heard(shape, line, numbers),
        b'O' => heard(shape, line, numbers),
        b'M' => heard(shape, line, numbers),
        _ => refused_by(Refusal::MalformedLine as u8),
    }
}

// A line once a start line was accepted.
#[tactic(auto, using(crate::proofs::Ordering::leads_long, crate::proofs::Ordering::leads_empty, crate::proofs::Ordering::leads_late))]
fn late(shape: Shape, line: &[u8], numbers: &mut [u32]) -> Order
    requires { InStreet shape × (length numbers.old ≡ numbers_room) }
    ensures { Leads shape line.now result numbers.new (lated line.now) }
{
    if street_store::LONGEST_LINE < line.len() || line.is_empty() {
        return refused_by(Refusal::MalformedLine as u8);
    }
    by_letter(shape, line, numbers)
}

// A line before it: `S` stands for a start line of either letter.
#[tactic(auto, using(crate::proofs::Ordering::early_start, crate::proofs::Ordering::early_other))]
fn early(line: &[u8]) -> Order
    ensures { result ≡ early_order line.now }
{
    if street_reading::start::is_start(line) {
        return ordered(b'S', Ok(()));
    }
    refused_by(Refusal::BadPostCount as u8)
}

// What a line asks for.
#[tactic(auto, using(crate::proofs::Ordering::accepted_street, crate::proofs::Ordering::reads_late, crate::proofs::Ordering::reads_early))]
pub fn read(started: bool, shape: Shape, line: &[u8], numbers: &mut [u32]) -> Order
    requires { Accepted started shape × (length numbers.old ≡ numbers_room) }
    ensures { Reads started shape line.now result numbers.new }
{
    if started {
        return late(shape, line, numbers);
    }
    early(line)
}
