// Comma-parted number fields: written into a part of bytes, and read from a position of a line on.
#![tactic(auto)]

ghost use Rattle.std.specs.Prelude.{◌≡◌, ◌++◌, ◌+◌, ◌≤◌, ◌<◌, length};
ghost use Rattle.csv_fields.specs.Fields.{field, fields, written, overwrite, fields_at, ended, run_of, run_from, numbers_of_of, Fillable};
ghost use Rattle.csv_fields.specs.Walk.{comma_field_of, step_from, end_of, Roomed};

use decimal::{Field, lanes};

pub mod short;

// What a first pass over fields tells of them: the largest number, and the position behind them.
#[derive(Clone, Copy)]
pub struct Run {
    pub largest: u64,
    pub next: usize,
}

// A comma and a number from a position on; the position behind. Few numbers are short.
#[tactic(auto, using(crate::proofs::Overwriting::field_fits, crate::proofs::Overwriting::field_room, crate::proofs::Overwriting::field_end, crate::proofs::Overwriting::field_written))]
fn put_short(out: &mut [u8], at: usize, x: u32) -> usize
    requires { at + length (field x) ≤ length out.old }
    ensures { (result ≡ at + length (field x)) × (out.new ≡ overwrite at (field x) out.old) }
{
    out[at] = b',';
    let from = at + 1;
    let end = from + decimal::size_of(x);
    decimal::put_digits(&mut out[from..end], x as u64);
    end
}

// The same for a number of nine or ten digits: ten are written, and the comma over the first where it is a zero.
fn put_long(out: &mut [u8], at: usize, x: u32) -> usize
    requires { (at + length (field x) ≤ length out.old) × (100000000 ≤ x) }
    ensures { (result ≡ at + length (field x)) × (out.new ≡ overwrite at (field x) out.old) }
{
    let end = at + 1 + lanes::long_size(x);
    let from = end - 10;
    lanes::put_ten(&mut out[from..end], x);
    out[at] = b',';
    end
}

// The same for any number.
pub fn put_field(out: &mut [u8], at: usize, x: u32) -> usize
    requires { at + length (field x) ≤ length out.old }
    ensures { (result ≡ at + length (field x)) × (out.new ≡ overwrite at (field x) out.old) }
{
    if x < 100000000 {
        return put_short(out, at, x);
    }
    put_long(out, at, x)
}

// The same for each number of a list.
pub fn put_fields(out: &mut [u8], at: usize, xs: &[u32]) -> usize
    requires { at + length (fields xs.now) ≤ length out.old }
    ensures { (result ≡ at + length (fields xs.now)) × (out.new ≡ overwrite at (fields xs.now) out.old) }
{
    let mut pos = at;
    for &x in xs {
        pos = put_field(out, pos, x);
    }
    pos
}

// How many bytes the fields of a list take.
pub fn fields_len(xs: &[u32]) -> usize
    requires { length xs.now ≤ 4294967296 }
    ensures { result ≡ length (fields xs.now) }
{
    let mut sum: usize = 0;
    for &x in xs {
        sum = sum + 1 + decimal::size_of(x);
    }
    sum
}

// How many bytes a line takes that has the fields of two lists.
#[tactic(auto, using(crate::proofs::Laying::sum_fits, crate::proofs::Laying::sum_fits_two, crate::proofs::Laying::sum_is))]
pub fn line_len(head: &[u32], rest: &[u32]) -> usize
    requires { (length head.now ≤ 4294967296) × (length rest.now ≤ 4294967296) }
    ensures { result ≡ length (written 0 (head.now ++ rest.now)) }
{
    fields_len(head) + fields_len(rest) + 2
}

// A whole line at the start of a part: a letter, the fields of two lists, a line feed. Its length.
#[tactic(auto, using(crate::proofs::Laying::room_letter, crate::proofs::Laying::room_head, crate::proofs::Laying::room_rest, crate::proofs::Laying::room_feed, crate::proofs::Laying::end_fits, crate::proofs::Laying::end_is, crate::proofs::Laying::line_laid))]
pub fn put_line(letter: u8, head: &[u32], rest: &[u32], out: &mut [u8]) -> usize
    requires { length (written letter (head.now ++ rest.now)) ≤ length out.old }
    ensures value { result ≡ length (written letter (head.now ++ rest.now)) }
    ensures out_after { out.new ≡ overwrite 0 (written letter (head.now ++ rest.now)) out.old }
{
    out[0] = letter;
    let behind = put_fields(out, 1, head);
    let end = put_fields(out, behind, rest);
    out[end] = b'\n';
    end + 1
}

// The field at a position: a comma, and a number behind it.
fn comma_field(line: &[u8], at: usize) -> Option<Field>
    ensures { result ≡ comma_field_of line.now at }
{
    if line.len() <= at || line[at] != b',' {
        return None; // no comma
    }
    decimal::field_at(line, at + 1)
}

// The caller's line and how far it has been read: no copy.
#[derive(Clone, Copy)]
pub struct Reader<'a> {
    pub line: &'a [u8],
    pub at: usize,
}

impl<'a> Reader<'a> {
    // A reader reads the field where it stands, and is moved on behind it.
    pub fn next_field(&mut self) -> Option<Field>
        ensures field { result ≡ (step_from self.old).field }
        ensures moved { self.new ≡ (step_from self.old).reader }
    {
        let field = comma_field(self.line, self.at)?;
        self.at = field.next;
        Some(field)
    }
}

// The k fields from a position: whether they are there, how large their numbers are, and where they end.
// A reader walks them; whoever calls this has a line and a position, and never sees a reader.
pub fn fields_at(line: &[u8], at: usize, k: usize) -> Option<Run>
    ensures { result ≡ run_of (fields_at k line.now at) }
{
    let mut reader = Reader { line, at };
    let mut largest: u64 = 0;
    for turn in 0..k {
        let field = reader.next_field()?;
        largest = largest.max(field.value);
    }
    Some(Run {
        largest,
        next: reader.at,
    })
}

// What is told of fields that end at a position, where they are the last of a line: a line feed stands there, and nothing behind it.
pub fn line_end(line: &[u8], at: usize, largest: u64) -> Option<Run>
    ensures { result ≡ end_of line.now at largest }
{
    if line.len() <= at || line[at] != b'\n' {
        return None; // no line feed
    }
    if line.len() != at + 1 {
        return None; // bytes behind the line feed
    }
    Some(Run { largest, next: at })
}

// The same for the last k fields of a line.
#[tactic(auto, using(crate::proofs::Passing::end_broken, crate::proofs::Passing::end_there))]
pub fn last_fields_at(line: &[u8], at: usize, k: usize) -> Option<Run>
    ensures { result ≡ run_of (ended line.now (fields_at k line.now at)) }
{
    let run = fields_at(line, at, k)?;
    line_end(line, run.next, run.largest)
}

// As many fields from a position as the room has places: what they are like, and the lowest 32 bits of their numbers, in which each stands
// whole if it is small enough.
pub fn read_part(line: &[u8], at: usize, largest: u64, room: &mut [u32]) -> Option<Run>
    ensures { (result ≡ run_from largest (fields_at (length room.old) line.now at))
        × Roomed (fields_at (length room.old) line.now at) room.new }
{
    let mut reader = Reader { line, at };
    let mut so_far = largest;
    for place in room.iter_mut() {
        let field = reader.next_field()?;
        *place = (field.value % 4294967296) as u32;
        so_far = so_far.max(field.value);
    }
    Some(Run {
        largest: so_far,
        next: reader.at,
    })
}

// The numbers of as many fields from a position as the list has places, where they are known to fit.
pub fn fill(line: &[u8], at: usize, out: &mut [u32])
    requires { Fillable (fields_at (length out.old) line.now at) }
    ensures { out.new ≡ numbers_of_of (fields_at (length out.old) line.now at) }
{
    read_part(line, at, 0, out);
}
