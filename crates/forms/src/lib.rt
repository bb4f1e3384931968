// The form of broadcast lines: what a line says, where its numbers stand, and how a list takes them.
#![tactic(auto)]

ghost use Rattle.std.specs.Prelude.{◌≡◌, cond, ◌++◌, ◌-◌, ◌≤◌, length, replicate};
ghost use Rattle.refusal.specs.Conditions.{beyond};
ghost use Rattle.csv_fields.specs.Fields.{fields_at, ended, run_of, run_from, numbers_of_of, padded};
ghost use Rattle.forms.specs.Lines.{last_row_of};
ghost use Rattle.forms.specs.Forms.{is_letter, number_count_of, out_of_range_of};
ghost use Rattle.forms.specs.Between.{HeadOf, below_limit, PartOf};

use csv_fields::{Run, short};

// What the head of a line tells: where its numbers stand behind row and post, and how many they are.
#[derive(Clone, Copy)]
pub struct Head {
    pub letter: u8,
    pub row: u64,
    pub post: u64,
    pub at: usize,
    pub count: usize,
}

// "row above 95, or a triple's first above 93".
pub fn last_row(letter: u8) -> usize
    ensures { result ≡ last_row_of letter }
{
    if letter == b'M' {
        shape::LAST_TRIPLE
    } else {
        shape::LAST_ROW
    }
}

// How many numbers stand behind row and post; 0 where the byte is no letter of a line.
fn number_count(letter: u8, k: usize) -> usize
    requires { k ≤ 4294967296 }
    ensures { result ≡ cond (is_letter letter) (number_count_of k letter) 0 }
{
    match letter {
        b'D' => 1,
        b'O' => k,
        b'M' => 2 * k,
        _ => 0,
    }
}

// The head of a line: its letter, row and post, and where its numbers stand.
#[tactic(auto, using(crate::proofs::Scanning::scan_empty, crate::proofs::Scanning::scan_letter, crate::proofs::Scanning::scan_no_row, crate::proofs::Scanning::scan_deal, crate::proofs::Scanning::scan_no_post, crate::proofs::Scanning::scan_posted))]
pub fn head_of(line: &[u8], k: usize) -> Option<Head>
    requires { (1 ≤ k) × (k ≤ 4294967296) }
    ensures { HeadOf k line.now result }
{
    if line.len() < 1 {
        return None;
    }
    let letter = line[0];
    let count = number_count(letter, k);
    if count < 1 {
        return None;
    }
    let row = short::one_field(line, 1)?;
    if letter == b'D' {
        return Some(Head {
            letter,
            row: row.largest,
            post: 0,
            at: row.next,
            count,
        });
    }
    let post = short::one_field(line, row.next)?;
    Some(Head {
        letter,
        row: row.largest,
        post: post.largest,
        at: post.next,
        count,
    })
}

// 11, of a line's row and post and the largest of its numbers.
pub fn out_of_range(n: usize, letter: u8, row: u64, post: u64, largest: u64) -> bool
    ensures { result ≡ out_of_range_of n letter row post (beyond largest) }
{
    2147483647 <= largest
        || (last_row(letter) as u64) < row
        || letter != b'D' && (post < 1 || (n as u64) < post)
}

// Whether the numbers of fields stay below a limit.
fn below(run: Option<Run>, limit: u64) -> bool
    ensures { result ≡ below_limit run limit }
{
    run.is_some_and(|run| run.largest < limit)
}

// How many numbers of a line wait in one room until the line's end is seen.
const ROOM_SIZE: usize = 32;

// How many of some fields are read at once: the places of a room.
fn part_of(len: usize) -> usize
    ensures { PartOf len result }
{
    if len < ROOM_SIZE { len } else { ROOM_SIZE }
}

// A list takes the numbers of another, if it is to.
fn lay(kept: bool, from: &[u32], to: &mut [u32])
    requires { length from.now ≡ length to.old }
    ensures { to.new ≡ cond kept from.now to.old }
{
    if kept {
        lists::copy(from, to);
    }
}

// The fields behind those whose numbers are in front: the list takes all of them. Where none is left the line's end is asked for here, which
// spares a short line a second call.
#[cycle(read_behind_read_fields)]
fn read_behind(
    line: &[u8],
    at: usize,
    largest: u64,
    limit: u64,
    front: &[u32],
    out: &mut [u32],
) -> Option<Run>
    requires { (limit ≤ 4294967296) × (1 ≤ length front.now) × (length front.now ≤ length out.old) }
    ensures value { result ≡ run_from largest (ended line.now (fields_at (length out.old - length front.now) line.now at)) }
    ensures out_after { out.new
        ≡ cond (below_limit result limit) (front.now ++ numbers_of_of (fields_at (length out.old - length front.now) line.now at))
        out.old }
{
    let n = front.len();
    if out.len() <= n {
        let run = csv_fields::line_end(line, at, largest);
        lay(below(run, limit), front, out);
        return run;
    }
    let run = read_fields(line, at, largest, limit, &mut out[n..]);
    lay(below(run, limit), front, &mut out[..n]);
    run
}

// The last fields of a line, as many as the list has places: what they are like, and their numbers, if all stay below a limit.
// They are read once, a part after the other, each into a room of its own: the list takes them when the line's end is seen.
#[cycle(read_behind_read_fields)]
pub fn read_fields(line: &[u8], at: usize, largest: u64, limit: u64, out: &mut [u32]) -> Option<Run>
    requires { limit ≤ 4294967296 }
    ensures value { result ≡ run_from largest (ended line.now (fields_at (length out.old) line.now at)) }
    ensures out_after { out.new
        ≡ cond (below_limit result limit) (numbers_of_of (fields_at (length out.old) line.now at)) out.old }
{
    if out.len() < 1 {
        return csv_fields::line_end(line, at, largest);
    }
    let mut room = [0u32; ROOM_SIZE];
    let n = part_of(out.len());
    let part = csv_fields::read_part(line, at, largest, &mut room[..n])?;
    read_behind(line, part.next, part.largest, limit, &room[..n], out)
}

#[tactic(auto, using(crate::proofs::Fronts::clear_kept))]
fn clear_if(kept: bool, list: &mut [u32])
    ensures { list.new ≡ cond kept (replicate (length list.old) 0) list.old }
{
    if kept {
        lists::clear(list);
    }
}

// The same at the start of a list, for `count` fields, and 0 in the places behind.
pub fn read_front(line: &[u8], at: usize, limit: u64, count: usize, out: &mut [u32]) -> Option<Run>
    requires { (limit ≤ 4294967296) × (count ≤ length out.old) }
    ensures value { result ≡ run_of (ended line.now (fields_at count line.now at)) }
    ensures out_after { out.new
        ≡ cond (below_limit result limit) (padded (length out.old) (numbers_of_of (fields_at count line.now at))) out.old }
{
    let run = read_fields(line, at, 0, limit, &mut out[..count]);
    clear_if(below(run, limit), &mut out[count..]);
    run
}
