// The lines of a pack file, measured and written.
#![tactic(auto)]

ghost use Rattle.std.specs.Prelude.{◌≡◌, ◌≤◌, ◌<◌, length};
ghost use Rattle.shape.specs.Bounds.{row_count_of};
ghost use Rattle.csv_fields.specs.Fields.{overwrite};
ghost use Rattle.packlines.specs.File.{letter_of_of, row_line, row_lines, start_letter_of, start_line, file};
ghost use Rattle.packrow.specs.Between.{PostIn, KindRoom};
ghost use Rattle.packlines.specs.Between.{FileRoom};

use kinds::Kind;
use session::Party;

fn letter_of(kind: u8) -> u8
    ensures { result ≡ letter_of_of kind }
{
    if kind == Kind::Raw as u8 { b'R' } else { b'T' }
}

// How many bytes a row's line has; an empty row has none.
#[tactic(auto, using(crate::proofs::Spelt::none_measured, crate::proofs::Spelt::some_measured, crate::proofs::Spelt::few_lent, crate::proofs::Spelt::front_size))]
fn line_len(party: Party, row: usize, kind: u8, draw: &[u32], room: &mut [u32]) -> usize
    requires { KindRoom party kind draw.now room.old × (row < row_count_of) }
    ensures { result ≡ length (row_line party row kind draw.now) }
{
    let count = packrow::write_numbers(party, kind, draw, room);
    if count == 0 {
        return 0;
    }
    let head = [row as u32];
    csv_fields::line_len(&head, &room[..count])
}

// The line at the start of a part; its length.
#[tactic(auto, using(crate::proofs::Spelt::none_measured, crate::proofs::Spelt::none_laid, crate::proofs::Spelt::some_room, crate::proofs::Spelt::some_put, crate::proofs::Spelt::few_lent, crate::proofs::Spelt::front_size))]
fn put_line(
    party: Party,
    row: usize,
    kind: u8,
    draw: &[u32],
    room: &mut [u32],
    out: &mut [u8],
) -> usize
    requires { KindRoom party kind draw.now room.old × (row < row_count_of) × (length (row_line party row kind draw.now) ≤ length out.old) }
    ensures value { result ≡ length (row_line party row kind draw.now) }
    ensures out_after { out.new ≡ overwrite 0 (row_line party row kind draw.now) out.old }
{
    let count = packrow::write_numbers(party, kind, draw, room);
    if count == 0 {
        return 0;
    }
    let number = [row as u32];
    csv_fields::put_line(letter_of(kind), &number, &room[..count], out)
}

// How many bytes all rows' lines have.
#[tactic(auto, using(crate::proofs::Rising::reached_start, crate::proofs::Rising::draw_lent, crate::proofs::Rising::row_in, crate::proofs::Rising::reached_end))]
fn lines_len(party: Party, kinds: &[u8], draws: &[u32], room: &mut [u32]) -> usize
    requires { FileRoom party kinds.now draws.now room.old }
    ensures { result ≡ length (row_lines party 0 kinds.now draws.now) }
{
    let shape = party.shape;
    let mut from = 0;
    let mut sum = 0;
    for (row, &kind) in kinds.iter().enumerate() {
        let end = from + kinds::drawn_for(shape, kind);
        sum += line_len(party, row, kind, &draws[from..end], room);
        from = end;
    }
    sum
}

// Each line goes to the next part of the list.
#[tactic(auto, using(crate::proofs::Rising::laid_start, crate::proofs::Rising::laid_at, crate::proofs::Rising::laid_whole))]
fn put_lines(party: Party, kinds: &[u8], draws: &[u32], room: &mut [u32], out: &mut [u8]) -> usize
    requires { FileRoom party kinds.now draws.now room.old × (length (row_lines party 0 kinds.now draws.now) ≤ length out.old) }
    ensures value { result ≡ length (row_lines party 0 kinds.now draws.now) }
    ensures out_after { out.new ≡ overwrite 0 (row_lines party 0 kinds.now draws.now) out.old }
{
    let shape = party.shape;
    let mut from = 0;
    let mut at = 0;
    for (row, &kind) in kinds.iter().enumerate() {
        let end = from + kinds::drawn_for(shape, kind);
        at += put_line(party, row, kind, &draws[from..end], room, &mut out[at..]);
        from = end;
    }
    at
}

fn start_letter(points: usize) -> u8
    ensures { result ≡ start_letter_of points }
{
    if points == shape::MOST_POINTS {
        b'W'
    } else {
        b'S'
    }
}

// How many bytes the start line has: `S` with one check point, `W` with two.
#[tactic(auto, using(crate::proofs::Entire::own_within, crate::proofs::Entire::own_lent, crate::proofs::Entire::own_few, crate::proofs::Entire::start_measured))]
fn start_len(party: Party) -> usize
    requires { PostIn party }
    ensures { result ≡ length (start_line party) }
{
    let shape = party.shape;
    let w = party.points;
    let station = [shape.n as u32, shape.t as u32];
    let own = [party.post as u32, w.first, w.second];
    let count = shape.points + 1;
    csv_fields::line_len(&station, &own[..count])
}

// The start line at the start of a part; its length.
#[tactic(auto, using(crate::proofs::Entire::own_within, crate::proofs::Entire::own_lent, crate::proofs::Entire::start_enough, crate::proofs::Entire::start_long, crate::proofs::Entire::start_laid))]
fn put_start(party: Party, out: &mut [u8]) -> usize
    requires { PostIn party × (length (start_line party) ≤ length out.old) }
    ensures value { result ≡ length (start_line party) }
    ensures out_after { out.new ≡ overwrite 0 (start_line party) out.old }
{
    let shape = party.shape;
    let w = party.points;
    let station = [shape.n as u32, shape.t as u32];
    let own = [party.post as u32, w.first, w.second];
    let count = shape.points + 1;
    csv_fields::put_line(start_letter(shape.points), &station, &own[..count], out)
}

// How many bytes the file has.
#[tactic(auto, using(crate::proofs::Entire::file_measured, crate::proofs::Entire::file_length_fits))]
pub fn file_len(party: Party, kinds: &[u8], draws: &[u32], room: &mut [u32]) -> usize
    requires { FileRoom party kinds.now draws.now room.old }
    ensures { result ≡ length (file party kinds.now draws.now) }
{
    start_len(party) + lines_len(party, kinds, draws, room)
}

// The file at the start of the list.
#[tactic(auto, using(crate::proofs::Entire::start_room, crate::proofs::Entire::start_within, crate::proofs::Entire::lines_room, crate::proofs::Entire::file_laid))]
pub fn put_file(party: Party, kinds: &[u8], draws: &[u32], room: &mut [u32], out: &mut [u8])
    requires { FileRoom party kinds.now draws.now room.old × (length (file party kinds.now draws.now) ≤ length out.old) }
    ensures { out.new ≡ overwrite 0 (file party kinds.now draws.now) out.old }
{
    let behind = put_start(party, out);
    put_lines(party, kinds, draws, room, &mut out[behind..]);
}
