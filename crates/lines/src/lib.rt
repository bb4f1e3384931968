// Broadcast lines: `D`, `O` and `M` written into a lent part of bytes and read from a lent line.
#![tactic(auto)]

ghost use Rattle.std.specs.Prelude.{◌≡◌, ◌*◌, ◌≤◌, ◌∷◌, length, ltb};
ghost use Rattle.shape.specs.Bounds.{most_posts, last_row_at};
ghost use Rattle.shape.specs.Lengths.{shape, v_length};
ghost use Rattle.refusal.specs.Refusal.{first};
ghost use Rattle.refusal.specs.Numbers.{number, refused};
ghost use Rattle.csv_fields.specs.Fields.{written};
ghost use Rattle.forms.specs.Lines.{text, deal, opening, masks};
ghost use Rattle.forms.specs.Forms.{message, line_tests};
ghost use Rattle.lines.specs.Writing.{posted_tests, dealt_tests, write_deal_refusal, write_opening_refusal, write_masks_refusal, not_written_of, written_as, part_as};
ghost use Rattle.lines.specs.Reading.{read_refusal, no_line_of, limit_of_of, line_as, list_as};

use refusal::Refusal;
use shape::Shape;

// The answer of a writer: the refusal, by its number for C, and the line's length.
#[repr(C)]
#[derive(Clone, Copy)]
pub struct Written {
    pub refusal: u8,
    pub len: usize,
}

// The answer of the reader, for C too: the refusal, or the letter, the row and the post; a `D` has post 0.
#[repr(C)]
#[derive(Clone, Copy)]
pub struct Line {
    pub refusal: u8,
    pub letter: u8,
    pub row: usize,
    pub post: usize,
}

// Nothing is written, by this refusal.
pub fn not_written(refusal: u8) -> Written
    ensures { result ≡ not_written_of refusal }
{
    Written { refusal, len: 0 }
}

// A letter, a row, a post and a line feed, with two commas, take no more bytes, and a number with its comma no more than these.
const MOST_FRAME: usize = 9;

const MOST_FIELD: usize = 11;

// Whether a part is too short for a line with a post. The line is measured only where the longest has no room.
#[tactic(auto, using(crate::proofs::Measuring::roomy, crate::proofs::Measuring::measured))]
fn lacks_room(room: usize, row: usize, post: usize, numbers: &[u32]) -> bool
    requires { (row ≤ last_row_at) × (post ≤ most_posts) × (length numbers.now ≤ 4294967296) }
    ensures { result ≡ ltb room (length (written 0 (row ∷ post ∷ numbers.now))) }
{
    if MOST_FRAME + MOST_FIELD * numbers.len() <= room {
        return false;
    }
    room < csv_fields::line_len(&[row as u32, post as u32], numbers)
}

// 5, 6, 8 and 12 of a line with a post.
#[tactic(auto, using(crate::proofs::Refusing::numbers_missized, crate::proofs::Refusing::row_above, crate::proofs::Refusing::number_beyond, crate::proofs::Refusing::part_short, crate::proofs::Refusing::part_fits, crate::proofs::Refusing::row_low, refusal::proofs::Checks::not_zero))]
fn posted_checks(
    letter: u8,
    count: usize,
    row: usize,
    post: usize,
    numbers: &[u32],
    room: usize,
) -> Result<(), Refusal>
    requires { (post ≤ most_posts) × (count ≤ 4294967296) }
    ensures { refused result ≡ first (posted_tests letter count row post numbers.now room) }
{
    if numbers.len() != count {
        return Err(Refusal::BadLength);
    }
    if forms::last_row(letter) < row {
        return Err(Refusal::NoSuchRow);
    }
    refusal::numbers(numbers)?;
    if lacks_room(room, row, post, numbers) {
        return Err(Refusal::NoRoom);
    }
    Ok(())
}

// A line with a post, once 1 to 4 are checked.
#[tactic(auto, using(refusal::proofs::Endings::refused, refusal::proofs::Endings::accepted, crate::proofs::Refusing::posted_row, crate::proofs::Refusing::posted_room, crate::proofs::Refusing::refused_answer, crate::proofs::Refusing::written_answer))]
fn write_posted(
    letter: u8,
    count: usize,
    row: usize,
    post: usize,
    numbers: &[u32],
    out: &mut [u8],
) -> Written
    requires { (post ≤ most_posts) × (count ≤ 4294967296) }
    ensures value { result
        ≡ written_as (first (posted_tests letter count row post numbers.now (length out.old)))
        (written letter (row ∷ post ∷ numbers.now)) }
    ensures out_after { out.new
        ≡ part_as (first (posted_tests letter count row post numbers.now (length out.old)))
        (written letter (row ∷ post ∷ numbers.now)) out.old }
{
    let checked = posted_checks(letter, count, row, post, numbers, out.len());
    let posted = refusal::number_of(checked);
    if posted != 0 {
        return not_written(posted);
    }
    let head = [row as u32, post as u32];
    let len = csv_fields::put_line(letter, &head, numbers, out);
    Written { refusal: 0, len }
}

// 6, 8 and 12 of a `D`, once 1 and 2 are checked.
#[tactic(auto, using(crate::proofs::Refusing::deal_above, crate::proofs::Refusing::deal_beyond, crate::proofs::Refusing::deal_short, crate::proofs::Refusing::deal_fits, refusal::proofs::Checks::not_zero))]
fn dealt_checks(row: usize, c: u32, room: usize) -> Result<(), Refusal>
    ensures { refused result ≡ first (dealt_tests row c room) }
{
    if shape::LAST_ROW < row {
        return Err(Refusal::NoSuchRow);
    }
    refusal::number(c)?;
    if room < csv_fields::line_len(&[row as u32], &[c]) {
        return Err(Refusal::NoRoom);
    }
    Ok(())
}

// A `D`, once 1 and 2 are checked.
#[tactic(auto, using(refusal::proofs::Endings::refused, refusal::proofs::Endings::accepted, crate::proofs::Refusing::deal_row, crate::proofs::Refusing::deal_line, crate::proofs::Refusing::refused_answer, crate::proofs::Refusing::written_answer))]
fn write_dealt(row: usize, c: u32, out: &mut [u8]) -> Written
    ensures value { result ≡ written_as (first (dealt_tests row c (length out.old))) (text (deal row c)) }
    ensures out_after { out.new ≡ part_as (first (dealt_tests row c (length out.old))) (text (deal row c)) out.old }
{
    let dealt = refusal::number_of(dealt_checks(row, c, out.len()));
    if dealt != 0 {
        return not_written(dealt);
    }
    let head = [row as u32];
    let number = [c];
    let len = csv_fields::put_line(b'D', &head, &number, out);
    Written { refusal: 0, len }
}

// `D,row,c`.
#[tactic(auto, using(crate::proofs::Refusing::posts_refuse, crate::proofs::Refusing::posts_keep, crate::proofs::Refusing::refused_answer, crate::proofs::Refusing::answer_then, crate::proofs::Refusing::list_then))]
pub fn write_deal(n: usize, t: usize, row: usize, c: u32, out: &mut [u8]) -> Written
    ensures value { result ≡ written_as (write_deal_refusal n t row c (length out.old)) (text (deal row c)) }
    ensures out_after { out.new ≡ part_as (write_deal_refusal n t row c (length out.old)) (text (deal row c)) out.old }
{
    let posts = refusal::number_of(refusal::posts(n, t));
    if posts != 0 {
        return not_written(posts);
    }
    write_dealt(row, c, out)
}

// `O,row,post,` and the coefficients of a message.
#[tactic(auto, using(crate::proofs::Refusing::party_refuse, crate::proofs::Refusing::party_keep, crate::proofs::Refusing::party_post, crate::proofs::Refusing::party_one, crate::proofs::Refusing::refused_answer, crate::proofs::Refusing::posted_answer, crate::proofs::Refusing::posted_list))]
pub fn write_opening(
    n: usize,
    t: usize,
    points: usize,
    row: usize,
    post: usize,
    coefficients: &[u32],
    out: &mut [u8],
) -> Written
    ensures value { result
        ≡ written_as (write_opening_refusal n t points row post coefficients.now (length out.old))
        (text (opening row post coefficients.now)) }
    ensures out_after { out.new
        ≡ part_as (write_opening_refusal n t points row post coefficients.now (length out.old))
        (text (opening row post coefficients.now)) out.old }
{
    let party = refusal::number_of(refusal::party(n, t, post, points));
    if party != 0 {
        return not_written(party);
    }
    let shape = Shape { n, t, points };
    write_posted(b'O', shape.v_len(), row, post, coefficients, out)
}

// `M,row,post,` and the coefficients of the two masks.
#[tactic(auto, using(crate::proofs::Refusing::party_refuse, crate::proofs::Refusing::party_keep, crate::proofs::Refusing::party_post, crate::proofs::Refusing::party_two, crate::proofs::Refusing::refused_answer, crate::proofs::Refusing::posted_answer, crate::proofs::Refusing::posted_list))]
pub fn write_masks(
    n: usize,
    t: usize,
    points: usize,
    row: usize,
    post: usize,
    coefficients: &[u32],
    out: &mut [u8],
) -> Written
    ensures value { result
        ≡ written_as (write_masks_refusal n t points row post coefficients.now (length out.old))
        (text (masks row post coefficients.now)) }
    ensures out_after { out.new
        ≡ part_as (write_masks_refusal n t points row post coefficients.now (length out.old))
        (text (masks row post coefficients.now)) out.old }
{
    let party = refusal::number_of(refusal::party(n, t, post, points));
    if party != 0 {
        return not_written(party);
    }
    let shape = Shape { n, t, points };
    write_posted(b'M', shape.masks_len(), row, post, coefficients, out)
}

fn no_line(refusal: u8) -> Line
    ensures { result ≡ no_line_of refusal }
{
    Line {
        refusal,
        letter: 0,
        row: 0,
        post: 0,
    }
}

// What the numbers of a line stay below, if its row and post are in range: p. No number is below 0.
fn limit_of(misplaced: bool) -> u64
    ensures { result ≡ limit_of_of misplaced }
{
    if misplaced { 0 } else { 2147483647 }
}

// 10 and 11 of a line with messages of k coefficients, or its numbers.
#[tactic(auto, using(crate::proofs::Answers::limit_small, crate::proofs::Answers::malformed_line, crate::proofs::Answers::malformed_list, crate::proofs::Answers::head_room, crate::proofs::Answers::broken_line, crate::proofs::Answers::broken_list, crate::proofs::Answers::beyond_line, crate::proofs::Answers::beyond_list, crate::proofs::Answers::taken_line, crate::proofs::Answers::taken_list))]
fn read_line(n: usize, k: usize, line: &[u8], out: &mut [u32]) -> Line
    requires { (1 ≤ k) × (k ≤ 4294967296) × (length out.old ≡ 2 * k) }
    ensures value { result ≡ line_as (first (line_tests n k line.now)) (message k line.now) }
    ensures out_after { out.new ≡ list_as (first (line_tests n k line.now)) (message k line.now) out.old }
{
    let Some(head) = forms::head_of(line, k) else {
        return no_line(10); // not the head of a line
    };
    let limit = limit_of(forms::out_of_range(n, head.letter, head.row, head.post, 0));
    let Some(run) = forms::read_front(line, head.at, limit, head.count, out) else {
        return no_line(10);
    };
    if limit <= run.largest {
        return no_line(11);
    }
    Line {
        refusal: 0,
        letter: head.letter,
        row: head.row as usize,
        post: head.post as usize,
    }
}

// Any of the three lines, into a list as long as masks.
#[tactic(auto, using(crate::proofs::Refusing::station_keep, crate::proofs::Refusing::station_one, crate::proofs::Answers::station_line, crate::proofs::Answers::missized_line, crate::proofs::Answers::missized_list, crate::proofs::Answers::sized_line, crate::proofs::Answers::sized_list, crate::proofs::Answers::twice_long))]
pub fn read(n: usize, t: usize, points: usize, line: &[u8], out: &mut [u32]) -> Line
    ensures value { result
        ≡ line_as (read_refusal n t points line.now out.old) (message (v_length (shape n t points)) line.now) }
    ensures out_after { out.new
        ≡ list_as (read_refusal n t points line.now out.old) (message (v_length (shape n t points)) line.now) out.old }
{
    let station = refusal::number_of(refusal::station(n, t, points));
    if station != 0 {
        return no_line(station);
    }
    let shape = Shape { n, t, points };
    if out.len() != shape.masks_len() {
        return no_line(5);
    }
    read_line(n, shape.v_len(), line, out)
}
