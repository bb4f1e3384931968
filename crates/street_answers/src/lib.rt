// The answers as text.
#![tactic(auto)]

ghost use Rattle.std.specs.Prelude.{◌≡◌, [], ◌+◌, ◌≤◌, length};
ghost use Rattle.forms.specs.Lines as Lines;
ghost use Rattle.street_store.specs.Sizes.{street_posts, most_masks, told_room};
ghost use Rattle.csv_fields.specs.Fields.{overwrite};
ghost use Rattle.street_answers.specs.Between.{end_text, longest_end};
ghost use Rattle.street_answers.specs.Text.{header, long_size_of, long_numeral, answer_text, longest_answer, print_text, longest_print};

// No more is printed for a line: its answer, and what an `X` prints behind it.
pub const LONGEST_PRINT: usize = 43 + street_store::TOLD_ROOM;

// `line,refusal,value`
pub fn header() -> [u8; 19]
    ensures { result ≡ header }
{
    *b"line,refusal,value\n"
}

// How many digits a number has.
fn long_size(x: u64) -> usize
    ensures { result ≡ long_size_of x }
{
    let mut count = 1;
    let mut front = x;
    while 10 <= front {
        front /= 10;
        count += 1;
    }
    count
}

// A number from a position on; the position behind.
fn put_number(out: &mut [u8], at: usize, x: u64) -> usize
    requires { at + length (long_numeral x) ≤ length out.old }
    ensures { (result ≡ at + length (long_numeral x)) × (out.new ≡ overwrite at (long_numeral x) out.old) }
{
    let end = at + long_size(x);
    decimal::put_digits(&mut out[at..end], x);
    end
}

// Behind a line's number: the refusal, the number opened and the line feed, whatever they are.
fn put_fields(out: &mut [u8], at: usize, refusal: u8, value: u32) -> usize
    requires { at + longest_end ≤ length out.old }
    ensures { (result ≡ at + length (end_text refusal value)) × (out.new ≡ overwrite at (end_text refusal value) out.old) }
{
    let end = csv_fields::put_fields(out, at, &[refusal as u32, value]);
    out[end] = b'\n';
    end + 1
}

// The same for most lines: the refusal has one digit, and no number is opened.
fn put_digit(out: &mut [u8], at: usize, refusal: u8) -> usize
    requires { (at + longest_end ≤ length out.old) × (refusal ≤ 9) }
    ensures { (result ≡ at + length (end_text refusal 0)) × (out.new ≡ overwrite at (end_text refusal 0) out.old) }
{
    let text = [b',', b'0' + refusal, b',', b'0', b'\n'];
    let end = at + text.len();
    lists::copy(&text, &mut out[at..end]);
    end
}

// The same for any line.
fn put_end(out: &mut [u8], at: usize, refusal: u8, value: u32) -> usize
    requires { at + longest_end ≤ length out.old }
    ensures { (result ≡ at + length (end_text refusal value)) × (out.new ≡ overwrite at (end_text refusal value) out.old) }
{
    if value != 0 || 9 < refusal {
        put_fields(out, at, refusal, value)
    } else {
        put_digit(out, at, refusal)
    }
}

// The answer to a line that prints nothing else, from a position on; the position behind.
pub fn print(out: &mut [u8], at: usize, number: u64, refusal: u8, value: u32) -> usize
    requires { at + longest_print ≤ length out.old }
    ensures { (result ≡ at + length (print_text number refusal value []))
        × (out.new ≡ overwrite at (print_text number refusal value []) out.old) }
{
    let behind = put_number(out, at, number);
    put_end(out, behind, refusal, value)
}

// The M line of an `X`, from a position on; the position behind. It is written where it is printed: no room is cleared for it, which would be
// larger for larger stations.
fn put_masks(out: &mut [u8], at: usize, first: u32, post: usize, masks: &[u32]) -> usize
    requires { (at + told_room ≤ length out.old) × (post ≤ street_posts) × (length masks.now ≤ most_masks) }
    ensures { (result ≡ at + length (Lines.text (Lines.masks first post masks.now)))
        × (out.new ≡ overwrite at (Lines.text (Lines.masks first post masks.now)) out.old) }
{
    let room = &mut out[at..at + street_store::TOLD_ROOM];
    let size = csv_fields::put_line(b'M', &[first, post as u32], masks, room);
    at + size
}

// The answer to an `X` that is not refused, and its M line, from a position on; the position behind.
pub fn print_masks(
    out: &mut [u8],
    at: usize,
    number: u64,
    first: u32,
    post: usize,
    masks: &[u32],
) -> usize
    requires { (at + longest_print ≤ length out.old) × (post ≤ street_posts) × (length masks.now ≤ most_masks) }
    ensures { (result ≡ at + length (print_text number 0 0 (Lines.text (Lines.masks first post masks.now))))
        × (out.new ≡ overwrite at (print_text number 0 0 (Lines.text (Lines.masks first post masks.now))) out.old) }
{
    let behind = print(out, at, number, 0, 0);
    put_masks(out, behind, first, post, masks)
}
