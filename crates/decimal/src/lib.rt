// Decimal numbers: written digit by digit into a part of bytes, and read at a position of a line.
#![tactic(auto)]

ghost use Rattle.std.specs.Prelude.{◌≡◌, [], ◌∷◌, ◌+◌, ◌≤◌, ◌<◌, length, take, drop};
ghost use Rattle.decimal.specs.Numeral.{size, last_digits, value_after, field_at};
ghost use Rattle.decimal.specs.Between.{reached, WalkEnd, DigitsAt, Digits, DigitsIf, bytes_of, BehindEight, BehindNine};

pub mod lanes;

// "1 to 10 digits".
const MOST_DIGITS: usize = 10;

// A number of a line, and the position behind it.
#[derive(Clone, Copy)]
pub struct Field {
    pub value: u64,
    pub next: usize,
}

// 1 for a number that reaches a bound, 0 for one below it.
fn reaches(x: u32, bound: u32) -> usize
    ensures { (result ≡ reached x bound) × (result ≤ 1) }
{
    usize::from(bound <= x)
}

// How many digits a number has: one more for each power of ten that it reaches. Every number takes the same steps.
#[tactic(auto, using(crate::proofs::Spelling::size_counted))]
pub fn size_of(x: u32) -> usize
    ensures { result ≡ size x }
{
    let to_five = 1 + reaches(x, 10) + reaches(x, 100) + reaches(x, 1000) + reaches(x, 10000);
    let to_eight = reaches(x, 100000) + reaches(x, 1000000) + reaches(x, 10000000);
    to_five + to_eight + reaches(x, 100000000) + reaches(x, 1000000000)
}

// A number's last digits, as many as the part has places. By an index: of a walk back over the places themselves the kit says nothing.
#[tactic(auto, using(crate::proofs::Spelling::digits_start, crate::proofs::Spelling::digits_more, crate::proofs::Spelling::digits_end))]
pub fn put_digits(part: &mut [u8], x: u64)
    ensures { part.new ≡ last_digits (length part.old) x }
{
    let mut rest = x;
    for i in (0..part.len()).rev() {
        part[i] = b'0' + (rest % 10) as u8;
        rest /= 10;
    }
}

// Digits from a position on: what they say, and the position behind them.
#[derive(Clone, Copy)]
struct Span {
    value: u64,
    end: usize,
}

// Where a walk over digits ends: one digit more than a number has is enough to tell.
fn walk_end(len: usize, at: usize) -> usize
    ensures { WalkEnd len at result }
{
    if len <= at {
        return at;
    }
    if len - at <= MOST_DIGITS {
        return len;
    }
    at + MOST_DIGITS + 1
}

// The digits from a position, in one walk.
fn walk_digits(line: &[u8], at: usize) -> Span
    ensures { DigitsAt line.now at result.value result.end }
{
    let end = walk_end(line.len(), at);
    let mut value = 0;
    for i in at..end {
        if !line[i].is_ascii_digit() {
            return Span { value, end: i };
        }
        value = value * 10 + u64::from(line[i] - b'0');
    }
    Span { value, end }
}

// Eight bytes from a position as one number, the first byte lowest: for the machine this is one load.
#[tactic(auto, using(crate::proofs::EightDigits::eight_there))]
fn eight_at(line: &[u8], at: usize) -> u64
    requires { at + 8 ≤ length line.now }
    ensures { bytes_of 8 result ≡ take 8 (drop at line.now) }
{
    let mut bytes = [0; 8];
    bytes.copy_from_slice(&line[at..at + 8]);
    u64::from_le_bytes(bytes)
}

// Whether eight bytes are digits: each is 48 to 63, and still is with 6 more.
#[tactic(auto, using(crate::proofs::EightDigits::six_fits, crate::proofs::EightDigits::digits_told))]
fn only_digits(x: u64) -> bool
    ensures { DigitsIf result (bytes_of 8 x) }
{
    x & 0xf0f0_f0f0_f0f0_f0f0 == 0x3030_3030_3030_3030
        && (x + 0x0606_0606_0606_0606) & 0xf0f0_f0f0_f0f0_f0f0 == 0x3030_3030_3030_3030
}

// What eight digits say: two and two are put together, then four and four, then all.
#[tactic(auto, using(crate::proofs::Eights::not_below, crate::proofs::Eights::ten_fits, crate::proofs::Eights::ten_more_fits, crate::proofs::Eights::hundred_fits, crate::proofs::Eights::hundred_more_fits, crate::proofs::Eights::eight_say))]
fn value_of(x: u64) -> u64
    requires { Digits (bytes_of 8 x) }
    ensures { result ≡ value_after 0 (bytes_of 8 x) }
{
    let ones = x - 0x3030_3030_3030_3030;
    let twos = (ones * 10 + ones / 256) & 0x00ff_00ff_00ff_00ff;
    let fours = twos * 100 + twos / 65536;
    fours % 65536 * 10000 + fours / 4294967296 % 65536
}

// The digits from a position, of which nine are known and say v.
fn behind_nine(line: &[u8], at: usize, v: u64) -> Span
    requires { BehindNine line.now at v }
    ensures { DigitsAt line.now at result.value result.end }
{
    let tenth = line[at + 9];
    if !tenth.is_ascii_digit() {
        return Span {
            value: v,
            end: at + 9,
        };
    }
    let value = v * 10 + u64::from(tenth - b'0');
    let end = at + 10;
    if end < line.len() && line[end].is_ascii_digit() {
        return Span {
            value,
            end: end + 1,
        };
    }
    Span { value, end }
}

// The digits from a position, of which eight are known and say v.
fn behind_eight(line: &[u8], at: usize, v: u64) -> Span
    requires { BehindEight line.now at v }
    ensures { DigitsAt line.now at result.value result.end }
{
    let ninth = line[at + 8];
    if !ninth.is_ascii_digit() {
        return Span {
            value: v,
            end: at + 8,
        };
    }
    behind_nine(line, at, v * 10 + u64::from(ninth - b'0'))
}

// The digits from a position: eight at once where there are as many, else in one walk. Nine and a line feed are enough bytes for that.
#[tactic(auto, using(crate::proofs::EightDigits::told_digits, crate::proofs::FromEight::behind_eight_lem))]
fn digits_at(line: &[u8], at: usize) -> Span
    ensures { DigitsAt line.now at result.value result.end }
{
    if line.len() < MOST_DIGITS || line.len() - MOST_DIGITS < at {
        return walk_digits(line, at);
    }
    let x = eight_at(line, at);
    if only_digits(x) {
        return behind_eight(line, at, value_of(x));
    }
    walk_digits(line, at)
}

// The number at a position, of digits that are known.
fn field_of(line: &[u8], at: usize, digits: Span) -> Option<Field>
    requires { DigitsAt line.now at digits.value digits.end }
    ensures { result ≡ field_at line.now at }
{
    let field = Field {
        value: digits.value,
        next: digits.end,
    };
    match digits.end - at {
        0 => None, // no digit
        1 => Some(field),
        2..=MOST_DIGITS if line[at] != b'0' => Some(field),
        2..=MOST_DIGITS => None, // a leading zero
        _ => None, // too many digits
    }
}

// The number at a position.
pub fn field_at(line: &[u8], at: usize) -> Option<Field>
    ensures { result ≡ field_at line.now at }
{
    field_of(line, at, digits_at(line, at))
}

// The same where few digits are expected: they are walked, without a look at eight.
pub fn short_field_at(line: &[u8], at: usize) -> Option<Field>
    ensures { result ≡ field_at line.now at }
{
    field_of(line, at, walk_digits(line, at))
}
