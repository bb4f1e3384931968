// Ten digits at once: fours, then pairs, then digits stand side by side in one number of 64 bits.
ghost use Rattle.std.specs.Prelude.{◌≡◌, ◌/◌, ◌%◌, ◌≤◌, ◌<◌, length};
ghost use Rattle.decimal.specs.Numeral.{size, last_digits};
ghost use Rattle.decimal.specs.Lanes.{quarters, packed};

// The lowest seven bits of each half, and the lowest four of each quarter.
const SEVEN_BITS: u64 = 0x0000_007f_0000_007f;

const FOUR_BITS: u64 = 0x000f_000f_000f_000f;

// The digit 0 in each byte.
const ZEROS: u64 = 0x3030_3030_3030_3030;

// The pairs of two numbers of four digits: both are divided by 100 in one product, for 10486 / 2^20 is near enough to 1 / 100.
// What is left of each goes 16 bits higher: 2^16 (y - 100 h) + h is 2^16 y - 6553599 h.
#[tactic(auto, using(crate::proofs::SideBySide::hundreds_below, crate::proofs::SideBySide::pairs_are))]
fn pairs(a: u64, b: u64) -> u64
    requires { (a < 10000) × (b < 10000) }
    ensures { result ≡ quarters (a / 100) (a % 100) (b / 100) (b % 100) }
{
    let fours = a + b * 4294967296;
    let hundreds = fours * 10486 / 1048576 & SEVEN_BITS;
    fours * 65536 - 6553599 * hundreds
}

// The digits of a number of eight, in the order in which they are written: 103 / 2^10 is near enough to 1 / 10.
// What is left of each pair goes 8 bits higher: 2^8 (y - 10 t) + t is 2^8 y - 2559 t.
#[tactic(auto, using(crate::proofs::SideBySide::eight_are))]
fn eight(x: u32) -> u64
    requires { x < 100000000 }
    ensures { result ≡ packed (last_digits 8 x) }
{
    let pairs = pairs((x / 10000) as u64, (x % 10000) as u64);
    let tens = pairs * 103 / 1024 & FOUR_BITS;
    pairs * 256 + ZEROS - 2559 * tens
}

// Ten digits of a number. The bytes of the last eight are stored in a row, so that they take one store.
// The first two say less than 43, where 13 / 2^7 is near enough to 1 / 10.
#[tactic(auto, using(crate::proofs::Joining::ten_put))]
pub fn put_ten(part: &mut [u8], x: u32)
    requires { length part.old ≡ 10 }
    ensures { part.new ≡ last_digits 10 x }
{
    let high = x / 100000000;
    let tens = high * 13 / 128;
    let low = eight(x % 100000000);
    part[0] = b'0' + tens as u8;
    part[1] = b'0' + (high - 10 * tens) as u8;
    part[2..].copy_from_slice(&low.to_le_bytes());
}

// How many digits a number has that has more than eight.
#[tactic(auto, using(crate::proofs::Spelling::nine_places, crate::proofs::Spelling::ten_places))]
pub fn long_size(x: u32) -> usize
    requires { 100000000 ≤ x }
    ensures { result ≡ size x }
{
    if x < 1000000000 { 9 } else { 10 }
}
