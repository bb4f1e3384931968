// Products of 1 - z/x over numbers x: polynomials that are 1 at 0 and 0 at each x, with as many coefficients as the lent list has.
//
// The factors z - x are multiplied, and the product is divided by its constant: one inverse for all of them. On the way a coefficient
// is no remainder, but folded to at most p.
//
// The time depends on the numbers, the inverse of whose product is taken: they are for public values only.
#![tactic(auto)]

ghost use Rattle.std.specs.Prelude.{◌≡◌, cond, map, ◌≤◌, ◌<◌, length, get_or};
ghost use Rattle.field.specs.Modulus.{p};
ghost use Rattle.field.specs.Arithmetic.{product, inverse};
ghost use Rattle.vanishing.specs.Vanishing.{one, vanishing, occurs, distinct};
ghost use Rattle.vanishing.specs.Between.{Ends, Low, Nonzero, line_at, times_line_of, times_factor_of};

// 2^31, which is 1 modulo p.
const HALF: u64 = 2147483648;

const SHORT_HALF: u32 = 2147483648;

// k c + b modulo p, at most p: what stands above the low 31 bits is added to them, twice. The second time in 32 bits, which takes less.
fn line_at(k: u32, c: u32, b: u32) -> u32
    requires { (k < p) × (c ≤ p) × (b ≤ p) }
    ensures { result ≡ line_at k c b }
{
    let whole = field::whole_product(k, c) + b as u64;
    let once = (whole % HALF + whole / HALF) as u32;
    once % SHORT_HALF + once / SHORT_HALF
}

// Times z + k, in place.
#[tactic(auto, using(crate::proofs::Turns::read_low, crate::proofs::Turns::before_low))]
fn times_line(k: u32, list: &mut [u32])
    requires { (k < p) × Low list.old }
    ensures { list.new ≡ times_line_of k 0 list.old }
{
    let mut before: u32 = 0;
    for place in list.iter_mut() {
        let c = *place;
        *place = line_at(k, c, before);
        before = c;
    }
}

// Times z - x, of a list that has nothing behind its first m coefficients: the product has nothing behind m + 1.
#[tactic(auto, using(crate::proofs::Turns::negative_low, crate::proofs::Turns::part_low, crate::proofs::Turns::whole_factor, crate::proofs::Turns::short_factor, crate::proofs::Turns::part_lent))]
fn times_factor(x: u32, m: usize, list: &mut [u32])
    requires { (1 ≤ m) × Ends m list.old × Low list.old }
    ensures { list.new ≡ times_factor_of x list.old }
{
    let k = field::sub(0, x);
    if list.len() <= m {
        times_line(k, list);
        return;
    }
    let end = m + 1;
    times_line(k, &mut list[..end]);
}

// The constant 1.
#[tactic(auto, using(crate::proofs::Turns::one_start))]
fn start(list: &mut [u32])
    requires { 1 ≤ length list.old }
    ensures { list.new ≡ one (length list.old) }
{
    lists::clear(list);
    list[0] = 1;
}

// Divided by the constant.
fn divide(list: &mut [u32])
    requires { 1 ≤ length list.old }
    ensures { list.new ≡ map (product (inverse (get_or list.old 0 0))) list.old }
{
    let k = field::inverse(list[0]);
    for c in list.iter_mut() {
        *c = field::mul(k, *c);
    }
}

// The product over the numbers.
#[tactic(auto, using(crate::proofs::Turns::one_room, crate::proofs::Turns::start_ends, crate::proofs::Turns::start_low))]
pub fn vanish_at(numbers: &[u32], list: &mut [u32])
    requires { (1 ≤ length list.old) × Nonzero numbers.now }
    ensures { list.new ≡ vanishing (length list.old) numbers.now }
{
    start(list);
    for (i, x) in numbers.iter().enumerate() {
        times_factor(*x, i + 1, list);
    }
    divide(list);
}

// Whether x is among the numbers. All are looked at, so that the compiler looks at several at once; `contains` would stop at the first.
fn occurs(x: u32, list: &[u32]) -> bool
    ensures { result ≡ occurs x list.now }
{
    let mut found = false;
    for y in list {
        found |= x == *y;
    }
    found
}

// Times z - x, where x is not among the numbers to come; the list has nothing behind its first m coefficients.
#[tactic(auto, using(crate::proofs::Turns::once_occurs, crate::proofs::Turns::once_new))]
fn times_factor_once(x: u32, m: usize, rest: &[u32], list: &mut [u32])
    requires { (1 ≤ m) × Ends m list.old × Low list.old }
    ensures { list.new ≡ cond (occurs x rest.now) list.old (times_factor_of x list.old) }
{
    if !occurs(x, rest) {
        times_factor(x, m, list);
    }
}

// The product over each number once.
#[tactic(auto, using(crate::proofs::Turns::one_room, crate::proofs::Turns::start_ends, crate::proofs::Turns::start_low))]
pub fn vanish_at_each(numbers: &[u32], list: &mut [u32])
    requires { (1 ≤ length list.old) × Nonzero numbers.now }
    ensures { list.new ≡ vanishing (length list.old) (distinct numbers.now) }
{
    start(list);
    for (i, x) in numbers.iter().enumerate() {
        times_factor_once(*x, i + 1, &numbers[i + 1..], list);
    }
    divide(list);
}
