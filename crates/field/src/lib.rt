// The p elements: arithmetic modulo the prime p = 2147483647.
//
// Every function but `reduce` is total: a number of p or more stands for its remainder modulo p. Every result but that of
// `whole_product` is an element.
// The time of `inverse` depends on its argument, so it is for public values only.
#![tactic(auto)]

ghost use Rattle.std.specs.Prelude.{◌≡◌, ◌+◌, ◌*◌, ◌%◌, ◌<◌};
ghost use Rattle.field.specs.Modulus.{p};
ghost use Rattle.field.specs.Arithmetic.{sum, difference, product, inverse, IsInverse};

pub const P: u32 = 2147483647;

const WIDE_P: u64 = 2147483647;

// 2^31, which is 1 modulo p.
const HALF: u64 = 2147483648;

// The remainder of x: what stands above its low 31 bits is added to them, twice, and less than 2 p is left. That takes half the time of a
// division by p.
fn remainder(x: u64) -> u32
    ensures { result ≡ x % p }
{
    let once = x % HALF + x / HALF;
    let twice = once % HALF + once / HALF;
    if twice < WIDE_P {
        return twice as u32;
    }
    (twice - WIDE_P) as u32
}

#[tactic(auto, unfolding(crate::specs::Arithmetic::sum))]
pub fn add(a: u32, b: u32) -> u32
    ensures { result ≡ sum a b }
{
    ((a as u64 + b as u64) % WIDE_P) as u32
}

// Three times p is more than any number of 32 bits, so one remainder is enough.
#[tactic(auto, using(crate::proofs::Modular::difference_by_one))]
pub fn sub(a: u32, b: u32) -> u32
    ensures { result ≡ difference a b }
{
    ((a as u64 + (3 * WIDE_P - b as u64)) % WIDE_P) as u32
}

// The product as it is, with no remainder taken.
pub fn whole_product(a: u32, b: u32) -> u64
    ensures { result ≡ a * b }
{
    a as u64 * b as u64
}

#[tactic(auto, unfolding(crate::specs::Arithmetic::product))]
pub fn mul(a: u32, b: u32) -> u32
    ensures { result ≡ product a b }
{
    remainder(whole_product(a, b))
}

// c plus the product, with one remainder.
#[tactic(auto, using(crate::proofs::Modular::add_product_by_one))]
pub fn add_product(c: u32, a: u32, b: u32) -> u32
    ensures { result ≡ sum c (product a b) }
{
    ((whole_product(a, b) + c as u64) % WIDE_P) as u32
}

// The remainder of a number that was added up from halves: `low` and 2^31 times `high`. 2^31 is 1 modulo p.
pub fn reduce(low: u64, high: u64) -> u32
    requires { low + high < 18446744073709551616 }
    ensures { result ≡ (low + high * 2147483648) % p }
{
    ((low + high) % WIDE_P) as u32
}

// The inverse of x, and 0 for 0: with p = q u + r, 1/u is (p - q)/r, and r is smaller than u. Euclid's loop: it counts nothing.
#[tactic(auto, using(crate::proofs::Euclid::turn, crate::proofs::Euclid::next_positive, crate::proofs::Euclid::none_for_zero, crate::proofs::Euclid::found, crate::proofs::Euclid::started, crate::proofs::Modular::product_below))]
pub fn inverse(x: u32) -> u32
    ensures value { result ≡ inverse x }
    ensures meaning { IsInverse x result }
{
    let mut u = x % P;
    if u == 0 {
        return 0;
    }
    let mut scale: u32 = 1;
    while 1 < u {
        scale = mul(P - P / u, scale);
        u = P % u;
    }
    scale
}
