// Polynomials over the p elements: values and sums of products. Coefficients stand constant first. Interpolation is defined in
// specs/Interpolation.antt; `barycentric` reckons it.
//
// Every public function but `weigh_elements` is total: the lists have any length and hold any numbers, one of p or more standing for
// its remainder.
#![tactic(auto)]

ghost use Rattle.std.specs.Prelude.{◌≡◌, ◌+◌, ◌-◌, ◌≤◌, ◌<◌, fold, length, reverse, take, drop};
ghost use Rattle.field.specs.Arithmetic.{sum, product};
ghost use Rattle.poly.specs.Polynomial.{value, powers, weighted};
ghost use Rattle.poly.specs.Counting.{Elements};
ghost use Rattle.poly.specs.Between.{two_products_of};

// Horner's rule: from the last coefficient down, each is added to x times the value so far.
fn horner(coefficients: &[u32], x: u32, start: u32) -> u32
    ensures { result ≡ fold (λ v c. sum c (product x v)) start (reverse coefficients.now) }
{
    coefficients
        .iter()
        .rev()
        .fold(start, |v, c| field::add_product(*c, x, v))
}

// The value at x. The rule begins with the last two coefficients: one product and one remainder less than from 0.
#[tactic(auto, using(crate::proofs::Turns::horner_one, crate::proofs::Turns::horner_folded), unfolding(crate::specs::Polynomial::value))]
pub fn evaluate(coefficients: &[u32], x: u32) -> u32
    ensures { result ≡ value coefficients.now x }
{
    match coefficients {
        [] => 0,
        [only] => field::add_product(*only, x, 0),
        [rest @ .., next, last] => horner(rest, x, field::add_product(*next, x, *last)),
    }
}

// The powers of x from 1 on fill the list. With `weigh` they give the value of every polynomial at x
// (`weighted_powers` in proofs/Numbers.antt). Even and odd powers are two chains of products, so that neither waits for the other;
// a proof knows nothing of what is written through `chunks_exact_mut`, so the two places are counted.
#[tactic(auto, using(crate::proofs::Turns::powers_start, crate::proofs::Turns::powers_end, crate::proofs::Turns::powers_last))]
pub fn powers(x: u32, list: &mut [u32])
    ensures { list.new ≡ powers x (length list.old) }
{
    let m = list.len();
    let square = field::mul(x, x);
    let mut y: u32 = 1;
    let mut z = field::mul(1, x);
    let mut i = 0;
    while 1 < m - i {
        list[i] = y;
        list[i + 1] = z;
        y = field::mul(y, square);
        z = field::mul(z, square);
        i += 2;
    }
    if m <= i {
        return;
    }
    list[i] = y;
}

// So many products are added up before a remainder is taken.
const FEW: usize = 65536;

// 2^31: a product is added up in two halves, so that a remainder is taken of the sums and not of each product.
const HALF: u64 = 2147483648;

// The sum of the products of two short lists' numbers.
#[tactic(auto, using(crate::proofs::Halves::halves_start, crate::proofs::Halves::halves_turn, crate::proofs::Halves::halves_end, crate::proofs::Halves::high_fits))]
fn weigh_few(list: &[u32], weights: &[u32]) -> u32
    requires { (length list.now ≤ 65536) × (length weights.now ≡ length list.now) }
    ensures { result ≡ weighted list.now weights.now }
{
    let mut low: u64 = 0;
    let mut high: u64 = 0;
    for (x, weight) in list.iter().zip(weights) {
        let product = field::whole_product(*x, *weight);
        low += product % HALF;
        high += product / HALF;
    }
    field::reduce(low, high)
}

// The sum of the products of a short part of two lists.
fn weigh_part(list: &[u32], weights: &[u32], from: usize, end: usize) -> u32
    requires { (from ≤ end) × (end ≤ length list.now) × (end ≤ length weights.now) × (end - from ≤ 65536) }
    ensures { result ≡ weighted (take (end - from) (drop from list.now)) (take (end - from) (drop from weights.now)) }
{
    weigh_few(&list[from..end], &weights[from..end])
}

// The sum of the products of the two lists' numbers.
#[tactic(auto, using(crate::proofs::Bounds::weighted_below, crate::proofs::Turns::weighted_start, crate::proofs::Turns::weighted_end, crate::proofs::Turns::weighted_less))]
pub fn weigh(list: &[u32], weights: &[u32]) -> u32
    ensures { result ≡ weighted list.now weights.now }
{
    let m = list.len().min(weights.len());
    let mut i = m.min(FEW);
    let mut r = weigh_part(list, weights, 0, i);
    while i < m {
        let end = i + FEW.min(m - i);
        r = field::add(r, weigh_part(list, weights, i, end));
        i = end;
    }
    r
}

// The sum of two products with elements, which fits into 64 bits.
#[tactic(auto, using(crate::proofs::Halves::two_fit))]
fn two_products(list: &[u32], elements: &[u32], i: usize) -> u64
    requires { (i + 1 < length list.now) × (i + 1 < length elements.now) × Elements elements.now }
    ensures { result ≡ two_products_of list.now elements.now i }
{
    let next = i + 1;
    field::whole_product(list[i], elements[i]) + field::whole_product(list[next], elements[next])
}

// The sum of the products with elements, as the powers of a point are: two products are added up before they are cut in halves.
#[tactic(auto, using(crate::proofs::Halves::halves_start, crate::proofs::Halves::halves_two, crate::proofs::Halves::halves_end, crate::proofs::Halves::halves_last, crate::proofs::Halves::high_fits, crate::proofs::Halves::last_fits))]
pub fn weigh_elements(list: &[u32], elements: &[u32]) -> u32
    requires { (length list.now ≤ 65536) × (length list.now ≤ length elements.now) × Elements elements.now }
    ensures { result ≡ weighted list.now elements.now }
{
    let m = list.len();
    let mut low: u64 = 0;
    let mut high: u64 = 0;
    let mut i = 0;
    while 1 < m - i {
        let two = two_products(list, elements, i);
        low += two % HALF;
        high += two / HALF;
        i += 2;
    }
    if m <= i {
        return field::reduce(low, high);
    }
    let last = field::whole_product(list[i], elements[i]);
    field::reduce(low + last % HALF, high + last / HALF)
}
