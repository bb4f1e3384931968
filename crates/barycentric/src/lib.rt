// Interpolation at 0 through rising numbers from 1 to 255, as post numbers are: every inverse comes from a table that the caller
// lends.
#![tactic(auto)]

ghost use Rattle.std.specs.Prelude.{◌≡◌, ◌∷◌, map, ◌+◌, ◌*◌, ◌-◌, ◌≤◌, ◌<◌, length, take};
ghost use Rattle.field.specs.Modulus.{p};
ghost use Rattle.field.specs.Arithmetic.{difference, product};
ghost use Rattle.poly.specs.Counting.{All};
ghost use Rattle.inverses.specs.InverseTable.{Inverts, most};
ghost use Rattle.poly.specs.Interpolation.{nodal, interpolated};
ghost use Rattle.barycentric.specs.Nodes.{Rising, last_of, missing};
ghost use Rattle.barycentric.specs.Weights.{alternating, mirrored, away, spans, node_weight, firsts, row, Prepared, Weighing, WeightsOf};

pub fn wide(x: u32) -> usize
    ensures { result ≡ x }
{
    x as usize
}

// 1 / (0 - k): p less the table's entry.
fn negative_inverse(inverses: &[u32], k: usize) -> u32
    requires { Inverts inverses.now × (0 < k) × (k ≤ length inverses.now) }
    ensures { product result (difference 0 k) ≡ 1 }
{
    field::P - inverses[k - 1]
}

// The weights of 0 to m, up to the middle of a list of m + 1: each is the one before times (m + 1 - x) / -x. The place x
// is reckoned with.
fn lower_half(inverses: &[u32], list: &mut [u32], half: usize)
    requires { Inverts inverses.now × (length list.old ≤ length inverses.now + 1) × (0 < half) × (half ≤ length list.old) }
    ensures { (length list.new ≡ length list.old)
        × (take half list.new ≡ firsts (alternating (length list.old - 1)) half) }
{
    let n = list.len();
    let mut b: u32 = 1;
    list[0] = b;
    for x in 1..half {
        b = field::mul(b, field::mul((n - x) as u32, negative_inverse(inverses, x)));
        list[x] = b;
    }
}

// The weight as far from the end as b is from the start, in a list of n: the same, with a sign where n is even.
fn mirrored(b: u32, n: usize) -> u32
    requires { b < p }
    ensures { result ≡ mirrored n b }
{
    if n % 2 == 1 {
        return b;
    }
    if b == 0 { 0 } else { field::P - b }
}

// The weights from the middle on, each read from its place in the list that is written.
fn upper_half(list: &mut [u32], half: usize)
    requires { (half ≤ length list.old) × (length list.old ≤ half + half) × (take half list.old ≡ firsts (alternating (length list.old - 1)) half) }
    ensures { list.new ≡ row (length list.old) }
{
    let n = list.len();
    for x in half..n {
        list[x] = mirrored(list[n - 1 - x], n);
    }
}

// The weights of 0 to m fill a list of m + 1: Pascal's triangle with signs, whose rows read the same from both ends.
fn binomials(inverses: &[u32], list: &mut [u32])
    requires { Inverts inverses.now × (length list.old ≤ length inverses.now + 1) × (0 < length list.old) }
    ensures { list.new ≡ row (length list.old) }
{
    let n = list.len();
    let half = (n + 1) / 2;
    lower_half(inverses, list, half);
    upper_half(list, half);
}

// The numbers up to the last node that are no nodes fill the list. A turn goes on in the one list or the other, so both places are counted.
fn missing(nodes: &[u32], list: &mut [u32])
    requires { Rising 0 nodes.now × (length list.old ≡ length (missing 0 nodes.now)) }
    ensures { list.new ≡ missing 0 nodes.now }
{
    let n = list.len();
    let mut i = 0;
    let mut j = 0;
    while j < n {
        let node = wide(nodes[i]);
        let x = i + j + 1;
        if node == x {
            i += 1;
        } else {
            list[j] = x as u32;
            j += 1;
        }
    }
}

// |x - g|
fn away(x: u32, g: u32) -> u32
    ensures { result ≡ away x g }
{
    if x < g { g - x } else { x - g }
}

// The product of |x - g| over four small numbers g, which needs no remainder.
fn four(x: u32, a: u32, b: u32, c: u32, d: u32) -> u32
    requires { (x ≤ most) × (a ≤ most) × (b ≤ most) × (c ≤ most) × (d ≤ most) }
    ensures { result ≡ away x a * away x b * (away x c * away x d) }
{
    let first = away(x, a) * away(x, b);
    let second = away(x, c) * away(x, d);
    first * second
}

// The product of |x - g| over fewer than four small numbers g, which needs no remainder either.
fn few_spans(gaps: &[u32], x: u32) -> u32
    requires { (x ≤ most) × All (λ g. g ≤ most) gaps.now × (length gaps.now < 4) }
    ensures { result ≡ spans gaps.now x }
{
    let n = gaps.len();
    if n == 0 {
        return 1;
    }
    let first = away(x, gaps[0]);
    if n == 1 {
        return first;
    }
    let two = first * away(x, gaps[1]);
    if n == 2 {
        return two;
    }
    two * away(x, gaps[2])
}

// The product of x - g over the first few gaps, with the sign of that over all: one for each gap above x, `signs` in all.
fn distances(gaps: &[u32], few: usize, x: u32, signs: usize) -> u32
    requires { (x ≤ most) × All (λ g. g ≤ most) gaps.now × (few ≤ length gaps.now) × (few < 4) × (signs ≤ most) }
    ensures { result ≡ mirrored (signs + 1) (spans (take few gaps.now) x) }
{
    mirrored(few_spans(&gaps[0..few], x), signs + 1)
}

// The weights of 0 and the nodes move to the front of the list of all numbers' weights, each times its distances to the first few gaps. Of the
// numbers up to node x all but i + 1 are gaps, so those above it need no count.
fn weigh_few(nodes: &[u32], gaps: &[u32], few: usize, list: &mut [u32])
    requires { Rising 0 nodes.now × (last_of 0 nodes.now ≤ most) × (gaps.now ≡ missing 0 nodes.now)
        × (few ≤ length gaps.now) × (few < 4) × (last_of 0 nodes.now < length list.old)
        × (list.old ≡ firsts (alternating (last_of 0 nodes.now)) (length list.old)) }
    ensures { Weighing nodes.now gaps.now few list.new }
{
    let missed = gaps.len();
    list[0] = distances(gaps, few, 0, missed);
    for (i, node) in nodes.iter().enumerate() {
        let x = wide(*node);
        let above = missed + (i + 1) - x;
        list[i + 1] = field::mul(list[x], distances(gaps, few, *node, above));
    }
}

// The weights times their distances to the next four gaps. All nodes are in one loop, so that the compiler takes several at once.
fn weigh_four(nodes: &[u32], gaps: &[u32], k: usize, list: &mut [u32])
    requires { Weighing nodes.now gaps.now k list.old × (k + 3 < length gaps.now) }
    ensures { Weighing nodes.now gaps.now (k + 4) list.new }
{
    let a = gaps[k];
    let b = gaps[k + 1];
    let c = gaps[k + 2];
    let d = gaps[k + 3];
    list[0] = field::mul(list[0], four(0, a, b, c, d));
    for (i, node) in nodes.iter().enumerate() {
        let at = i + 1;
        list[at] = field::mul(list[at], four(*node, a, b, c, d));
    }
}

// The weights of 0 and the nodes, four gaps to a turn. What is no whole turn comes first.
fn weigh_nodes(nodes: &[u32], gaps: &[u32], list: &mut [u32])
    requires { Rising 0 nodes.now × (last_of 0 nodes.now ≤ most) × (gaps.now ≡ missing 0 nodes.now)
        × (last_of 0 nodes.now < length list.old)
        × (list.old ≡ firsts (alternating (last_of 0 nodes.now)) (length list.old)) }
    ensures { take (length nodes.now + 1) list.new
        ≡ map (node_weight (last_of 0 nodes.now) gaps.now) (0 ∷ nodes.now) }
{
    let n = gaps.len();
    let mut k = n % 4;
    weigh_few(nodes, gaps, k, list);
    while k < n {
        weigh_four(nodes, gaps, k, list);
        k += 4;
    }
}

// The product of 1 / (0 - x) over the list's numbers, two to a turn: so one product of a turn does not wait for the turn before.
fn inverse_product(list: &[u32], inverses: &[u32]) -> u32
    requires { Inverts inverses.now × All (λ x. (0 < x) × (x ≤ length inverses.now)) list.now }
    ensures { product result (nodal list.now 0) ≡ 1 }
{
    let n = list.len();
    let mut r: u32 = 1;
    let mut i = 0;
    while 1 < n - i {
        let x = wide(list[i]);
        let y = wide(list[i + 1]);
        r = field::mul(
            r,
            field::mul(negative_inverse(inverses, x), negative_inverse(inverses, y)),
        );
        i += 2;
    }
    if n <= i {
        return r;
    }
    field::mul(r, negative_inverse(inverses, wide(list[i])))
}

// The missing numbers and with them the nodes' weights, where a number is missing.
fn weigh_gaps(nodes: &[u32], gaps: &mut [u32], list: &mut [u32])
    requires { Rising 0 nodes.now × (last_of 0 nodes.now ≤ most) × (length gaps.old ≡ length (missing 0 nodes.now))
        × (last_of 0 nodes.now < length list.old) × (list.old ≡ firsts (alternating (last_of 0 nodes.now)) (length list.old)) }
    ensures { (gaps.new ≡ missing 0 nodes.now) × WeightsOf nodes.now list.new }
{
    missing(nodes, gaps);
    weigh_nodes(nodes, gaps, list);
}

// The missing numbers, and the weights of 0 and the nodes at the front of the list.
fn weigh_rising(nodes: &[u32], inverses: &[u32], gaps: &mut [u32], list: &mut [u32])
    requires { Prepared nodes.now inverses.now gaps.old list.old }
    ensures { (gaps.new ≡ missing 0 nodes.now) × WeightsOf nodes.now list.new }
{
    binomials(inverses, list);
    if !gaps.is_empty() {
        weigh_gaps(nodes, gaps, list);
    }
}

// The interpolation at 0 through rising nodes; the nodes' weights stay at the front of the list.
pub fn at_zero_rising(
    nodes: &[u32],
    values: &[u32],
    inverses: &[u32],
    gaps: &mut [u32],
    list: &mut [u32],
) -> u32
    requires { Prepared nodes.now inverses.now gaps.old list.old × (length values.now ≡ length nodes.now) }
    ensures { (result ≡ interpolated nodes.now values.now 0) × WeightsOf nodes.now list.new }
{
    weigh_rising(nodes, inverses, gaps, list);
    let end = nodes.len() + 1;
    let s = poly::weigh(values, &list[1..end]);
    field::mul(field::sub(0, s), inverse_product(gaps, inverses))
}
