// Request (iv): whether further values lie on the polynomial through the first ones, by two sums of products a value.
#![tactic(auto)]

ghost use Rattle.std.specs.Prelude.{◌≡◌, suc, ◌≤◌, ◌<◌, true, false, length, take, drop, MatchResult};
ghost use Rattle.agreement.specs.Agreement.{all_agree, Settles};
ghost use Rattle.poly.specs.Counting.{All};
ghost use Rattle.inverses.specs.InverseTable.{Inverts};
ghost use Rattle.barycentric.specs.Nodes.{last_of};
ghost use Rattle.barycentric.specs.Weights.{Prepared};
ghost use Rattle.agreement.specs.Sums.{fits, all_fit, tops, bottoms, Weighed, Cleared, Further, Reached, Rooms};

// Whether the value y at z fits.
fn fits(z: usize, y: u32, inverses: &[u32], above: &[u32], below: &[u32]) -> bool
    requires { Inverts inverses.now × (length above.now ≡ length below.now) × (length below.now ≤ z) × (z ≤ length inverses.now) }
    ensures { result ≡ fits inverses.now above.now below.now z y }
{
    if field::P <= y {
        return false;
    }
    let from = z - below.len();
    let top = poly::weigh_elements(above, &inverses[from..z]);
    let bottom = poly::weigh_elements(below, &inverses[from..z]);
    top == field::mul(y, bottom)
}

// Whether all values at further nodes fit.
fn all_fit(nodes: &[u32], values: &[u32], inverses: &[u32], above: &[u32], below: &[u32]) -> bool
    requires { Inverts inverses.now × (length above.now ≡ length below.now) × (length values.now ≡ length nodes.now)
        × All (λ z. (length below.now ≤ z) × (z ≤ length inverses.now)) nodes.now }
    ensures { result ≡ all_fit inverses.now above.now below.now nodes.now values.now }
{
    for (i, node) in nodes.iter().enumerate() {
        let z = barycentric::wide(*node);
        if !fits(z, values[i], inverses, above, below) {
            return false;
        }
    }
    true
}

// The numbers of 0 and of the nodes, each at its place, in two cleared lists.
fn spread(
    nodes: &[u32],
    values: &[u32],
    value: u32,
    weights: &[u32],
    above: &mut [u32],
    below: &mut [u32],
)
    requires { Weighed nodes.now values.now value weights.now × Cleared (suc (last_of 0 nodes.now)) above.old
        × Cleared (suc (last_of 0 nodes.now)) below.old }
    ensures { (above.new ≡ tops nodes.now values.now) × (below.new ≡ bottoms nodes.now) }
{
    let last = below.len() - 1;
    below[last] = weights[0];
    above[last] = field::mul(weights[0], value);
    for (i, node) in nodes.iter().enumerate() {
        let at = last - barycentric::wide(*node);
        let weight = weights[i + 1];
        below[at] = weight;
        above[at] = field::mul(weight, values[i]);
    }
}

// The lists of the two sums.
fn lay(
    nodes: &[u32],
    values: &[u32],
    value: u32,
    weights: &[u32],
    above: &mut [u32],
    below: &mut [u32],
)
    requires { Weighed nodes.now values.now value weights.now × (length above.old ≡ suc (last_of 0 nodes.now))
        × (length below.old ≡ suc (last_of 0 nodes.now)) }
    ensures { (above.new ≡ tops nodes.now values.now) × (below.new ≡ bottoms nodes.now) }
{
    lists::clear(above);
    lists::clear(below);
    spread(nodes, values, value, weights, above, below);
}

// Whether all values at further nodes agree, where those lie above rising nodes.
fn agree_rising(
    nodes: &[u32],
    values: &[u32],
    value: u32,
    weights: &[u32],
    further: &[u32],
    shares: &[u32],
    inverses: &[u32],
    above: &mut [u32],
    below: &mut [u32],
) -> bool
    requires { Weighed nodes.now values.now value weights.now
        × Further (last_of 0 nodes.now) further.now shares.now inverses.now above.old below.old }
    ensures { result ≡ all_agree nodes.now values.now further.now shares.now }
{
    lay(nodes, values, value, weights, above, below);
    all_fit(further, shares, inverses, above, below)
}

// The value at 0 of the polynomial through the first values: `Ok` where all further ones lie on it, `Err` where one does not.
fn through_rising(
    nodes: &[u32],
    values: &[u32],
    further: &[u32],
    shares: &[u32],
    inverses: &[u32],
    gaps: &mut [u32],
    list: &mut [u32],
    above: &mut [u32],
    below: &mut [u32],
) -> Result<u32, u32>
    requires { Prepared nodes.now inverses.now gaps.old list.old × (length values.now ≡ length nodes.now)
        × Further (last_of 0 nodes.now) further.now shares.now inverses.now above.old below.old }
    ensures { MatchResult result (λ value. Settles nodes.now values.now further.now shares.now value true)
        (λ value. Settles nodes.now values.now further.now shares.now value false) }
{
    let value = barycentric::at_zero_rising(nodes, values, inverses, gaps, list);
    if further.is_empty()
        || agree_rising(
            nodes, values, value, list, further, shares, inverses, above, below,
        )
    {
        Ok(value)
    } else {
        Err(value)
    }
}

// The value at 0 of the polynomial through the first k shares: `Ok` where all further shares lie on it, `Err` where one does not. The
// table of inverses is lent, and room for as many numbers and one more.
pub fn through(
    posts: &[u32],
    shares: &[u32],
    k: usize,
    inverses: &[u32],
    gaps: &mut [u32],
    list: &mut [u32],
    above: &mut [u32],
    below: &mut [u32],
) -> Result<u32, u32>
    requires { Reached posts.now shares.now k inverses.now × Rooms inverses.now gaps.old list.old above.old below.old }
    ensures { MatchResult result
        (λ value. Settles (take k posts.now) (take k shares.now) (drop k posts.now) (drop k shares.now) value true)
        (λ value. Settles (take k posts.now) (take k shares.now) (drop k posts.now) (drop k shares.now) value false) }
{
    let last = barycentric::wide(posts[k - 1]);
    let missed = last - k;
    let end = last + 1;
    through_rising(
        &posts[..k],
        &shares[..k],
        &posts[k..],
        &shares[k..],
        inverses,
        &mut gaps[..missed],
        &mut list[..end],
        &mut above[..end],
        &mut below[..end],
    )
}
