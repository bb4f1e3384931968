// The draw changed by delta, the wanted secret less the secret, with lent rooms: `root` for f, `known` for the check points of the listed posts,
// `factor` for a v, and `powers` for those of a post.
ghost use Rattle.std.specs.Prelude.{◌≡◌, ◌++◌, ◌+◌, ◌≤◌, ◌<◌, length, take, drop};
ghost use Rattle.poly.specs.Polynomial.{value};
ghost use Rattle.shape.specs.Bounds.{most_posts};
ghost use Rattle.vanishing.specs.Vanishing.{vanishing, distinct};
ghost use Rattle.vanishing.specs.Between.{Nonzero};
ghost use Rattle.otherdraw.specs.Other.{points_of, moved};
ghost use Rattle.poly.specs.Counting.{Elements};
ghost use Rattle.otherdraw.specs.Between.{handed, changed, scale_of, is_next_of, vs_with, Valued, Rooted, Gathering, Changing, Seeing};

use shape::Shape;

// So few coefficients go by Horner's rule: their powers would take longer.
const FEW: usize = 3;

// The k numbers of `from` that stand from a on, into `to` from b on.
#[tactic(auto, using(crate::proofs::Writing::part_handed))]
fn hand(k: usize, a: usize, b: usize, from: &[u32], to: &mut [u32])
    requires { (a + k ≤ length from.now) × (b + k ≤ length to.old) }
    ensures { to.new ≡ handed k a b from.now to.old }
{
    let end = a + k;
    let last = b + k;
    lists::copy(&from[a..end], &mut to[b..last]);
}

// The check points of the listed posts.
#[tactic(auto, using(crate::proofs::Writing::post_low, crate::proofs::Writing::post_room, crate::proofs::Writing::post_fits, crate::proofs::Writing::known_room, crate::proofs::Writing::known_fits, crate::proofs::Writing::known_next))]
fn gather(shape: Shape, ws: &[u32], posts: &[u32], known: &mut [u32])
    requires { Gathering shape ws.now posts.now known.old }
    ensures { known.new ≡ points_of shape.points ws.now posts.now }
{
    let k = shape.points;
    let mut at = 0;
    for &post in posts {
        hand(k, (post as usize - 1) * k, at, ws, known);
        at += k;
    }
}

// The part from `at` on, as long as the factor, changed by a multiple of it.
#[tactic(auto, using(crate::proofs::Writing::part_changed))]
fn change_part(at: usize, scale: u32, factor: &[u32], draw: &[u32], out: &mut [u32])
    requires { (at + length factor.now ≤ length draw.now) × (length draw.now ≡ length out.old) }
    ensures { out.new ≡ changed at scale factor.now draw.now out.old }
{
    let end = at + factor.len();
    sums::combine(scale, &draw[at..end], factor, &mut out[at..end]);
}

// The value at x of what f changes by, but for delta.
#[tactic(auto, using(parts::proofs::Turns::elements_filled, crate::proofs::Writing::value_weighed))]
fn value_at(x: u32, root: &[u32], powers: &mut [u32]) -> u32
    requires { Valued root.now powers.old }
    ensures { result ≡ value root.now x }
{
    if root.len() <= FEW {
        return poly::evaluate(root, x);
    }
    poly::powers(x, powers);
    poly::weigh_elements(root, powers)
}

// By how much the v of post i + 1 changes at 0, where f changes by delta times `root`.
#[tactic(auto, using(crate::proofs::Writing::scale_is))]
fn scale_at(i: usize, delta: u32, root: &[u32], powers: &mut [u32]) -> u32
    requires { Valued root.now powers.old × (i < most_posts) }
    ensures { result ≡ scale_of delta root.now i }
{
    let post = (i + 1) as u32;
    field::sub(0, field::mul(delta, value_at(post, root, powers)))
}

// Whether post i + 1 is the next of the listed posts.
#[tactic(auto, unfolding(crate::specs::Between::is_next_of))]
fn is_next(i: usize, next: usize, posts: &[u32]) -> bool
    requires { i < most_posts }
    ensures { result ≡ is_next_of i next posts.now }
{
    next < posts.len() && posts[next] as usize == i + 1
}

// The v of post i + 1, which stands from `at` on: a listed post's is kept, since f changes by 0 there. Gives the place of the next listed post.
#[tactic(auto, using(crate::proofs::Writing::v_changed, crate::proofs::Keeping::next_fits, crate::proofs::Keeping::v_kept))]
fn change_v(
    i: usize,
    at: usize,
    next: usize,
    delta: u32,
    posts: &[u32],
    root: &[u32],
    factor: &[u32],
    draw: &[u32],
    powers: &mut [u32],
    out: &mut [u32],
) -> usize
    requires { Valued root.now powers.old × (i < most_posts) × (at + length factor.now ≤ length draw.now)
        × (length draw.now ≡ length out.old) × Rooted root.now posts.now × Elements draw.now }
    ensures { out.new
        ≡ changed at (scale_of delta root.now i) factor.now draw.now out.old }
{
    if is_next(i, next, posts) {
        hand(factor.len(), at, at, draw, out);
        return next + 1;
    }
    let scale = scale_at(i, delta, root, powers);
    change_part(at, scale, factor, draw, out);
    next
}

// The v's of n posts changed, the first of which stands from `first` on.
fn change_vs(
    n: usize,
    first: usize,
    delta: u32,
    posts: &[u32],
    root: &[u32],
    factor: &[u32],
    draw: &[u32],
    powers: &mut [u32],
    out: &mut [u32],
)
    requires { Changing n first posts.now root.now factor.now draw.now powers.old out.old }
    ensures { out.new
        ≡ take first out.old
        ++ vs_with (length factor.now) root.now factor.now delta draw.now first 0 n }
{
    let mut at = first;
    let mut next = 0;
    for i in 0..n {
        next = change_v(i, at, next, delta, posts, root, factor, draw, powers, out);
        at += factor.len();
    }
}

// The v's changed, where some posts are listed.
#[tactic(auto, using(crate::proofs::Moving::seen_changing, crate::proofs::Moving::seen_changed))]
fn change_seen(
    shape: Shape,
    delta: u32,
    ws: &[u32],
    posts: &[u32],
    root: &[u32],
    draw: &[u32],
    known: &mut [u32],
    factor: &mut [u32],
    powers: &mut [u32],
    out: &mut [u32],
)
    requires { Seeing shape ws.now posts.now root.now draw.now known.old factor.old powers.old out.old
        × Rooted root.now posts.now }
    ensures { out.new
        ≡ take (length root.now) out.old
        ++ vs_with (length factor.old) root.now
        (vanishing (length factor.old) (distinct (points_of shape.points ws.now posts.now))) delta draw.now
        (length root.now) 0 shape.n }
{
    let n = shape.n;
    let first = root.len();
    gather(shape, ws, posts, known);
    vanishing::vanish_at_each(known, factor);
    change_vs(n, first, delta, posts, root, factor, draw, powers, out);
}

// f changed: by delta times the product of 1 - z/j over the listed posts, which `root` then holds.
#[tactic(auto, using(crate::proofs::Writing::f_changed))]
fn change_f(delta: u32, posts: &[u32], draw: &[u32], root: &mut [u32], out: &mut [u32])
    requires { (1 ≤ length root.old) × Nonzero posts.now × (length root.old ≤ length draw.now)
        × (length draw.now ≡ length out.old) }
    ensures root_after { root.new ≡ vanishing (length root.old) posts.now }
    ensures out_after { out.new
        ≡ changed 0 delta (vanishing (length root.old) posts.now) draw.now out.old }
{
    vanishing::vanish_at(posts, root);
    change_part(0, delta, root, draw, out);
}

// The rest of the draw as it is.
#[tactic(auto, using(crate::proofs::Writing::rest_copied))]
fn copy_rest(from: usize, draw: &[u32], out: &mut [u32])
    requires { (from ≤ length draw.now) × (length draw.now ≡ length out.old) }
    ensures { out.new ≡ take from out.old ++ drop from draw.now }
{
    lists::copy(&draw[from..], &mut out[from..]);
}

// The other draw.
#[tactic(auto, using(crate::proofs::Moving::posts_nonzero, crate::proofs::Moving::o_long, crate::proofs::Moving::moved_room))]
pub fn move_draw(
    shape: Shape,
    delta: u32,
    ws: &[u32],
    posts: &[u32],
    draw: &[u32],
    root: &mut [u32],
    known: &mut [u32],
    factor: &mut [u32],
    powers: &mut [u32],
    out: &mut [u32],
)
    requires { Seeing shape ws.now posts.now root.old draw.now known.old factor.old powers.old out.old }
    ensures { out.new
        ≡ moved shape posts.now (points_of shape.points ws.now posts.now) delta draw.now }
{
    let first = root.len();
    change_f(delta, posts, draw, root, out);
    if posts.is_empty() {
        copy_rest(first, draw, out);
    } else {
        change_seen(
            shape, delta, ws, posts, root, draw, known, factor, powers, out,
        );
    }
}
