// The draw behind another secret: the works' testers look at what a stolen set of posts gives away.
//
// Its time depends on the listed posts and on their check points, whose inverses it takes; the works knows them. It is no call of a
// post.
#![tactic(auto)]

ghost use Rattle.std.specs.Prelude.{◌≡◌, ◌≤◌, ◌+◌, ◌*◌};
ghost use Rattle.shape.specs.Bounds.{most_posts};
ghost use Rattle.refusal.specs.Numbers.{refused};
ghost use Rattle.otherdraw.specs.Other.{points_of, moved, other_refusal_of, other_out};
ghost use Rattle.otherdraw.specs.Between.{Finding, Roomed};

use refusal::Refusal;
use shape::Shape;

pub mod change;
pub mod checks;

// The other draw, with lent rooms that are long enough.
#[tactic(auto, using(crate::proofs::Ends::points_fit, crate::proofs::Ends::root_lent, crate::proofs::Ends::known_in, crate::proofs::Ends::known_lent, crate::proofs::Ends::factor_lent, crate::proofs::Ends::powers_lent, crate::proofs::Ends::lent_seeing))]
fn find_in(
    shape: Shape,
    delta: u32,
    ws: &[u32],
    posts: &[u32],
    draw: &[u32],
    root: &mut [u32],
    known: &mut [u32],
    factor: &mut [u32],
    powers: &mut [u32],
    out: &mut [u32],
)
    requires { Finding shape ws.now posts.now draw.now out.old × Roomed shape root.old known.old factor.old powers.old }
    ensures { out.new
        ≡ moved shape posts.now (points_of shape.points ws.now posts.now) delta draw.now }
{
    let f = shape.f_len();
    let v = shape.v_len();
    let m = posts.len() * shape.points;
    change::move_draw(
        shape,
        delta,
        ws,
        posts,
        draw,
        &mut root[..f],
        &mut known[..m],
        &mut factor[..v],
        &mut powers[..f],
        out,
    );
}

// In rooms for so many posts, and for as many coefficients of a v. They stand in a frame of their own, so that the stack of a smaller station
// has nothing of those for the most posts.
#[tactic(auto, using(crate::proofs::Ends::rooms))]
#[inline(never)]
fn find_in_rooms<const POSTS: usize, const V: usize>(
    shape: Shape,
    delta: u32,
    ws: &[u32],
    posts: &[u32],
    draw: &[u32],
    out: &mut [u32],
)
    requires { Finding shape ws.now posts.now draw.now out.old × (shape.n ≤ POSTS)
        × (POSTS ≤ most_posts) × (V + 1 ≡ 2 * POSTS) }
    ensures { out.new
        ≡ moved shape posts.now (points_of shape.points ws.now posts.now) delta draw.now }
{
    let mut root = [0u32; POSTS];
    let mut known = [0u32; V];
    let mut factor = [0u32; V];
    let mut powers = [0u32; POSTS];
    find_in(
        shape,
        delta,
        ws,
        posts,
        draw,
        &mut root,
        &mut known,
        &mut factor,
        &mut powers,
        out,
    );
}

// In rooms that fit the station: a small one clears short lists only.
fn find_other(shape: Shape, delta: u32, ws: &[u32], posts: &[u32], draw: &[u32], out: &mut [u32])
    requires { Finding shape ws.now posts.now draw.now out.old }
    ensures { out.new
        ≡ moved shape posts.now (points_of shape.points ws.now posts.now) delta draw.now }
{
    if shape.n <= shape::VERY_FEW_POSTS {
        find_in_rooms::<{ shape::VERY_FEW_POSTS }, { shape::V_OF_VERY_FEW }>(
            shape, delta, ws, posts, draw, out,
        );
    } else if shape.n <= shape::FEW_POSTS {
        find_in_rooms::<{ shape::FEW_POSTS }, { shape::V_OF_FEW }>(
            shape, delta, ws, posts, draw, out,
        );
    } else {
        find_in_rooms::<{ shape::MOST_POSTS }, { shape::LONGEST_V }>(
            shape, delta, ws, posts, draw, out,
        );
    }
}

// The draw behind another secret: the listed posts see the same of it, where the wanted secret is dealt.
#[tactic(auto, using(refusal::proofs::Endings::refused, refusal::proofs::Checks::not_zero, crate::proofs::Ends::copy_long, crate::proofs::Ends::call_finding, crate::proofs::Ends::call_equal, crate::proofs::Ends::call_moved))]
pub fn find(
    n: usize,
    t: usize,
    points: usize,
    ws: &[u32],
    draw: &[u32],
    secret: u32,
    wanted: u32,
    posts: &[u32],
    out: &mut [u32],
) -> Result<(), Refusal>
    ensures value { refused result
        ≡ other_refusal_of n t points ws.now draw.now secret wanted posts.now out.old }
    ensures out_after { out.new
        ≡ other_out n t points ws.now draw.now secret wanted posts.now out.old }
{
    checks::other_refusal(n, t, points, ws, draw, secret, wanted, posts, out)?;
    if secret == wanted {
        lists::copy(draw, out);
    } else {
        let shape = Shape { n, t, points };
        find_other(shape, field::sub(wanted, secret), ws, posts, draw, out);
    }
    Ok(())
}
