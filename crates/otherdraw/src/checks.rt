// The refusals of the call. All of them come before the first write.
ghost use Rattle.std.specs.Prelude.{◌≡◌, [], ◌∷◌};
ghost use Rattle.refusal.specs.Refusal.{first, ◌when◌};
ghost use Rattle.refusal.specs.Numbers.{refused};
ghost use Rattle.otherdraw.specs.Other.{not_rising, too_many_of, own_tests, other_refusal_of};

use refusal::Refusal;
use shape::Shape;

// 18, of the list of posts.
#[tactic(auto, using(crate::proofs::Asking::falls, crate::proofs::Asking::leaves, crate::proofs::Asking::rises, crate::proofs::Asking::rose))]
fn rising(n: usize, posts: &[u32]) -> Result<(), Refusal>
    ensures { refused result ≡ first (18 when not_rising n 0 posts.now ∷ []) }
{
    let mut last = 0;
    for &post in posts {
        if post <= last || n < post as usize {
            return Err(Refusal::BadPostList);
        }
        last = post;
    }
    Ok(())
}

// 19.
fn few(t: usize, secret: u32, wanted: u32, posts: &[u32]) -> Result<(), Refusal>
    ensures { refused result ≡ first (19 when too_many_of t secret wanted posts.now ∷ []) }
{
    if secret != wanted && t < posts.len() {
        return Err(Refusal::TooManyPosts);
    }
    Ok(())
}

// 8 of the secrets, 18 and 19.
fn own(n: usize, t: usize, secret: u32, wanted: u32, posts: &[u32]) -> Result<(), Refusal>
    ensures { refused result ≡ first (own_tests n t secret wanted posts.now) }
{
    refusal::number(secret)
        .and(refusal::number(wanted))
        .and(rising(n, posts))
        .and(few(t, secret, wanted, posts))
}

// Lengths are computed only where n, t and the number of points have passed, so that nothing overflows.
#[tactic(auto, using(refusal::proofs::Ranges::station_passed, crate::proofs::Asking::other_stopped))]
pub fn other_refusal(
    n: usize,
    t: usize,
    points: usize,
    ws: &[u32],
    draw: &[u32],
    secret: u32,
    wanted: u32,
    posts: &[u32],
    out: &[u32],
) -> Result<(), Refusal>
    ensures { refused result
        ≡ other_refusal_of n t points ws.now draw.now secret wanted posts.now out.now }
{
    refusal::station(n, t, points)?;
    let shape = Shape { n, t, points };
    let long = shape.draw_len();
    factory::checks::lists(shape.checks_len(), ws, draw, long, out, long).and(own(
        n, t, secret, wanted, posts,
    ))
}
