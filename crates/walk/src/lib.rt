// The walks over the posts: the accepted ones and their shares, and the number that they bring out. They work on one row and one
// record of blocks, so that a product opens its masks by them too.
#![tactic(auto)]

ghost use Rattle.std.specs.Prelude.{◌≡◌, length, take, drop, ◌≤◌};
ghost use Rattle.agreement.specs.Sums.{Reached, Rooms};
ghost use Rattle.shape.specs.Lengths.{needed};
ghost use Rattle.accepting.specs.Between.{Judged};
ghost use Rattle.accepting.specs.Accepting.{disagree, opened};
ghost use Rattle.walk.specs.Number.{answer_of};
ghost use Rattle.walk.specs.Between.{WalkedAs, BehindIn, FurtherAs, agreed_on, Roomy};

use blocks::Opening;
use refusal::Refusal;

// The walk from post 1 upward by the posts' marks, which leaves the accepted posts and their shares at the start of two lists. It stops at the post
// that completes as many as are needed, if there is one.
#[tactic(auto, using(blocks::proofs::Blocks::post_in, crate::proofs::Walks::walking_start))]
pub fn walk_posts(
    opening: Opening,
    marks: &[u32],
    posts: &mut [u32],
    shares: &mut [u32],
) -> Option<usize>
    requires { Judged opening.party opening.row.now opening.blocks.now marks.now
        × (needed opening.party.shape ≤ length posts.old) × (needed opening.party.shape ≤ length shares.old) }
    ensures { WalkedAs opening.entry.party opening.entry.row.now opening.entry.blocks.now result posts.new shares.new }
{
    let shape = opening.party.shape;
    let n = shape.n;
    let need = shape.needed();
    let mut count = 0;
    for j in 1..n + 1 {
        if accepting::accepts(opening.party, opening.row, opening.blocks, j, marks) {
            posts[count] = j as u32;
            shares[count] = accepting::share(opening.party, opening.row, opening.blocks, j, marks);
            count += 1;
            if count == need {
                return Some(j);
            }
        }
    }
    None
}

// The second walk: the accepted posts behind the one where the first walk stopped, and their shares, stand behind the `need` that it left. How
// many posts stand in the lists then.
#[tactic(auto, using(blocks::proofs::Blocks::post_in, crate::proofs::Behind::seeking_start))]
fn walk_further(
    opening: Opening,
    marks: &[u32],
    last: usize,
    need: usize,
    posts: &mut [u32],
    shares: &mut [u32],
) -> usize
    requires { Judged opening.party opening.row.now opening.blocks.now marks.now
        × BehindIn opening.party.shape.n need last posts.old shares.old }
    ensures { FurtherAs opening.entry.party opening.entry.row.now opening.entry.blocks.now need last posts.old shares.old result
        posts.new shares.new }
{
    let n = opening.party.shape.n;
    let next = last + 1;
    let mut count = need;
    for j in next..n + 1 {
        if accepting::accepts(opening.party, opening.row, opening.blocks, j, marks) {
            posts[count] = j as u32;
            shares[count] = accepting::share(opening.party, opening.row, opening.blocks, j, marks);
            count += 1;
        }
    }
    count
}

// The number through the first `need` shares, or 13 where a further one is off their polynomial.
fn agreed(
    posts: &[u32],
    shares: &[u32],
    need: usize,
    inverses: &[u32],
    gaps: &mut [u32],
    list: &mut [u32],
    above: &mut [u32],
    below: &mut [u32],
) -> Result<u32, Refusal>
    requires { Reached posts.now shares.now need inverses.now
        × Rooms inverses.now gaps.old list.old above.old below.old }
    ensures { result
        ≡ agreed_on (take need posts.now) (take need shares.now) (drop need posts.now)
        (drop need shares.now) }
{
    match agreement::through(posts, shares, need, inverses, gaps, list, above, below) {
        Ok(value) => Ok(value),
        Err(_) => Err(Refusal::InconsistentShares),
    }
}

// What the walk's outcome answers: the number or 13, with the posts behind it, or 9. The list has the posts' marks, until the agreement needs it.
pub fn settle(
    opening: Opening,
    outcome: Option<usize>,
    posts: &mut [u32],
    shares: &mut [u32],
    inverses: &[u32],
    gaps: &mut [u32],
    list: &mut [u32],
    above: &mut [u32],
    below: &mut [u32],
) -> Result<u32, Refusal>
    requires { Judged opening.party opening.row.now opening.blocks.now list.old
        × WalkedAs opening.party opening.row.now opening.blocks.now outcome posts.old shares.old
        × Roomy opening.party.shape inverses.now posts.old shares.old gaps.old list.old above.old below.old }
    ensures { result
        ≡ answer_of outcome (disagree opening.entry.party opening.entry.row.now opening.entry.blocks.now)
        (opened opening.entry.party opening.entry.row.now opening.entry.blocks.now) }
{
    match outcome {
        Some(last) => {
            let first = opening.party.shape.needed();
            let count = walk_further(opening, list, last, first, posts, shares);
            agreed(
                &posts[..count],
                &shares[..count],
                first,
                inverses,
                gaps,
                list,
                above,
                below,
            )
        }
        None => Err(Refusal::TooFewAccepted),
    }
}
