// The opening of one row with one record, in rooms that fit the station: a small one clears short lists only. The three sizes are never put into
// their callers, so that the rooms of the most posts stay off a small station's stack.
#![tactic(auto)]

ghost use Rattle.std.specs.Prelude.{◌≡◌, ◌≤◌, ◌+◌, ◌*◌, length};
ghost use Rattle.inverses.specs.InverseTable.{Inverts};
ghost use Rattle.shape.specs.Bounds.{very_few_posts, few_posts};
ghost use Rattle.walk.specs.Number.{opened_row};

use blocks::Opening;
use refusal::Refusal;

// How long the agreement's longer lists are.
const LIST_OF_VERY_FEW: usize = inverses::very_few::VERY_FEW + 1;

const LIST_OF_FEW: usize = inverses::few::FEW + 1;

const LIST_OF_MOST: usize = inverses::MOST + 1;

// The number that a row opens to with a record, or 9, or 13, with a table of inverses, and rooms for so many posts: for the polynomials' weights,
// the posts, the shares and the agreement's lists, of which the first holds the posts' marks before it is needed.
#[tactic(auto, using(walk::proofs::Settles::row_settled))]
fn open_in<const POSTS: usize, const WEIGHTS: usize, const LIST: usize>(
    opening: Opening,
    inverses: &[u32; POSTS],
) -> Result<u32, Refusal>
    requires { (opening.party.shape.n ≤ POSTS) × (WEIGHTS + 1 ≡ 2 * POSTS) × (LIST ≡ POSTS + 1)
        × (length inverses.now ≡ POSTS) × Inverts inverses.now }
    ensures { result ≡ opened_row opening.entry.party opening.entry.row.now opening.entry.blocks.now }
{
    let mut weights = [0u32; WEIGHTS];
    let mut posts = [0u32; POSTS];
    let mut shares = [0u32; POSTS];
    let mut gaps = [0u32; POSTS];
    let mut list = [0u32; LIST];
    let mut above = [0u32; LIST];
    let mut below = [0u32; LIST];
    accepting::judge(opening, &mut weights, &mut list);
    let outcome = walk::walk_posts(opening, &list, &mut posts, &mut shares);
    walk::settle(
        opening,
        outcome,
        &mut posts,
        &mut shares,
        inverses,
        &mut gaps,
        &mut list,
        &mut above,
        &mut below,
    )
}

// In rooms for very few posts.
#[inline(never)]
pub fn open_very_few(opening: Opening) -> Result<u32, Refusal>
    requires { opening.party.shape.n ≤ very_few_posts }
    ensures { result ≡ opened_row opening.entry.party opening.entry.row.now opening.entry.blocks.now }
{
    open_in::<{ shape::VERY_FEW_POSTS }, { shape::V_OF_VERY_FEW }, LIST_OF_VERY_FEW>(
        opening,
        &inverses::very_few::to_8(),
    )
}

// In rooms for few posts.
#[inline(never)]
pub fn open_few(opening: Opening) -> Result<u32, Refusal>
    requires { opening.party.shape.n ≤ few_posts }
    ensures { result ≡ opened_row opening.entry.party opening.entry.row.now opening.entry.blocks.now }
{
    open_in::<{ shape::FEW_POSTS }, { shape::V_OF_FEW }, LIST_OF_FEW>(
        opening,
        &inverses::few::to_32(),
    )
}

// In rooms for the most posts.
#[inline(never)]
pub fn open_most(opening: Opening) -> Result<u32, Refusal>
    ensures { result ≡ opened_row opening.entry.party opening.entry.row.now opening.entry.blocks.now }
{
    open_in::<{ shape::MOST_POSTS }, { shape::LONGEST_V }, LIST_OF_MOST>(
        opening,
        &inverses::to_255(),
    )
}

// The number that a row opens to with a record, or 9, or 13.
pub fn open_row(opening: Opening) -> Result<u32, Refusal>
    ensures { result ≡ opened_row opening.entry.party opening.entry.row.now opening.entry.blocks.now }
{
    let n = opening.party.shape.n;
    if n <= shape::VERY_FEW_POSTS {
        open_very_few(opening)
    } else if n <= shape::FEW_POSTS {
        open_few(opening)
    } else {
        open_most(opening)
    }
}
