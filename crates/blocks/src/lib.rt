// A record: a block for each post, its mark and its coefficients. Where a block begins, what counts for a post, and check 8.
#![tactic(auto)]

ghost use Rattle.std.specs.Prelude.{◌≡◌, [], ◌∷◌, ◌*◌, ◌-◌};
ghost use Rattle.shape.specs.Lengths.{Valid, block_length};
ghost use Rattle.refusal.specs.Refusal.{first, ◌when◌};
ghost use Rattle.refusal.specs.Numbers.{refused};
ghost use Rattle.blocks.specs.Blocks.{bad_block_of, bad_record, sent};
ghost use Rattle.blocks.specs.Between.{PostIn, Recorded, Openable};

use refusal::Refusal;
use session::Party;
use shape::Shape;

// Where post j's block begins, with its mark.
pub fn block_at(shape: Shape, j: usize) -> usize
    requires { Valid shape × PostIn shape j }
    ensures { result ≡ (j - 1) * block_length shape }
{
    (j - 1) * shape.block_len()
}

// What an opening goes by: who opens, the row, and the record of what the others sent, of the stated lengths.
#[derive(Clone, Copy)]
pub struct Opening<'a> {
    pub party: Party,
    pub row: &'a [u32],
    pub blocks: &'a [u32],
    pub ghost openable: { Openable party row.now blocks.now },
}

impl<'a> Opening<'a> {
    // The coefficients that count for post j, uncopied: its own row's, or those of its block, or none.
    #[tactic(auto, using(crate::proofs::Blocks::own_fits, crate::proofs::Blocks::sent_own, crate::proofs::Blocks::sent_block, crate::proofs::Blocks::sent_none))]
    pub fn sent(self, j: usize) -> &'a [u32]
        requires { PostIn self.party.shape j }
        ensures { result.now ≡ sent self.entry.party self.entry.row.now self.entry.blocks.now j }
    {
        let shape = self.party.shape;
        let count = shape.v_len();
        if j == self.party.post {
            return &self.row[..count];
        }
        let mark = block_at(shape, j);
        let from = mark + 1;
        let end = from + count;
        if self.blocks[mark] == shape::PRESENT {
            return &self.blocks[from..end];
        }
        &self.blocks[..0]
    }
}

// 8, of one block.
#[tactic(auto, using(crate::proofs::Blocks::own_passed, crate::proofs::Blocks::absent_passed, crate::proofs::Blocks::mark_found, crate::proofs::Blocks::numbers_found))]
fn block(party: Party, blocks: &[u32], j: usize) -> Result<(), Refusal>
    requires { Recorded party blocks.now × PostIn party.shape j }
    ensures { refused result ≡ first (8 when bad_block_of party blocks.now j ∷ []) }
{
    let own = party.post;
    if j == own {
        return Ok(());
    }
    let shape = party.shape;
    let mark = block_at(shape, j);
    let from = mark + 1;
    let end = from + shape.v_len();
    let present = blocks[mark];
    if present == shape::ABSENT {
        return Ok(());
    }
    if shape::PRESENT < present {
        return Err(Refusal::NotAnElement);
    }
    refusal::numbers(&blocks[from..end])
}

// 8, of a record: every block but the post's own.
#[tactic(auto, using(crate::proofs::Blocks::post_in, crate::proofs::Blocks::blocks_start, crate::proofs::Blocks::block_bad, crate::proofs::Blocks::block_good, crate::proofs::Blocks::blocks_end, refusal::proofs::Checks::not_zero))]
pub fn refusal(party: Party, blocks: &[u32]) -> Result<(), Refusal>
    requires { Recorded party blocks.now }
    ensures { refused result ≡ first (8 when bad_record party blocks.now ∷ []) }
{
    for j in 1..party.shape.n + 1 {
        block(party, blocks, j)?;
    }
    Ok(())
}
