// A record's blocks: a post's message is put into a record, and taken out of it again.
#![tactic(auto)]

ghost use Rattle.std.specs.Prelude.{◌≡◌, suc, length};
ghost use Rattle.shape.specs.Lengths.{Valid, record_length, message_length};
ghost use Rattle.refusal.specs.Numbers.{refused};
ghost use Rattle.blocks.specs.Between.{PostIn};
ghost use Rattle.records.specs.Records.{place_refusal_of, put_refusal_of, with_block, block_of, no_block, put_record, removed_record};

use refusal::Refusal;
use shape::Shape;

// 1 to 4, and 5 of the record.
#[tactic(auto, using(refusal::proofs::Ranges::party_passed, crate::proofs::Places::place_stopped, crate::proofs::Places::place_sized, refusal::proofs::Checks::not_zero))]
fn place_checks(
    n: usize,
    t: usize,
    points: usize,
    blocks: &[u32],
    post: usize,
) -> Result<(), Refusal>
    ensures { refused result ≡ place_refusal_of n t points blocks.now post }
{
    refusal::party(n, t, post, points)?;
    let shape = Shape { n, t, points };
    refusal::size(blocks, shape.record_len())
}

// And 5 and 8 of the message.
#[tactic(auto, using(crate::proofs::Places::place_valid, crate::proofs::Places::put_stopped, crate::proofs::Places::size_stopped, crate::proofs::Places::numbers_asked, refusal::proofs::Checks::not_zero))]
fn put_checks(
    n: usize,
    t: usize,
    points: usize,
    all_blocks: &[u32],
    post: usize,
    message: &[u32],
) -> Result<(), Refusal>
    ensures { refused result ≡ put_refusal_of n t points all_blocks.now post message.now }
{
    place_checks(n, t, points, all_blocks, post)?;
    let shape = Shape { n, t, points };
    refusal::size(message, shape.v_len())?;
    refusal::numbers(message)
}

// A present block with a message.
#[tactic(auto, using(crate::proofs::Written::behind_mark, crate::proofs::Written::message_fits, crate::proofs::Written::filled, crate::proofs::Written::filled_same))]
fn fill(block: &mut [u32], message: &[u32])
    requires { length block.old ≡ suc (length message.now) }
    ensures { block.new ≡ block_of message.now }
{
    block[0] = shape::PRESENT;
    lists::copy(message, &mut block[1..]);
}

// A message into the block of a post, for callers that have made the tests.
#[tactic(auto, using(crate::proofs::Written::block_put))]
pub fn put_block(shape: Shape, blocks: &mut [u32], post: usize, message: &[u32])
    requires { Valid shape × PostIn shape post × (length blocks.old ≡ record_length shape) × (length message.now ≡ message_length shape) }
    ensures { blocks.new ≡ with_block shape post (block_of message.now) blocks.old }
{
    let from = blocks::block_at(shape, post);
    let end = from + shape.block_len();
    fill(&mut blocks[from..end], message);
}

#[tactic(auto, using(crate::proofs::Written::block_cleared))]
fn remove_block(shape: Shape, blocks: &mut [u32], post: usize)
    requires { Valid shape × PostIn shape post × (length blocks.old ≡ record_length shape) }
    ensures { blocks.new ≡ with_block shape post (no_block shape) blocks.old }
{
    let from = blocks::block_at(shape, post);
    let end = from + shape.block_len();
    lists::clear(&mut blocks[from..end]);
}

// A post's message, into its block of the record.
#[tactic(auto, using(refusal::proofs::Endings::refused, crate::proofs::Places::put_valid, crate::proofs::Places::put_in, crate::proofs::Places::put_long_is, crate::proofs::Places::message_long, crate::proofs::Places::was_put, refusal::proofs::Checks::not_zero))]
pub fn put(
    n: usize,
    t: usize,
    points: usize,
    blocks: &mut [u32],
    post: usize,
    message: &[u32],
) -> Result<(), Refusal>
    ensures value { refused result ≡ put_refusal_of n t points blocks.old post message.now }
    ensures blocks_after { blocks.new ≡ put_record n t points blocks.old post message.now }
{
    put_checks(n, t, points, blocks, post, message)?;
    put_block(Shape { n, t, points }, blocks, post, message);
    Ok(())
}

// A post's block is absent, with zeros for its coefficients.
#[tactic(auto, using(refusal::proofs::Endings::refused, crate::proofs::Places::place_valid, crate::proofs::Places::place_in, crate::proofs::Places::place_long, crate::proofs::Places::removed, refusal::proofs::Checks::not_zero))]
pub fn remove(
    n: usize,
    t: usize,
    points: usize,
    blocks: &mut [u32],
    post: usize,
) -> Result<(), Refusal>
    ensures value { refused result ≡ place_refusal_of n t points blocks.old post }
    ensures blocks_after { blocks.new ≡ removed_record n t points blocks.old post }
{
    place_checks(n, t, points, blocks, post)?;
    remove_block(Shape { n, t, points }, blocks, post);
    Ok(())
}
