// The street program's store: one lent list with the rows of its session, and behind them the records of the lines that it keeps.
#![tactic(auto)]

ghost use Rattle.std.specs.Prelude.{◌≡◌, ◌+◌, ◌≤◌, length, replicate};
ghost use Rattle.shape.specs.Lengths.{v_length, record_length};
ghost use Rattle.records.specs.Records.{with_block, block_of};
ghost use Rattle.street_store.specs.Sizes.{InStreet, record_room};
ghost use Rattle.street_store.specs.Records.{record_at, record_if, kept};

use shape::Shape;

// The street program's own bound on n. The sizes below follow from it: those of its largest station, with the largest t and two check points a post.
pub const STREET_POSTS: usize = 32;

// The most coefficients of a v.
pub const LONGEST_V: usize = shape::MOST_POINTS * (STREET_POSTS - 1) + 1;

// The numbers of its longest row.
pub const LONGEST_ROW: usize = LONGEST_V + shape::MOST_POINTS * STREET_POSTS + STREET_POSTS;

// The numbers of a triple with the longest rows.
pub const LONGEST_TRIPLE: usize = 3 * LONGEST_ROW;

// Room for the numbers of a line: a triple's first row, and its pack.
pub const NUMBERS_ROOM: usize = 1 + LONGEST_TRIPLE;

// Its most masks: two messages.
pub const MOST_MASKS: usize = 2 * LONGEST_V;

// Room for what an `X` prints: a letter, row and post, the masks, a line feed.
pub const TOLD_ROOM: usize = 2 + 11 * (2 + MOST_MASKS);

// No line of the program is longer, with its line feed: a `T` of the largest station, with a first row of two digits and numbers of ten.
pub const LONGEST_LINE: usize = 5 + 11 * LONGEST_TRIPLE;

// Room for the rows of the largest session, and for a record.
pub const ROWS_ROOM: usize = shape::ROWS * LONGEST_ROW;

pub const RECORD_ROOM: usize = STREET_POSTS * (LONGEST_V + 1);

// Where the record of the `O` lines stands, behind the rows, and the two records of the `M` lines behind it.
pub const OPENINGS_AT: usize = ROWS_ROOM;

pub const MASKS_A_AT: usize = OPENINGS_AT + RECORD_ROOM;

pub const MASKS_B_AT: usize = MASKS_A_AT + RECORD_ROOM;

pub const STORE_ROOM: usize = MASKS_B_AT + RECORD_ROOM;

// The record is emptied, unless it is kept for what a line names.
#[tactic(auto, using(crate::proofs::Keeping::kept_same, crate::proofs::Keeping::kept_empty))]
fn empty_unless(blocks: &mut [u32], same: bool)
    ensures { blocks.new ≡ record_if same blocks.old }
{
    if !same {
        lists::clear(blocks);
    }
}

// A post's coefficients in the record that stands at a place of the store, which is emptied first unless it is kept for what the line names.
#[tactic(auto, using(crate::proofs::Keeping::street_valid, crate::proofs::Keeping::place_fits, crate::proofs::Keeping::place_within, crate::proofs::Keeping::place_length, crate::proofs::Keeping::place_kept, crate::proofs::Keeping::block_kept, blocks::proofs::Blocks::post_in))]
pub fn keep(
    store: &mut [u32],
    at: usize,
    shape: Shape,
    same: bool,
    post: usize,
    coefficients: &[u32],
)
    requires { InStreet shape × (at + record_room ≤ length store.old) × (1 ≤ post) × (post ≤ shape.n)
        × (length coefficients.now ≡ v_length shape) }
    ensures { store.new ≡ kept at shape same post coefficients.now store.old }
{
    let blocks = &mut store[at..at + shape.record_len()];
    empty_unless(blocks, same);
    records::put_block(shape, blocks, post, coefficients);
}

// The record that stands at a place of the store, uncopied, if it is kept for what a line names; else an empty one.
#[tactic(auto, using(crate::proofs::Keeping::street_valid, crate::proofs::Keeping::place_fits, crate::proofs::Keeping::place_within, crate::proofs::Keeping::record_within, crate::proofs::Keeping::record_stands, crate::proofs::Keeping::record_empty))]
pub fn record<'a>(
    shape: Shape,
    store: &'a [u32],
    empty: &'a [u32],
    at: usize,
    same: bool,
) -> &'a [u32]
    requires { InStreet shape × (at + record_room ≤ length store.now) × (empty.now ≡ replicate record_room 0) }
    ensures { result.now ≡ record_if same (record_at at shape store.now) }
{
    let count = shape.record_len();
    if same {
        &store[at..at + count]
    } else {
        &empty[..count]
    }
}
