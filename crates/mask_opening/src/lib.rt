// The two masks of a product, a − l and b − l', opened with their records; and the refusal of two openings. The first call of a finish and a
// relation's finish use both.
#![tactic(auto)]

ghost use Rattle.std.specs.Prelude.{◌≡◌, ◌≤◌, ◌+◌, ◌*◌, cond, ◌||◌, eqb, length};
ghost use Rattle.shape.specs.Bounds.{longest_row};
ghost use Rattle.shape.specs.Lengths.{row_length};
ghost use Rattle.session.specs.Between.{Sized, RowIn};
ghost use Rattle.blocks.specs.Between.{Openable};
ghost use Rattle.walk.specs.Number.{opened_row};
ghost use Rattle.product_masks.specs.Masks.{mask_row};
ghost use Rattle.mask_opening.specs.Either.{either_of};
ghost use Rattle.mask_opening.specs.Pair.{opened_pair};
ghost use Rattle.mask_opening.specs.Between.{Maskable};

use blocks::Opening;
use refusal::{HasNumber, Refusal};
use session::Party;
use shape::Shape;

// What the two masks of a product open to.
#[derive(Clone, Copy)]
pub struct OpenedPair {
    pub a: Result<u32, Refusal>,
    pub b: Result<u32, Refusal>,
}

// What the opening of a product's two masks goes by: who opens, the rows, which of them are the factors and the triple, and the two records.
#[derive(Clone, Copy)]
pub struct Masks<'a> {
    pub party: Party,
    pub rows: &'a [u32],
    pub a: usize,
    pub b: usize,
    pub first: usize,
    pub record_a: &'a [u32],
    pub record_b: &'a [u32],
    pub ghost maskable: { Maskable party rows.now a b first record_a.now record_b.now },
}

// A factor row less a row of the triple, made in the lent room.
#[tactic(auto, using(crate::proofs::Opens::mask_made, crate::proofs::Opens::mask_length))]
fn make_mask(shape: Shape, rows: &[u32], factor: usize, row: usize, room: &mut [u32])
    requires { Sized shape rows.now × RowIn shape factor × RowIn shape row × (length room.old ≡ row_length shape) }
    ensures { (room.new ≡ mask_row shape rows.now factor row) × (length room.new ≡ row_length shape) }
{
    sums::combine(
        field::P - 1,
        session::rows::row(shape, rows, factor),
        session::rows::row(shape, rows, row),
        room,
    );
}

// A mask, opened with its record.
fn open_mask(party: Party, mask: &[u32], blocks: &[u32]) -> Result<u32, Refusal>
    requires { Openable party mask.now blocks.now }
    ensures { result ≡ opened_row party mask.now blocks.now }
{
    rooms::open_row(Opening {
        party,
        row: mask,
        blocks,
    })
}

impl<'a> Masks<'a> {
    // Both masks, made one after the other in one room and opened with their records. Never a part of its callers: there the room of the most posts
    // would stand on a small station's stack too.
    #[inline(never)]
    #[tactic(auto, using(crate::proofs::Opens::room_long, crate::proofs::Opens::room_size, crate::proofs::Opens::first_in, crate::proofs::Opens::second_in, crate::proofs::Opens::mask_openable_a, crate::proofs::Opens::mask_openable_b, crate::proofs::Opens::both_opened))]
    fn open_in<const ROOM: usize>(self) -> OpenedPair
        requires { (5 * self.party.shape.n ≤ ROOM + 1) × (ROOM ≤ longest_row) }
        ensures { result
            ≡ opened_pair self.entry.party self.entry.rows.now self.entry.a self.entry.b self.entry.first
            self.entry.record_a.now self.entry.record_b.now }
    {
        let shape = self.party.shape;
        let width = shape.row_len();
        let mut numbers = [0u32; ROOM];
        let room = &mut numbers[..width];
        make_mask(shape, self.rows, self.a, self.first, room);
        let a = open_mask(self.party, room, self.record_a);
        make_mask(shape, self.rows, self.b, self.first + 1, room);
        let b = open_mask(self.party, room, self.record_b);
        OpenedPair { a, b }
    }

    // In a room that fits the station.
    pub fn open(self) -> OpenedPair
        ensures { result
            ≡ opened_pair self.entry.party self.entry.rows.now self.entry.a self.entry.b self.entry.first
            self.entry.record_a.now self.entry.record_b.now }
    {
        let n = self.party.shape.n;
        if n <= shape::VERY_FEW_POSTS {
            self.open_in::<{ shape::ROW_OF_VERY_FEW }>()
        } else if n <= shape::FEW_POSTS {
            self.open_in::<{ shape::ROW_OF_FEW }>()
        } else {
            self.open_in::<{ shape::LONGEST_ROW }>()
        }
    }
}

// The first refusal of two openings: a 9 of either comes before a 13 of either. Of their numbers alone too; where neither is refused, the second.
#[tactic(auto, using(crate::proofs::Opens::either_second, crate::proofs::Opens::either_first))]
pub fn either<R: HasNumber>(a: R, b: R) -> R
    ensures number { R.numbered result ≡ either_of (R.numbered a) (R.numbered b) }
    ensures which { result ≡ cond (eqb (R.numbered b) 9 || eqb (R.numbered a) 0) b a }
{
    let first = a.as_number();
    let second = b.as_number();
    if second == Refusal::TooFewAccepted as u8 || first == 0 {
        b
    } else {
        a
    }
}
