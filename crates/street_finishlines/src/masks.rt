// The call of the line that makes the masks of a product: `X`.
ghost use Rattle.std.specs.Prelude.{◌≡◌, ◌≤◌, length, get_or};
ghost use Rattle.session.specs.Sessions.{shape_of};
ghost use Rattle.street_store.specs.Sizes.{InStreet, store_room, most_masks};
ghost use Rattle.street_finishlines.specs.Between.{Masked};

use session::{Answer, Session};

// The masks of the triple and for the rows that three numbers name, made at the start of a lent list.
pub fn mask(session: Session, store: &[u32], numbers: &[u32], masks: &mut [u32]) -> Answer
    requires { InStreet (shape_of session) × (length store.now ≡ store_room) × (3 ≤ length numbers.now) × (length masks.old ≡ most_masks) }
    ensures { Masked session store.now (get_or numbers.now 0 0) (get_or numbers.now 1 0)
        (get_or numbers.now 2 0) result masks.new }
{
    let shape = session.shape();
    let count = shape.masks_len();
    let end = shape.rows_len();
    let a = street_states::place(numbers[0]);
    let b = street_states::place(numbers[1]);
    let first = street_states::place(numbers[2]);
    product_masks::masks(session, &store[..end], a, b, first, &mut masks[..count])
}
