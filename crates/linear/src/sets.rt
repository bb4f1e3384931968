// Who may call for a sum: row d bars whom row a or row b bars. With `callers::share`, a call of its own, the compiler copies the list of
// all sets once more: these loops are written into the sum.
ghost use Rattle.std.specs.Prelude.{◌≡◌, [], ◌∷◌, ◌≤◌, ◌<◌, length};
ghost use Rattle.shape.specs.Bounds.{last_row_at};
ghost use Rattle.refusal.specs.Refusal.{outcome};
ghost use Rattle.callers.specs.Sets.{sets_length, shared, shared_all, unbarred};
ghost use Rattle.refusal.specs.Numbers.{refused};
ghost use Rattle.session.specs.Between.{Allows};

use refusal::HasNumber;

// Row d bars nobody.
#[tactic(auto, using(callers::proofs::Shared::shared_start, crate::proofs::Sharing::clear_more, callers::proofs::Shared::shared_end))]
fn clear(sets: &mut [u32], d: usize)
    requires { (length sets.old ≡ sets_length) × (d < 96) }
    ensures { sets.new ≡ unbarred sets.old d }
{
    for k in 0..8 {
        sets[8 * d + k] = 0;
    }
}

// Row d bars whom row a bars too.
#[tactic(auto, using(callers::proofs::Shared::shared_start, callers::proofs::Shared::shared_more, callers::proofs::Shared::shared_end))]
fn join(sets: &mut [u32], d: usize, a: usize)
    requires { (length sets.old ≡ sets_length) × (d < 96) × (a < 96) }
    ensures { sets.new ≡ shared 8 sets.old d d a }
{
    for k in 0..8 {
        let own = sets[8 * d + k];
        let other = sets[8 * a + k];
        sets[8 * d + k] = own | other;
    }
}

// Row d bars just whom one of two rows bars.
#[tactic(auto, using(crate::proofs::Sharing::length_cleared, crate::proofs::Sharing::length_joined, crate::proofs::Sharing::all_joined, crate::proofs::Sharing::all_same))]
fn share(sets: &mut [u32], d: usize, a: usize, b: usize)
    requires { (length sets.old ≡ sets_length) × (d < 96) × (a < 96) × (b < 96) }
    ensures { sets.new ≡ shared_all sets.old d (a ∷ b ∷ []) }
{
    clear(sets, d);
    join(sets, d, a);
    join(sets, d, b);
}

// The sets, after a call whose checks found this.
#[tactic(auto, using(crate::proofs::Sharing::row_96, crate::proofs::Sharing::set_refused, crate::proofs::Sharing::set_done, crate::proofs::Sharing::length_shares, refusal::proofs::Checks::ok_zero, refusal::proofs::Checks::err_not_zero))]
pub fn share_unless<R: HasNumber>(checked: R, sets: &mut [u32], d: usize, a: usize, b: usize)
    requires { (length sets.old ≡ sets_length) × Allows (R.numbered checked) (d ≤ last_row_at) × Allows (R.numbered checked) (a ≤ last_row_at)
        × Allows (R.numbered checked) (b ≤ last_row_at) }
    ensures { sets.new ≡ outcome (R.numbered checked) (shared_all sets.old d (a ∷ b ∷ [])) sets.old }
{
    if checked.as_number() == 0 {
        share(sets, d, a, b);
    }
}
