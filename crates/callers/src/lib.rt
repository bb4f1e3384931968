// The posts that may not call for a row's opening: eight numbers a row, in one list.
#![tactic(auto)]

ghost use Rattle.std.specs.Prelude.{◌≡◌, ◌+◌, ◌*◌, ◌≤◌, ◌<◌, length, get_or};
ghost use Rattle.callers.specs.Sets.{sets_length, bit_at, bars, shared};

fn bit(word: u32, k: u32) -> bool
    requires { k < 32 }
    ensures { result ≡ bit_at word k }
{
    (word >> k) % 2 == 1
}

// Whether a row bars a post.
pub fn bars(sets: &[u32], row: usize, post: usize) -> bool
    requires { (length sets.now ≡ sets_length) × (row < 96) × (1 ≤ post) × (post ≤ 255) }
    ensures { result ≡ bars sets.now row post }
{
    let at = 8 * row + (post - 1) / 32;
    bit(sets[at], ((post - 1) % 32) as u32)
}

// A number of a row's set; 0 for a row that is none, which bars nobody.
fn word(sets: &[u32], row: usize, k: usize) -> u32
    requires { (length sets.now ≡ sets_length) × (k < 8) }
    ensures { result ≡ get_or sets.now (8 * row + k) 0 }
{
    if row < 96 { sets[8 * row + k] } else { 0 }
}

// Row d bars whom row a or row b bars. Rows may be the same, so that all three are places in one list.
#[tactic(auto, using(crate::proofs::Shared::shared_start, crate::proofs::Shared::shared_end))]
pub fn share(sets: &mut [u32], d: usize, a: usize, b: usize)
    requires { (length sets.old ≡ sets_length) × (d < 96) }
    ensures { sets.new ≡ shared 8 sets.old d a b }
{
    for k in 0..8 {
        let one = word(sets, a, k);
        let two = word(sets, b, k);
        sets[8 * d + k] = one | two;
    }
}
