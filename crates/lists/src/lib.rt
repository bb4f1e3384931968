// Parts of lent lists.
#![tactic(auto)]

ghost use Rattle.std.specs.Prelude.{◌≡◌, length, replicate};

// What stands in `from`, into `to`. `copy_from_slice` would have the library need `memmove`; it needs `memcpy` and `memset` alone.
#[tactic(auto, using(crate::proofs::Copied::copied_more, crate::proofs::Copied::copied_end))]
pub fn copy<T: Copy>(from: &[T], to: &mut [T])
    requires { length from.now ≡ length to.old }
    ensures { to.new ≡ from.now }
{
    for (i, x) in from.iter().enumerate() {
        to[i] = *x;
    }
}

// 0 in every place.
pub fn clear(list: &mut [u32])
    ensures { list.new ≡ replicate (length list.old) 0 }
{
    list.fill(0);
}
