// Its first eight, for very small stations, which would build and clear more than they use.
ghost use Rattle.std.specs.Prelude.{◌≡◌, length};
ghost use Rattle.inverses.specs.InverseTable.{Inverts, very_few_of};

pub const VERY_FEW: usize = 8;

const INVERSES: [u32; VERY_FEW] = [
    1, 1073741824, 1431655765, 536870912, 858993459, 1789569706, 1840700269, 268435456,
];

pub fn to_8() -> [u32; VERY_FEW]
    ensures { (length result ≡ very_few_of) × Inverts result }
{
    INVERSES
}
