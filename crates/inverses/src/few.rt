// The beginning of the table, for small stations: whoever uses a constant builds it anew, and a long one costs them more than the rest of
// an opening.
ghost use Rattle.std.specs.Prelude.{◌≡◌, length};
ghost use Rattle.inverses.specs.InverseTable.{Inverts, few};

pub const FEW: usize = 32;

const INVERSES: [u32; FEW] = [
    1, 1073741824, 1431655765, 536870912, 858993459, 1789569706, 1840700269, 268435456, 1908874353,
    1503238553, 1952257861, 894784853, 1486719448, 1994091958, 286331153, 134217728, 252645135,
    2028179000, 1017229096, 1825361100, 2045222521, 2049870754, 840319688, 1521134250, 1460288880,
    743359724, 636291451, 997045979, 296204641, 1216907400, 2078209981, 67108864,
];

pub fn to_32() -> [u32; FEW]
    ensures { (length result ≡ few) × Inverts result }
{
    INVERSES
}
