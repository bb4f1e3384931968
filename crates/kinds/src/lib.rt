// The kinds of rows: what is drawn for them, and refusals 6, 7 and 8 of them.
#![tactic(auto)]

ghost use Rattle.std.specs.Prelude.{◌≡◌, ◌==◌, ℕ, Bool, not, List, [], ◌∷◌, length, take};
ghost use Rattle.shape.specs.Bounds.{row_count_of};
ghost use Rattle.shape.specs.Lengths.{Valid};
ghost use Rattle.std.specs.List.{list_any};
ghost use Rattle.shape.specs.Marks.{empty};
ghost use Rattle.refusal.specs.Numbers.{refused, number};
ghost use Rattle.refusal.specs.Refusal.{first, ◌when◌};
ghost use Rattle.kinds.specs.Kinds.{kind_of, drawn_for_of, draws_length, Tells, any_row, late, crowded, unknown};

use refusal::Refusal;
use shape::Shape;

// What a row is to be when it is loaded.
#[derive(Clone, Copy, PartialEq, Eq)]
pub enum Kind {
    Empty = 0,
    Raw = 1,
    // of a triple's first row, which then covers the next two
    Triple = 3,
}

impl TryFrom<u8> for Kind {
    type Error = Refusal;

    ghost try_from_gives = { λ byte outcome. outcome ≡ kind_of byte };

    fn try_from(byte: u8) -> Result<Kind, Refusal> {
        match byte {
            0 => Ok(Kind::Empty),
            1 => Ok(Kind::Raw),
            3 => Ok(Kind::Triple),
            _ => Err(Refusal::NotAnElement),
        }
    }
}

// How many numbers are drawn for a row of this kind.
#[tactic(auto, using(crate::proofs::Kinded::drawn_raw_is, crate::proofs::Kinded::drawn_triple_is, crate::proofs::Kinded::drawn_empty, crate::proofs::Kinded::drawn_none))]
pub fn drawn_for(shape: Shape, kind: u8) -> usize
    requires { Valid shape }
    ensures { result ≡ drawn_for_of shape kind }
{
    match Kind::try_from(kind) {
        Ok(Kind::Raw) => shape.draw_len(),
        Ok(Kind::Triple) => shape.triple_draw_len(),
        Ok(Kind::Empty) | Err(_) => 0,
    }
}

// How many for all rows: each 1 and each 3 counts, wherever it stands.
#[tactic(auto, using(crate::proofs::Kinded::tallied_start))]
pub fn draws_len(shape: Shape, kinds: &[u8]) -> usize
    requires { Valid shape × (length kinds.now ≡ row_count_of) }
    ensures { result ≡ draws_length shape kinds.now }
{
    let mut sum = 0;
    for &kind in kinds {
        sum += drawn_for(shape, kind);
    }
    sum
}

// Refused where a row passes the test, which is told its number, its kind and the kinds behind it.
#[tactic(auto, using(crate::proofs::Kinded::rows_ended))]
fn refuse_any<F: Fn(usize, u8, &[u8]) -> bool>(
    kinds: &[u8],
    reason: Refusal,
    test: F,
) -> Result<(), Refusal>
    requires { F.IsAlwaysCallable test }
    ensures { (spec : ℕ → ℕ → List ℕ → Bool) → Tells (F.post test) spec
        → refused result ≡ first (number reason when any_row spec 0 kinds.now ∷ []) }
{
    for (row, &kind) in kinds.iter().enumerate() {
        if test(row, kind, &kinds[row + 1..]) {
            return Err(reason);
        }
    }
    Ok(())
}

// 6: a 3 above row 93.
pub fn late_triples(kinds: &[u8]) -> Result<(), Refusal>
    ensures { refused result ≡ first (6 when any_row late 0 kinds.now ∷ []) }
{
    refuse_any(kinds, Refusal::NoSuchRow, |row, kind, _| {
        kind == Kind::Triple as u8 && shape::LAST_TRIPLE < row
    })
}

// Whether a row that a triple covers has a kind of its own.
fn is_covered(behind: &[u8]) -> bool
    ensures { result ≡ list_any (λ kind. not (kind == empty)) (take 2 behind.now) }
{
    behind.iter().take(2).any(|&kind| kind != Kind::Empty as u8)
}

// 7: a kind other than 0 inside a triple.
pub fn crowded_triples(kinds: &[u8]) -> Result<(), Refusal>
    ensures { refused result ≡ first (7 when any_row crowded 0 kinds.now ∷ []) }
{
    refuse_any(kinds, Refusal::WrongMark, |_, kind, behind| {
        kind == Kind::Triple as u8 && is_covered(behind)
    })
}

// 8: an unknown kind.
#[tactic(auto, using(crate::proofs::Kinded::kind_unknown, crate::proofs::Kinded::kind_known, crate::proofs::Kinded::rows_ended))]
pub fn unknown_kinds(kinds: &[u8]) -> Result<(), Refusal>
    ensures { refused result ≡ first (8 when any_row unknown 0 kinds.now ∷ []) }
{
    for &kind in kinds {
        Kind::try_from(kind)?;
    }
    Ok(())
}
