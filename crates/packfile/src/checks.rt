// The refusals of the call but 12. All of them come before the first write.
ghost use Rattle.std.specs.Prelude.{◌≡◌, [], ◌∷◌, length};
ghost use Rattle.shape.specs.Bounds.{row_count_of};
ghost use Rattle.shape.specs.Lengths.{Valid};
ghost use Rattle.refusal.specs.Numbers.{refused};
ghost use Rattle.refusal.specs.Refusal.{first, ◌when◌};
ghost use Rattle.refusal.specs.Conditions.{wrong_length};
ghost use Rattle.packfile.specs.Writing.{frame_refusal, drawn_refusal, given_refusal};

use refusal::Refusal;
use shape::Shape;

// 5, of the kinds.
fn kinds_size(kinds: &[u8]) -> Result<(), Refusal>
    ensures { refused result ≡ first (5 when wrong_length kinds.now row_count_of ∷ []) }
{
    if kinds.len() != shape::ROWS {
        return Err(Refusal::BadLength);
    }
    Ok(())
}

// 1 to 4, and 5 of the check points and the kinds.
#[tactic(auto, using(refusal::proofs::Ranges::party_passed, crate::proofs::Asking::party_stopped))]
fn frame(
    n: usize,
    t: usize,
    post: usize,
    points: usize,
    ws: &[u32],
    kinds: &[u8],
) -> Result<(), Refusal>
    ensures { refused result ≡ frame_refusal n t post points ws.now kinds.now }
{
    refusal::party(n, t, post, points)?;
    let shape = Shape { n, t, points };
    factory::checks::check_points(ws)
        .and(refusal::size(ws, shape.checks_len()))
        .and(kinds_size(kinds))
}

// 5 of the draws, then 6 to 8.
fn drawn(shape: Shape, kinds: &[u8], draws: &[u32]) -> Result<(), Refusal>
    requires { Valid shape × (length kinds.now ≡ row_count_of) }
    ensures { refused result ≡ drawn_refusal shape kinds.now draws.now }
{
    refusal::size(draws, kinds::draws_len(shape, kinds))
        .and(kinds::late_triples(kinds))
        .and(kinds::crowded_triples(kinds))
        .and(kinds::unknown_kinds(kinds))
        .and(refusal::numbers(draws))
}

// Lengths are computed only where n, t, the number of points and the kinds have passed, so that nothing overflows.
#[tactic(auto, using(crate::proofs::Asking::frame_stopped, crate::proofs::Asking::frame_on, crate::proofs::Asking::frame_valid, crate::proofs::Asking::frame_kinds))]
pub fn refusal(
    n: usize,
    t: usize,
    post: usize,
    points: usize,
    ws: &[u32],
    kinds: &[u8],
    draws: &[u32],
) -> Result<(), Refusal>
    ensures { refused result ≡ given_refusal n t post points ws.now kinds.now draws.now }
{
    frame(n, t, post, points, ws, kinds)?;
    drawn(Shape { n, t, points }, kinds, draws)
}
