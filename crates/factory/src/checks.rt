// The refusals of the factory's calls. All of them come before the first write.
ghost use Rattle.std.specs.Prelude.{◌≡◌, [], ◌∷◌};
ghost use Rattle.refusal.specs.Refusal.{first, ◌when◌};
ghost use Rattle.refusal.specs.Numbers.{refused};
ghost use Rattle.factory.specs.Calls.{any_bad_point, factory_row_refusal, factory_triple_refusal, lists_tests};

use refusal::Refusal;
use shape::Shape;

// 4, of every check point.
#[tactic(auto, using(crate::proofs::Refusals::bad_found, crate::proofs::Refusals::good_passed, crate::proofs::Refusals::points_ended))]
pub fn check_points(ws: &[u32]) -> Result<(), Refusal>
    ensures { refused result ≡ first (4 when any_bad_point ws.now ∷ []) }
{
    for &w in ws {
        refusal::point(w)?;
    }
    Ok(())
}

// 4, 5 and 8, of the three lists.
pub fn lists(
    n: usize,
    ws: &[u32],
    draw: &[u32],
    drawn: usize,
    out: &[u32],
    written: usize,
) -> Result<(), Refusal>
    ensures { refused result ≡ first (lists_tests n ws.now draw.now drawn out.now written) }
{
    check_points(ws)
        .and(refusal::size(ws, n))
        .and(refusal::size(draw, drawn))
        .and(refusal::size(out, written))
        .and(refusal::numbers(draw))
}

// Lengths are computed only where n and t have passed, so that nothing overflows.
#[tactic(auto, using(refusal::proofs::Ranges::station_passed, crate::proofs::Refusals::row_stopped, crate::proofs::Refusals::row_went_on))]
pub fn row_refusal(
    n: usize,
    t: usize,
    points: usize,
    ws: &[u32],
    draw: &[u32],
    out: &[u32],
) -> Result<(), Refusal>
    ensures { refused result ≡ factory_row_refusal n t points ws.now draw.now out.now }
{
    refusal::station(n, t, points)?;
    let shape = Shape { n, t, points };
    lists(
        shape.checks_len(),
        ws,
        draw,
        shape.draw_len(),
        out,
        shape.packs_len(),
    )
}

#[tactic(auto, using(refusal::proofs::Ranges::station_passed, crate::proofs::Refusals::triple_stopped, crate::proofs::Refusals::packs_fit, crate::proofs::Refusals::triple_went_on))]
pub fn triple_refusal(
    n: usize,
    t: usize,
    points: usize,
    ws: &[u32],
    draw: &[u32],
    out: &[u32],
) -> Result<(), Refusal>
    ensures { refused result ≡ factory_triple_refusal n t points ws.now draw.now out.now }
{
    refusal::station(n, t, points)?;
    let shape = Shape { n, t, points };
    lists(
        shape.checks_len(),
        ws,
        draw,
        shape.triple_draw_len(),
        out,
        3 * shape.packs_len(),
    )
}
