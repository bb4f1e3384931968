// The factory: the posts' parts of a drawn row, and of a drawn triple.
#![tactic(auto)]

ghost use Rattle.std.specs.Prelude.{◌≡◌};
ghost use Rattle.refusal.specs.Numbers.{refused};
ghost use Rattle.factory.specs.Calls.{factory_row_refusal, factory_row_out, factory_triple_refusal, factory_triple_out, dealer_number_of};

pub mod checks;

use refusal::Refusal;
use shape::Shape;

// C gets this struct, and so the refusal's number.
#[repr(C)]
#[derive(Clone, Copy)]
pub struct Number {
    pub refusal: u8,
    pub value: u32,
}

// All posts' parts of one drawn row.
#[tactic(auto, using(refusal::proofs::Endings::refused, refusal::proofs::Endings::accepted, crate::proofs::Refusals::row_fine))]
pub fn row(
    n: usize,
    t: usize,
    points: usize,
    ws: &[u32],
    draw: &[u32],
    out: &mut [u32],
) -> Result<(), Refusal>
    ensures value { refused result ≡ factory_row_refusal n t points ws.now draw.now out.old }
    ensures out_after { out.new ≡ factory_row_out n t points ws.now draw.now out.old }
{
    checks::row_refusal(n, t, points, ws, draw, out)?;
    packs::write_row(Shape { n, t, points }, ws, draw, out);
    Ok(())
}

// All posts' parts of a drawn triple: of l, then of l', then of l''.
#[tactic(auto, using(refusal::proofs::Endings::refused, refusal::proofs::Endings::accepted, crate::proofs::Refusals::triple_fine))]
pub fn triple(
    n: usize,
    t: usize,
    points: usize,
    ws: &[u32],
    draw: &[u32],
    out: &mut [u32],
) -> Result<(), Refusal>
    ensures value { refused result ≡ factory_triple_refusal n t points ws.now draw.now out.old }
    ensures out_after { out.new ≡ factory_triple_out n t points ws.now draw.now out.old }
{
    checks::triple_refusal(n, t, points, ws, draw, out)?;
    packs::write_triple(Shape { n, t, points }, ws, draw, out);
    Ok(())
}

// The number c that the dealer of u broadcasts, where `constant` is f(0).
#[tactic(auto, using(crate::proofs::Dealer::number_given, crate::proofs::Dealer::constant_most))]
pub fn dealer_number(u: u32, constant: u32) -> Number
    ensures { result ≡ dealer_number_of u constant }
{
    let checked = refusal::number(u).and(refusal::number(constant));
    match checked {
        Ok(()) => Number {
            refusal: 0,
            value: field::add(u, field::P - constant),
        },
        Err(_) => Number {
            refusal: refusal::number_of(checked),
            value: 0,
        },
    }
}
