// The factory's calls, the dealer's number, and pack files.
ghost use Rattle.std.specs.Prelude.{◌≡◌, length};
ghost use Rattle.factory.specs.Calls.{factory_row_refusal, factory_row_out, factory_triple_refusal, factory_triple_out, dealer_number_of};
ghost use Rattle.lines.specs.Writing.{written_as, part_as};
ghost use Rattle.packlines.specs.File.{file};
ghost use Rattle.packfile.specs.Writing.{post_at, pack_refusal};

use factory::Number;
use lines::Written;

#[unsafe(no_mangle)]
pub extern "C" fn gantsorol_factory_row(
    n: usize,
    t: usize,
    points: usize,
    ws: &[u32],
    draw: &[u32],
    out: &mut [u32],
) -> u8
    ensures value { result ≡ factory_row_refusal n t points ws.now draw.now out.old }
    ensures out_after { out.new ≡ factory_row_out n t points ws.now draw.now out.old }
{
    refusal::number_of(factory::row(n, t, points, ws, draw, out))
}

#[unsafe(no_mangle)]
pub extern "C" fn gantsorol_factory_triple(
    n: usize,
    t: usize,
    points: usize,
    ws: &[u32],
    draw: &[u32],
    out: &mut [u32],
) -> u8
    ensures value { result ≡ factory_triple_refusal n t points ws.now draw.now out.old }
    ensures out_after { out.new ≡ factory_triple_out n t points ws.now draw.now out.old }
{
    refusal::number_of(factory::triple(n, t, points, ws, draw, out))
}

#[unsafe(no_mangle)]
pub extern "C" fn gantsorol_dealer_number(u: u32, constant: u32) -> Number
    ensures { result ≡ dealer_number_of u constant }
{
    factory::dealer_number(u, constant)
}

#[unsafe(no_mangle)]
pub extern "C" fn gantsorol_write_pack(
    n: usize,
    t: usize,
    post: usize,
    points: usize,
    ws: &[u32],
    kinds: &[u8],
    draws: &[u32],
    out: &mut [u8],
) -> Written
    ensures value { result ≡ written_as
        (pack_refusal n t post points ws.now kinds.now draws.now (length out.old))
        (file (post_at n t post points ws.now) kinds.now draws.now) }
    ensures out_after { out.new ≡ part_as
        (pack_refusal n t post points ws.now kinds.now draws.now (length out.old))
        (file (post_at n t post points ws.now) kinds.now draws.now) out.old }
{
    packfile::write(n, t, post, points, ws, kinds, draws, out)
}
