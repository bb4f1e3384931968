// The draw behind another secret, for the works' testers.
ghost use Rattle.std.specs.Prelude.{◌≡◌};
ghost use Rattle.otherdraw.specs.Other.{other_refusal_of, other_out};

#[unsafe(no_mangle)]
pub extern "C" fn gantsorol_other_draw(
    n: usize,
    t: usize,
    points: usize,
    ws: &[u32],
    draw: &[u32],
    secret: u32,
    wanted: u32,
    posts: &[u32],
    out: &mut [u32],
) -> u8
    ensures value { result ≡ other_refusal_of n t points ws.now draw.now secret wanted posts.now out.old }
    ensures out_after { out.new
        ≡ other_out n t points ws.now draw.now secret wanted posts.now out.old }
{
    let found = otherdraw::find(n, t, points, ws, draw, secret, wanted, posts, out);
    refusal::number_of(found)
}
