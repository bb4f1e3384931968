// The pack file of a post: what a works copies into it, its start line and the lines of its rows.
#![tactic(auto)]

mod checks;

ghost use Rattle.std.specs.Prelude.{◌≡◌, ◌≤◌, ◌*◌, length};
ghost use Rattle.shape.specs.Bounds.{longest_row};
ghost use Rattle.shape.specs.Lengths.{triple_length};
ghost use Rattle.lines.specs.Writing.{written_as, part_as};
ghost use Rattle.packlines.specs.File.{file};
ghost use Rattle.packfile.specs.Writing.{post_at, room_refusal_of, pack_refusal};
ghost use Rattle.packfile.specs.Between.{Given};
ghost use Rattle.packlines.specs.Between.{FileRoom};

use lines::Written;
use refusal::Refusal;
use session::Party;
use shape::Shape;

// 12, or the file at the start of the list; `room` is for the numbers of one line.
#[tactic(auto, using(crate::proofs::Asking::answer_short, crate::proofs::Asking::list_short, crate::proofs::Asking::file_fits, crate::proofs::Asking::answer_whole, crate::proofs::Asking::list_whole, crate::proofs::Rooms::room_again))]
fn write_in(party: Party, kinds: &[u8], draws: &[u32], room: &mut [u32], out: &mut [u8]) -> Written
    requires { FileRoom party kinds.now draws.now room.old }
    ensures value { result ≡ written_as (room_refusal_of party kinds.now draws.now (length out.old))
        (file party kinds.now draws.now) }
    ensures out_after { out.new ≡ part_as (room_refusal_of party kinds.now draws.now (length out.old))
        (file party kinds.now draws.now) out.old }
{
    let len = packlines::file_len(party, kinds, draws, room);
    if out.len() < len {
        return lines::not_written(Refusal::NoRoom as u8);
    }
    packlines::put_file(party, kinds, draws, room, out);
    Written { refusal: 0, len }
}

// The longest line of a few posts with one check point; two have it at fewer posts. No answer depends on it.
const LINE_OF_FEW: usize = 9 * shape::FEW_POSTS;

// And of the most posts.
const LINE_OF_MOST: usize = 3 * shape::LONGEST_ROW;

// The same, in a room for a line of so many numbers, which stands in a frame of its own.
#[tactic(auto, using(crate::proofs::Rooms::lent_length, crate::proofs::Rooms::lent_room))]
#[inline(never)]
fn write_in_room<const N: usize>(
    party: Party,
    kinds: &[u8],
    draws: &[u32],
    out: &mut [u8],
) -> Written
    requires { Given party kinds.now draws.now × (triple_length party.shape ≤ N) × (N ≤ 3 * longest_row) }
    ensures value { result ≡ written_as (room_refusal_of party kinds.now draws.now (length out.old))
        (file party kinds.now draws.now) }
    ensures out_after { out.new ≡ part_as (room_refusal_of party kinds.now draws.now (length out.old))
        (file party kinds.now draws.now) out.old }
{
    let end = party.shape.triple_len();
    let mut room = [0u32; N];
    write_in(party, kinds, draws, &mut room[..end], out)
}

// A room for the most posts is not cleared for a line of few.
#[tactic(auto, using(crate::proofs::Rooms::most_fits))]
fn write_given(party: Party, kinds: &[u8], draws: &[u32], out: &mut [u8]) -> Written
    requires { Given party kinds.now draws.now }
    ensures value { result ≡ written_as (room_refusal_of party kinds.now draws.now (length out.old))
        (file party kinds.now draws.now) }
    ensures out_after { out.new ≡ part_as (room_refusal_of party kinds.now draws.now (length out.old))
        (file party kinds.now draws.now) out.old }
{
    if party.shape.triple_len() <= LINE_OF_FEW {
        write_in_room::<LINE_OF_FEW>(party, kinds, draws, out)
    } else {
        write_in_room::<LINE_OF_MOST>(party, kinds, draws, out)
    }
}

// A post's file: its `S` or `W` line, then `R` and `T` lines by rising row. The value is the file's length.
#[tactic(auto, using(crate::proofs::Asking::given_first, crate::proofs::Asking::given_own, crate::proofs::Asking::given_valid, crate::proofs::Asking::given_points, crate::proofs::Asking::answer_refused, crate::proofs::Asking::list_refused, crate::proofs::Asking::answer_on, crate::proofs::Asking::list_on))]
pub fn write(
    n: usize,
    t: usize,
    post: usize,
    points: usize,
    ws: &[u32],
    kinds: &[u8],
    draws: &[u32],
    out: &mut [u8],
) -> Written
    ensures value { result ≡ written_as
        (pack_refusal n t post points ws.now kinds.now draws.now (length out.old))
        (file (post_at n t post points ws.now) kinds.now draws.now) }
    ensures out_after { out.new ≡ part_as
        (pack_refusal n t post points ws.now kinds.now draws.now (length out.old))
        (file (post_at n t post points ws.now) kinds.now draws.now) out.old }
{
    let checked = checks::refusal(n, t, post, points, ws, kinds, draws);
    match checked {
        Err(_) => lines::not_written(refusal::number_of(checked)),
        Ok(()) => {
            let shape = Shape { n, t, points };
            let w = packs::points_at(shape, ws, post - 1, n);
            let party = Party {
                shape,
                post,
                points: w,
            };
            write_given(party, kinds, draws, out)
        }
    }
}
