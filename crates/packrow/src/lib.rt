// A post's part of a draw, and the numbers of a row's line.
#![tactic(auto)]

ghost use Rattle.std.specs.Prelude.{◌≡◌, ◌∷◌, ◌++◌};
ghost use Rattle.shape.specs.Lengths.{draw_length};
ghost use Rattle.parts.specs.Draw.{first_draw, second_draw};
ghost use Rattle.packrow.specs.Numbers.{post_part, triple_parts, numbers_of_of};
ghost use Rattle.packrow.specs.Between.{RestRoom, RowRoom, FactorsRoom, TripleRoom, KindRoom, Front};

use kinds::Kind;
use session::Party;

// A draw is its first number and the rest, so that f's constant need not stand in it.
#[tactic(auto, using(crate::proofs::Shares::own_within, crate::proofs::Shares::own_lent, crate::proofs::Shares::posts_room, crate::proofs::Shares::part_written))]
fn write_part(party: Party, constant: u32, rest: &[u32], out: &mut [u32])
    requires { RestRoom party rest.now out.old }
    ensures { out.new ≡ post_part party (constant ∷ rest.now) }
{
    let shape = party.shape;
    let points = shape.points;
    let w = party.points;
    let own = [w.first, w.second];
    packs::write_posts(
        shape,
        party.post - 1,
        1,
        &own[..points],
        constant,
        rest,
        out,
    );
}

// The part of a draw that has all its numbers.
#[tactic(auto, using(crate::proofs::Shares::row_drawn, crate::proofs::Shares::row_rest, crate::proofs::Shares::row_written))]
fn write_row(party: Party, draw: &[u32], out: &mut [u32])
    requires { RowRoom party draw.now out.old }
    ensures { out.new ≡ post_part party draw.now }
{
    write_part(party, draw[0], &draw[1..], out);
}

// The parts of l and of l'.
#[tactic(auto, using(crate::proofs::Shares::two_drawn, crate::proofs::Shares::first_drawn, crate::proofs::Shares::first_lent, crate::proofs::Shares::first_sized, crate::proofs::Shares::second_sized, crate::proofs::Shares::front_sized, crate::proofs::Shares::back_sized, crate::proofs::Shares::factors_written))]
fn write_factors(party: Party, draw: &[u32], out: &mut [u32])
    requires { FactorsRoom party draw.now out.old }
    ensures { out.new
        ≡ post_part party (first_draw (draw_length party.shape) draw.now)
        ++ post_part party (second_draw (draw_length party.shape) draw.now) }
{
    let shape = party.shape;
    let d = shape.draw_len();
    let end = d + d;
    let width = shape.row_len();
    let first = &draw[..d];
    let second = &draw[d..end];
    write_row(party, first, &mut out[..width]);
    write_row(party, second, &mut out[width..]);
}

// The parts of l, l' and l''; f(0) of l'' is the product of those of l and l'.
#[tactic(auto, using(crate::proofs::Shares::factors_lent, crate::proofs::Shares::third_drawn, crate::proofs::Shares::factors_room, crate::proofs::Shares::third_room, crate::proofs::Shares::triple_written_is))]
fn write_triple(party: Party, draw: &[u32], out: &mut [u32])
    requires { TripleRoom party draw.now out.old }
    ensures { out.new ≡ triple_parts party draw.now }
{
    let shape = party.shape;
    let d = shape.draw_len();
    let constant = field::mul(draw[0], draw[d]);
    let third = d + d;
    let at = 2 * shape.row_len();
    write_factors(party, draw, &mut out[..at]);
    write_part(party, constant, &draw[third..], &mut out[at..]);
}

// The numbers of a row's line at the start of the room, and how many: none for an empty row.
#[tactic(auto, using(crate::proofs::Shares::raw_lent, crate::proofs::Shares::triple_room), unfolding(crate::specs::Numbers::numbers_of_of))]
pub fn write_numbers(party: Party, kind: u8, draw: &[u32], room: &mut [u32]) -> usize
    requires { KindRoom party kind draw.now room.old }
    ensures { Front result room.new (numbers_of_of party kind draw.now) }
{
    let shape = party.shape;
    match Kind::try_from(kind) {
        Ok(Kind::Raw) => {
            let width = shape.row_len();
            write_row(party, draw, &mut room[..width]);
            width
        }
        Ok(Kind::Triple) => {
            write_triple(party, draw, room);
            shape.triple_len()
        }
        Ok(Kind::Empty) | Err(_) => 0,
    }
}
