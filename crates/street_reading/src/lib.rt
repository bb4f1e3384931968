// What a line of the street program says: the numbers behind its letter.
#![tactic(auto)]

pub mod start;

ghost use Rattle.std.specs.Prelude.{◌≡◌, [], ◌∷◌, ◌≤◌, length};
ghost use Rattle.refusal.specs.Refusal.{first, ◌when◌};
ghost use Rattle.refusal.specs.Numbers.{refused};
ghost use Rattle.csv_fields.specs.Fields.{fields_at, ended, run_of};
ghost use Rattle.csv_fields.specs.Walk.{Roomed};
ghost use Rattle.street_reading.specs.Numbers.{elements_refusal, rows_beyond, read_refusal};
ghost use Rattle.street_reading.specs.Between.{Taken};

use csv_fields::Run;
use refusal::Refusal;

// The settings of a session, as a start line says them.
#[derive(Clone, Copy)]
pub struct Settings {
    pub n: u64,
    pub t: u64,
    pub post: u64,
    // how many check points; where it is one, the second is 0
    pub points: usize,
    pub first: u64,
    pub second: u64,
}

// The fields behind the letter, as many as the list has places, to the line's end: what they are like, and their numbers. Each is read
// once, so that a list for a line that is refused has the numbers read before its fault.
fn last_fields(line: &[u8], out: &mut [u32]) -> Option<Run>
    ensures { (result ≡ run_of (ended line.now (fields_at (length out.old) line.now 1)))
        × Roomed (fields_at (length out.old) line.now 1) out.new }
{
    let run = csv_fields::read_part(line, 1, 0, out)?;
    csv_fields::line_end(line, run.next, run.largest)
}

// 10, and 11 of a number that is no element; else the numbers, as many as the list has places.
fn elements(line: &[u8], out: &mut [u32]) -> Result<(), Refusal>
    ensures { (refused result ≡ elements_refusal (length out.old) line.now)
        × Taken (refused result) (length out.old) line.now out.new }
{
    match last_fields(line, out) {
        Some(run) => {
            if u64::from(field::P) <= run.largest {
                return Err(Refusal::LineOutOfRange);
            }
            Ok(())
        }
        None => Err(Refusal::MalformedLine),
    }
}

// 11 of the rows that a line names, which are its first numbers: each has a largest.
fn bounds(lasts: &[u32], rows: &[u32]) -> Result<(), Refusal>
    requires { length lasts.now ≤ length rows.now }
    ensures { refused result ≡ first (11 when rows_beyond lasts.now rows.now ∷ []) }
{
    for (i, last) in lasts.iter().enumerate() {
        if *last < rows[i] {
            return Err(Refusal::LineOutOfRange);
        }
    }
    Ok(())
}

// The numbers of a line, of which the first are rows: 10 and 11, or all of them.
pub fn read(line: &[u8], lasts: &[u32], out: &mut [u32]) -> Result<(), Refusal>
    requires { length lasts.now ≤ length out.old }
    ensures { (refused result ≡ read_refusal lasts.now (length out.old) line.now)
        × Taken (refused result) (length out.old) line.now out.new }
{
    elements(line, out)?;
    bounds(lasts, out)
}
