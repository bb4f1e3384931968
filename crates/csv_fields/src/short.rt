// A field that is likely short, as a row or a post is.
ghost use Rattle.std.specs.Prelude.{◌≡◌};
ghost use Rattle.csv_fields.specs.Fields.{fields_at, run_of};

use crate::Run;

// One field: its number, which is told as the largest, and the position behind it.
#[tactic(auto, using(crate::proofs::Single::one_none, crate::proofs::Single::one_number, crate::proofs::Passing::comma_short, crate::proofs::Passing::comma_none))]
pub fn one_field(line: &[u8], at: usize) -> Option<Run>
    ensures { result ≡ run_of (fields_at 1 line.now at) }
{
    if line.len() <= at || line[at] != b',' {
        return None; // no comma
    }
    let field = decimal::short_field_at(line, at + 1)?;
    Some(Run {
        largest: field.value,
        next: field.next,
    })
}
