// The calls on a relation. Its terms come as a lent list of structs, which one function walks; each call hands on by value what that
// function made of the list.
ghost use Rattle.std.specs.Prelude.{◌≡◌};
ghost use Rattle.terms.specs.Listed.{collected};
ghost use Rattle.relation.specs.Masks.{relation_masks_answer, relation_masks_out};
ghost use Rattle.relation.specs.Finish.{relation_finish_answer, relation_finish_rows};

use session::{Answer, Session};
use terms::Term;

#[unsafe(no_mangle)]
pub extern "C" fn gantsorol_relation_masks(
    session: Session,
    rows: &[u32],
    terms: &[Term],
    out: &mut [u32],
) -> Answer
    ensures value { result ≡ relation_masks_answer session rows.now (collected terms.now) out.old }
    ensures out_after { out.new ≡ relation_masks_out session rows.now (collected terms.now) out.old }
{
    relation_masks::masks(session, rows, terms::collect(terms), out)
}

#[unsafe(no_mangle)]
pub extern "C" fn gantsorol_relation_finish(
    session: Session,
    rows: &mut [u32],
    terms: &[Term],
    row: usize,
    records: &[u32],
) -> Answer
    ensures value { result ≡ relation_finish_answer session rows.old (collected terms.now) row records.now }
    ensures rows_after { rows.new ≡ relation_finish_rows session rows.old (collected terms.now) row records.now }
{
    relation_finish::finish(session, rows, terms::collect(terms), row, records)
}
