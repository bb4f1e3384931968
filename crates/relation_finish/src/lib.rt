// The finish of a relation: all checks, every product term's two openings, then the products, the sum in its row, and the triples as
// the pair of calls leaves them.
#![tactic(auto)]

pub mod openings;

ghost use Rattle.std.specs.Prelude.{◌≡◌};
ghost use Rattle.relation.specs.Tests.{Counted};
ghost use Rattle.relation.specs.Finish.{relation_finish_answer, relation_finish_rows};
ghost use Rattle.relation_finish.specs.Steps.{opened_finish};

use relation_writing::OpenedTerms;
use session::{Answer, Session};
use shape::Mark;
use terms::Terms;

// All checks, and every product term's two numbers.
#[tactic(auto, using(crate::proofs::Opens::terms_opened, refusal::proofs::Checks::ok_zero, refusal::proofs::Checks::err_not_zero))]
fn open(session: Session, rows: &[u32], all: Terms, dest: usize, blocks: &[u32]) -> OpenedTerms
    requires { Counted all }
    ensures { result ≡ opened_finish session rows.now all dest blocks.now }
{
    let checked = relation_checks::finish_checks(session, rows, all, dest, blocks);
    if checked.is_ok() {
        return openings::open_terms(session, rows, all, blocks);
    }
    openings::unopened(checked)
}

// The call, on terms by value.
#[tactic(auto, using(session::proofs::Endings::allowed_anyhow, crate::proofs::Opens::finish_kept, crate::proofs::Opens::finish_framed, crate::proofs::Opens::finish_few, crate::proofs::Opens::finish_placed, crate::proofs::Opens::finish_factors, crate::proofs::Opens::finish_dest, crate::proofs::Opens::finish_96, crate::proofs::Opens::finish_row, refusal::proofs::Checks::ok_zero, refusal::proofs::Checks::err_not_zero))]
pub fn finish(session: Session, rows: &mut [u32], all: Terms, dest: usize, blocks: &[u32]) -> Answer
    requires { Counted all }
    ensures value { result ≡ relation_finish_answer session rows.old all dest blocks.now }
    ensures rows_after { rows.new ≡ relation_finish_rows session rows.old all dest blocks.now }
{
    let opened = open(session, rows, all, dest, blocks);
    if opened.refusal == 0 {
        relation_writing::write(session, rows, all, dest, opened);
        let settled = relation_writing::settle(session, all, dest, opened);
        return settled.answer_marking(Ok(()), dest, Mark::Held);
    }
    session.answer(opened.refusal)
}
