// The checks that a relation's two calls share. Each loop asks one number's tests of all terms.
ghost use Rattle.std.specs.Prelude.{◌≡◌, [], ◌∷◌, ◌*◌, ◌<◌, ◌≤◌};
ghost use Rattle.refusal.specs.Refusal.{first, ◌when◌};
ghost use Rattle.refusal.specs.Numbers.{refused};
ghost use Rattle.refusal.specs.Conditions.{wrong_length};
ghost use Rattle.shape.specs.Marks.{mark_number};
ghost use Rattle.session.specs.Sessions.{shape_of};
ghost use Rattle.terms.specs.Listed.{terms_of, factors_of};
ghost use Rattle.relation.specs.Tests.{each, bad_count, place_tests, mark_tests, named_in, named_twice_of, Few, Every, Placed};

use refusal::{HasNumber, Refusal};
use session::Session;
use shape::Mark;
use terms::{Term, Terms};

// 5: a list that isn't `count` times `size` numbers long; no count is too large.
#[tactic(auto, using(crate::proofs::Sizes::other_count, crate::proofs::Sizes::parts_fit, crate::proofs::Sizes::same_count))]
pub fn size(list: &[u32], count: usize, size: usize) -> Result<(), Refusal>
    requires { 0 < size }
    ensures { refused result ≡ first (5 when wrong_length list.now (count * size) ∷ []) }
{
    let parts = list.len() / size;
    if parts != count {
        return Err(Refusal::BadLength);
    }
    refusal::size(list, parts * size)
}

// 14: no terms, or too many.
pub fn count(count: usize) -> Result<(), Refusal>
    ensures { refused result ≡ first (14 when bad_count count ∷ []) }
{
    if count < 1 || terms::MOST_TERMS < count {
        return Err(Refusal::BadTermCount);
    }
    Ok(())
}

// 6, of one term.
#[tactic(auto, using(crate::proofs::Sorts::place_stopped, crate::proofs::Sorts::place_plain, crate::proofs::Sorts::place_second, crate::proofs::Sorts::place_product, refusal::proofs::Checks::not_zero))]
fn place(term: Term) -> Result<(), Refusal>
    ensures { refused result ≡ first (place_tests term) }
{
    session::checks::row(term.row as usize)?;
    if term.plain() {
        return Ok(());
    }
    session::checks::row(term.second as usize)?;
    session::checks::triple(term.first as usize)
}

// 6, of every term.
#[tactic(auto, using(crate::proofs::Loops::stops, crate::proofs::Loops::goes_on, crate::proofs::Loops::ends, crate::proofs::Sorts::place_numbered, refusal::proofs::Checks::not_zero))]
pub fn places(all: Terms) -> Result<(), Refusal>
    requires { Few all }
    ensures { refused result ≡ first (each place_tests (terms_of all)) }
{
    for &term in &all.list[..all.count] {
        place(term)?;
    }
    Ok(())
}

// 7, of one term; its triple's first row needs this mark.
#[tactic(auto, using(crate::proofs::Sorts::mark_plain, crate::proofs::Sorts::mark_first, crate::proofs::Sorts::mark_product))]
fn mark<M: HasNumber>(session: Session, term: Term, mark: M) -> Result<(), Refusal>
    requires { Placed (shape_of session) term }
    ensures { refused result ≡ first (mark_tests session (M.numbered mark) term) }
{
    let row = term.row as usize;
    if term.plain() {
        let all_marks = session.marks;
        return session::checks::wrong_mark(&all_marks, row, Mark::Held);
    }
    product_masks::triple_marks(
        session,
        row,
        term.second as usize,
        term.first as usize,
        mark,
    )
}

// 7, of every term.
#[tactic(auto, using(crate::proofs::Loops::stops, crate::proofs::Loops::goes_on, crate::proofs::Loops::ends, crate::proofs::Loops::every_at, crate::proofs::Sorts::mark_numbered, refusal::proofs::Checks::not_zero))]
pub fn marks<M: HasNumber>(session: Session, all: Terms, need: M) -> Result<(), Refusal>
    requires { Few all × Every (Placed (shape_of session)) (terms_of all) }
    ensures { refused result ≡ first (each (mark_tests session (M.numbered need)) (terms_of all)) }
{
    for &term in &all.list[..all.count] {
        mark(session, term, need)?;
    }
    Ok(())
}

// Whether one of these product terms names the triple at `row`.
fn named_in(factors: &[Term], row: u8) -> bool
    ensures { result ≡ named_in row factors.now }
{
    factors.iter().any(|term| term.first == row)
}

// 7: a triple named twice.
#[tactic(auto, using(crate::proofs::Naming::twice_here, crate::proofs::Naming::twice_on, crate::proofs::Naming::twice_out))]
pub fn named_twice(all: Terms) -> Result<(), Refusal>
    requires { Few all }
    ensures { refused result ≡ first (7 when named_twice_of (factors_of all) ∷ []) }
{
    let factors = &all.factors[..all.products];
    for (i, term) in factors.iter().enumerate() {
        if named_in(&factors[i + 1..], term.first) {
            return Err(Refusal::WrongMark);
        }
    }
    Ok(())
}
