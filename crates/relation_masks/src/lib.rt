// A relation's first call, the masks of all product terms: their checks, the masks one term after the other, and the triples that
// remember their terms' rows.
#![tactic(auto)]

ghost use Rattle.std.specs.Prelude.{◌≡◌, ◌+◌, ◌*◌, ◌≤◌, length};
ghost use Rattle.shape.specs.Bounds.{last_row_at, last_triple};
ghost use Rattle.shape.specs.Lengths.{Valid, row_length, masks_length};
ghost use Rattle.refusal.specs.Refusal.{first};
ghost use Rattle.refusal.specs.Numbers.{refused};
ghost use Rattle.session.specs.Sessions.{shape_of, masked_triple};
ghost use Rattle.session.specs.Rows.{with_row};
ghost use Rattle.session.specs.Between.{Sized, Framed};
ghost use Rattle.product_masks.specs.Masks.{both_masks};
ghost use Rattle.terms.specs.Listed.{terms_of, factors_of};
ghost use Rattle.relation.specs.Tests.{each, Counted, Few, Every, Placed, Factors};
ghost use Rattle.relation.specs.Masks.{masks_sizes, mask_number_tests, masks_own, masked_terms, term_masks};
ghost use Rattle.relation.specs.Masks.{relation_masks_refusal, relation_masks_answer, relation_masks_out};

use refusal::Refusal;
use relation::checks;
use session::{Answer, Session};
use shape::{Mark, Shape};
use terms::{Term, Terms};

// 8, of one term.
#[tactic(auto, using(relation::proofs::Sorts::number_stopped, relation::proofs::Sorts::number_plain, relation::proofs::Sorts::number_first, relation::proofs::Sorts::number_product, refusal::proofs::Checks::not_zero))]
fn number(shape: Shape, rows: &[u32], term: Term) -> Result<(), Refusal>
    requires { Sized shape rows.now × Placed shape term }
    ensures { refused result ≡ first (mask_number_tests (row_length shape) rows.now term) }
{
    refusal::number(term.coefficient)?;
    if term.plain() {
        return Ok(());
    }
    let row = term.row as usize;
    product_masks::factor_numbers(shape, rows, row, term.second as usize, term.first as usize)
}

// 8, of every term.
#[tactic(auto, using(relation::proofs::Loops::ends, relation::proofs::Loops::every_at))]
fn numbers(shape: Shape, rows: &[u32], all: Terms) -> Result<(), Refusal>
    requires { Sized shape rows.now × Few all × Every (Placed shape) (terms_of all) }
    ensures { refused result ≡ first (each (mask_number_tests (row_length shape) rows.now) (terms_of all)) }
{
    for &term in &all.list[..all.count] {
        number(shape, rows, term)?;
    }
    Ok(())
}

// 5 of the lent list, and 14.
#[tactic(auto, using(session::proofs::Calls::same_valid, crate::proofs::Masking::masks_some))]
fn sizes(session: Session, all: Terms, out: &[u32]) -> Result<(), Refusal>
    requires { Valid (shape_of session) }
    ensures { refused result ≡ first (masks_sizes session all out.now) }
{
    let shape = session.shape();
    checks::size(out, all.products, shape.masks_len())?;
    checks::count(all.count)
}

// 6 to 8, once 1 to 5 and 14 have passed.
#[tactic(auto, using(session::proofs::Calls::same_sized, crate::proofs::Masking::own_stopped, crate::proofs::Masking::own_placed, crate::proofs::Masking::own_unmarked, crate::proofs::Masking::own_twice, crate::proofs::Masking::own_done, refusal::proofs::Checks::not_zero))]
fn own_checks(session: Session, rows: &[u32], all: Terms) -> Result<(), Refusal>
    requires { Framed session rows.now × Few all }
    ensures { refused result ≡ first (masks_own session rows.now all) }
{
    checks::places(all)?;
    checks::marks(session, all, Mark::Unused)?;
    checks::named_twice(all)?;
    numbers(session.shape(), rows, all)
}

#[tactic(auto, using(crate::proofs::Masking::masks_stopped, crate::proofs::Masking::masks_valid, crate::proofs::Masking::masks_unsized, crate::proofs::Masking::masks_framed, crate::proofs::Masking::masks_checked, refusal::proofs::Checks::not_zero))]
fn masks_checks(session: Session, rows: &[u32], all: Terms, out: &[u32]) -> Result<(), Refusal>
    requires { Counted all }
    ensures { refused result ≡ relation_masks_refusal session rows.now all out.now }
{
    session.frame(rows)?;
    sizes(session, all, out)?;
    own_checks(session, rows, all)
}

// The masks of one product term, at place i of the lent list.
#[tactic(auto, using(relation::proofs::Sizes::from_fits, relation::proofs::Sizes::end_fits, relation::proofs::Sizes::end_in, relation::proofs::Sizes::part_put))]
fn write_mask(shape: Shape, rows: &[u32], term: Term, i: usize, out: &mut [u32])
    requires { Sized shape rows.now × Factors shape term × (i * masks_length shape + masks_length shape ≤ length out.old) }
    ensures { out.new
        ≡ with_row (masks_length shape) i (both_masks shape rows.now term.row term.second term.first) out.old }
{
    let size = shape.masks_len();
    let from = i * size;
    let end = from + size;
    product_masks::masks_accepted(
        shape,
        rows,
        term.row as usize,
        term.second as usize,
        term.first as usize,
        &mut out[from..end],
    );
}

// The masks of the product terms, one term after the other.
fn write_masks(shape: Shape, rows: &[u32], all: Terms, out: &mut [u32])
    requires { Sized shape rows.now × Few all × Every (Factors shape) (factors_of all) × (length out.old ≡ all.products * masks_length shape) }
    ensures { out.new ≡ term_masks shape rows.now (factors_of all) }
{
    for (i, &term) in all.factors[..all.products].iter().enumerate() {
        write_mask(shape, rows, term, i, out);
    }
}

// One triple remembers its term's rows.
#[tactic(auto, using(session::proofs::Endings::allowed_anyhow, session::proofs::Endings::plainly, crate::proofs::Remembering::session_of_lem))]
fn remember(session: Session, term: Term) -> Session
    requires { (term.first ≤ last_triple) × (term.row ≤ last_row_at) × (term.second ≤ last_row_at) }
    ensures { result ≡ masked_triple session term.first term.row term.second }
{
    let first = term.first as usize;
    let answer = session.answer_masking(Ok(()), first, term.row as usize, term.second as usize);
    answer.session
}

// Each triple remembers its term's rows.
fn remember_all(session: Session, all: Terms) -> Session
    requires { Few all × Every (Factors (shape_of session)) (factors_of all) }
    ensures { result ≡ masked_terms session (factors_of all) }
{
    let mut now = session;
    for &term in &all.factors[..all.products] {
        now = remember(now, term);
    }
    now
}

// The call, on terms by value.
#[tactic(auto, using(crate::proofs::Masking::masks_few, crate::proofs::Masking::masks_factors, crate::proofs::Masking::masks_written, session::proofs::Endings::refused_by, session::proofs::Endings::accepted_by, refusal::proofs::Endings::refused, refusal::proofs::Checks::ok_zero, refusal::proofs::Checks::err_not_zero))]
pub fn masks(session: Session, rows: &[u32], all: Terms, out: &mut [u32]) -> Answer
    requires { Counted all }
    ensures value { result ≡ relation_masks_answer session rows.now all out.old }
    ensures out_after { out.new ≡ relation_masks_out session rows.now all out.old }
{
    let checked = masks_checks(session, rows, all, out);
    if checked.is_ok() {
        write_masks(session.shape(), rows, all, out);
        return remember_all(session, all).done(0);
    }
    session.answer(checked)
}
