// What a relation's finish writes: the products of all product terms, then the sum of the terms in its row; and the triples as the pair
// of calls leaves them.
#![tactic(auto)]

ghost use Rattle.std.specs.Prelude.{◌≡◌, ◌≤◌, ◌<◌, length, replicate};
ghost use Rattle.callers.specs.Sets.{sets_length, shared, joining, shared_all};
ghost use Rattle.shape.specs.Bounds.{last_triple};
ghost use Rattle.shape.specs.Lengths.{row_length};
ghost use Rattle.session.specs.Sessions.{shape_of, sharing_all};
ghost use Rattle.session.specs.Rows.{with_row};
ghost use Rattle.session.specs.Between.{Sized, Framed, RowIn};
ghost use Rattle.multiply.specs.Multiply.{with_product};
ghost use Rattle.terms.specs.Listed.{terms_of, factors_of};
ghost use Rattle.relation.specs.Tests.{Few, Every, Placed, Factors};
ghost use Rattle.relation.specs.Finish.{number_row_of, number_rows, plus_term, plus_terms, with_sum, pair_done};
ghost use Rattle.relation_writing.specs.Steps.{products_written, triples_finished};

use session::Session;
use shape::Shape;
use terms::{Term, Terms};

// The two numbers that each product term opens to, y and y', at its place; and the openings' refusal, 0 for none. Not a Result of the two lists: behind a 13 a later
// term is still opened, for its 9 comes before; and the lists would be copied out of it.
#[derive(Clone, Copy)]
pub struct OpenedTerms {
    pub refusal: u8,
    pub y_a: [u32; terms::MOST_TERMS],
    pub y_b: [u32; terms::MOST_TERMS],
}

// One product, from y and y'.
#[tactic(auto, using(session::proofs::Calls::same_sized, crate::proofs::Summing::product_triple, crate::proofs::Summing::product_is))]
fn write_product(session: Session, rows: &mut [u32], term: Term, y_a: u32, y_b: u32)
    requires { Framed session rows.old × Factors (shape_of session) term }
    ensures { rows.new ≡ with_product session y_a y_b term.first rows.old }
{
    multiply::write_product(session.shape(), rows, term.first as usize, y_a, y_b);
}

// The products of all product terms.
fn write_products(session: Session, rows: &mut [u32], all: Terms, opened: OpenedTerms)
    requires { Framed session rows.old × Few all × Every (Factors (shape_of session)) (factors_of all) }
    ensures { rows.new ≡ products_written session opened.y_a opened.y_b 0 (factors_of all) rows.old }
{
    for (k, &term) in all.factors[..all.products].iter().enumerate() {
        write_product(session, rows, term, opened.y_a[k], opened.y_b[k]);
    }
}

// 0 in every place of a row.
#[tactic(auto, using(crate::proofs::Summing::clear_is))]
fn clear_row(shape: Shape, rows: &mut [u32], row: usize)
    requires { Sized shape rows.old × RowIn shape row }
    ensures { rows.new ≡ with_row (row_length shape) row (replicate (row_length shape) 0) rows.old }
{
    let from = session::rows::row_at(shape, row);
    let end = from + shape.row_len();
    lists::clear(&mut rows[from..end]);
}

// The row with a term's number.
#[tactic(auto, using(crate::proofs::Summing::row_plain, crate::proofs::Summing::row_product))]
fn number_row(term: Term) -> usize
    ensures { result ≡ number_row_of term }
{
    if term.plain() {
        return term.row as usize;
    }
    term.first as usize + 2
}

// A row plus a term's coefficient times its row.
#[tactic(auto, using(session::proofs::Calls::same_sized, crate::proofs::Summing::sum_dest, crate::proofs::Summing::sum_row, crate::proofs::Summing::sum_is))]
fn add_term(session: Session, rows: &mut [u32], dest: usize, term: Term)
    requires { Framed session rows.old × RowIn (shape_of session) dest × Placed (shape_of session) term }
    ensures { rows.new ≡ plus_term session dest term rows.old }
{
    let row = number_row(term);
    sums::sum_rows(session.shape(), rows, dest, dest, row, term.coefficient, 0);
}

// A row plus every term's coefficient times its row.
fn add_terms(session: Session, rows: &mut [u32], dest: usize, all: Terms)
    requires { Framed session rows.old × RowIn (shape_of session) dest × Few all × Every (Placed (shape_of session)) (terms_of all) }
    ensures { rows.new ≡ plus_terms session dest (terms_of all) rows.old }
{
    let terms = &all.list[..all.count];
    for &term in terms {
        add_term(session, rows, dest, term);
    }
}

// The products, then the sum in its row.
#[tactic(auto, using(crate::proofs::Summing::framed_kept, crate::proofs::Summing::same_row, crate::proofs::Summing::sized_kept, crate::proofs::Summing::write_is))]
pub fn write(session: Session, rows: &mut [u32], all: Terms, dest: usize, opened: OpenedTerms)
    requires { Framed session rows.old × Few all × Every (Placed (shape_of session)) (terms_of all)
        × Every (Factors (shape_of session)) (factors_of all) × RowIn (shape_of session) dest }
    ensures { rows.new
        ≡ with_sum session dest (terms_of all) (products_written session opened.y_a opened.y_b 0 (factors_of all) rows.old) }
{
    write_products(session, rows, all, opened);
    clear_row(session.shape(), rows, dest);
    add_terms(session, rows, dest, all);
}

// One product term's triple as the pair of calls leaves it: y and y' are remembered, and the marks become 6, 6, 2.
#[tactic(auto, using(session::proofs::Endings::allowed_anyhow))]
fn finish_triple(session: Session, term: Term, y_a: u32, y_b: u32) -> Session
    requires { term.first ≤ last_triple }
    ensures { result ≡ pair_done session term.first y_a y_b }
{
    let first = term.first as usize;
    let collected = session.answer_collecting(Ok(()), first, y_a, y_b);
    let finished = collected.session.answer_multiplying(Ok(()), first);
    finished.session
}

// A row bars whom a term's row bars too.
#[tactic(auto, using(crate::proofs::Summing::share_is))]
fn share_term(sets: &mut [u32], dest: usize, term: Term)
    requires { (length sets.old ≡ sets_length) × (dest < 96) }
    ensures { sets.new ≡ shared 8 sets.old dest dest (number_row_of term) }
{
    let row = number_row(term);
    callers::share(sets, dest, dest, row);
}

// And whom any term's row bars.
fn join_terms(sets: &mut [u32], all: Terms, dest: usize)
    requires { (length sets.old ≡ sets_length) × Few all × (dest < 96) }
    ensures { sets.new ≡ joining dest (number_rows (terms_of all)) sets.old }
{
    for &term in &all.list[..all.count] {
        share_term(sets, dest, term);
    }
}

// The sum's row bars just these.
#[tactic(auto, using(callers::proofs::Shared::length_kept, crate::proofs::Summing::shared_is))]
fn share_terms(sets: &mut [u32], all: Terms, dest: usize)
    requires { (length sets.old ≡ sets_length) × Few all × (dest < 96) }
    ensures { sets.new ≡ shared_all sets.old dest (number_rows (terms_of all)) }
{
    callers::share(sets, dest, shape::ROWS, shape::ROWS);
    join_terms(sets, all, dest);
}

#[tactic(auto, using(crate::proofs::Summing::set_is))]
fn with_set(session: Session, all: Terms, dest: usize) -> Session
    requires { Few all × (dest < 96) }
    ensures { result ≡ sharing_all session dest (number_rows (terms_of all)) }
{
    let mut barred = session.barred;
    share_terms(&mut barred, all, dest);
    Session { barred, ..session }
}

// The same on every product term's triple.
pub fn finish_triples(session: Session, all: Terms, opened: OpenedTerms) -> Session
    requires { Few all × Every (Factors (shape_of session)) (factors_of all) }
    ensures { result ≡ triples_finished opened.y_a opened.y_b 0 (factors_of all) session }
{
    let mut now = session;
    for (k, &term) in all.factors[..all.products].iter().enumerate() {
        now = finish_triple(now, term, opened.y_a[k], opened.y_b[k]);
    }
    now
}

// The triples, and who may call for the sum.
#[tactic(auto, using(crate::proofs::Summing::settled_is))]
pub fn settle(session: Session, all: Terms, dest: usize, opened: OpenedTerms) -> Session
    requires { Few all × Every (Factors (shape_of session)) (factors_of all) × (dest < 96) }
    ensures { result ≡ sharing_all (triples_finished opened.y_a opened.y_b 0 (factors_of all) session) dest (number_rows (terms_of all)) }
{
    let finished = finish_triples(session, all, opened);
    with_set(finished, all, dest)
}
