// 1 to 8 of a relation's finish. Each loop asks one number's tests of all terms, or of all product terms.
#![tactic(auto)]

ghost use Rattle.std.specs.Prelude.{◌≡◌, [], ◌∷◌, ◌+◌, ◌*◌, ◌≤◌, length};
ghost use Rattle.shape.specs.Bounds.{last_triple};
ghost use Rattle.shape.specs.Lengths.{Valid, row_length, record_length};
ghost use Rattle.refusal.specs.Refusal.{first, ◌when◌};
ghost use Rattle.refusal.specs.Numbers.{refused};
ghost use Rattle.session.specs.Sessions.{shape_of};
ghost use Rattle.session.specs.Rows.{row_at};
ghost use Rattle.session.specs.Between.{Sized, Framed};
ghost use Rattle.opening.specs.Walking.{bad_record};
ghost use Rattle.terms.specs.Listed.{terms_of, factors_of};
ghost use Rattle.relation.specs.Tests.{each, Counted, Few, Every, Placed, Factors};
ghost use Rattle.relation.specs.Finish.{finish_sizes, remember_tests, term_number_tests, record_tests, record_at, record_pair, finish_places, finish_marks};
ghost use Rattle.relation.specs.Finish.{finish_numbers, finish_own, relation_finish_checks};
ghost use Rattle.relation_checks.specs.Steps.{Pair};

use refusal::Refusal;
use session::Session;
use shape::{Mark, Shape};
use terms::{Term, Terms};

// 7, of one product term: its triple remembers the term's rows in order.
#[tactic(auto, using(crate::proofs::Ends::forgets_a, crate::proofs::Ends::forgets_b, crate::proofs::Ends::remembers_both))]
fn remembers(session: Session, term: Term) -> Result<(), Refusal>
    requires { term.first ≤ last_triple }
    ensures { refused result ≡ first (remember_tests session term) }
{
    let first = term.first as usize;
    // Lists of their own: to look into the session's, the compiler copies all of it.
    let factor_a = session.factor_a;
    let factor_b = session.factor_b;
    if factor_a[first] != term.row {
        return Err(Refusal::WrongMark);
    }
    if factor_b[first] != term.second {
        return Err(Refusal::WrongMark);
    }
    Ok(())
}

// 7, of every product term.
#[tactic(auto, using(relation::proofs::Loops::ends))]
fn all_remember(session: Session, all: Terms) -> Result<(), Refusal>
    requires { Few all × Every (Factors (shape_of session)) (factors_of all) }
    ensures { refused result ≡ first (each (remember_tests session) (factors_of all)) }
{
    for &term in &all.factors[..all.products] {
        remembers(session, term)?;
    }
    Ok(())
}

// 8, of one term's coefficient, row or rows, and triple.
#[tactic(auto, using(crate::proofs::Ends::term_stopped, crate::proofs::Ends::term_plain, crate::proofs::Ends::term_first, crate::proofs::Ends::term_factors, crate::proofs::Ends::term_third, refusal::proofs::Checks::not_zero))]
fn number(shape: Shape, rows: &[u32], term: Term) -> Result<(), Refusal>
    requires { Sized shape rows.now × Placed shape term }
    ensures { refused result ≡ first (term_number_tests (row_length shape) rows.now term) }
{
    refusal::number(term.coefficient)?;
    let row = term.row as usize;
    if term.plain() {
        return session::checks::numbers(shape, rows, row);
    }
    let first = term.first as usize;
    product_masks::factor_numbers(shape, rows, row, term.second as usize, first)?;
    session::checks::numbers(shape, rows, first + 2)
}

// 8, of every term.
#[tactic(auto, using(relation::proofs::Loops::ends, relation::proofs::Loops::every_at))]
fn numbers(shape: Shape, rows: &[u32], all: Terms) -> Result<(), Refusal>
    requires { Sized shape rows.now × Few all × Every (Placed shape) (terms_of all) }
    ensures { refused result ≡ first (each (term_number_tests (row_length shape) rows.now) (terms_of all)) }
{
    for &term in &all.list[..all.count] {
        number(shape, rows, term)?;
    }
    Ok(())
}

// The record at place j of the lent list.
#[tactic(auto, using(relation::proofs::Sizes::from_fits, relation::proofs::Sizes::end_fits, relation::proofs::Sizes::end_in, relation::proofs::Sizes::part_is, relation::proofs::Sizes::part_long))]
pub fn record<'a>(shape: Shape, blocks: &'a [u32], j: usize) -> &'a [u32]
    requires { Valid shape × (j * record_length shape + record_length shape ≤ length blocks.now) }
    ensures result_value { result.now ≡ row_at (record_length shape) blocks.now j }
    ensures result_len { length result.now ≡ record_length shape }
{
    let size = shape.record_len();
    let from = j * size;
    let end = from + size;
    &blocks[from..end]
}

// 8, of the record at place j.
#[tactic(auto, using(session::proofs::Calls::same_valid, crate::proofs::Pairs::same_room, crate::proofs::Pairs::recorded, crate::proofs::Pairs::record_is))]
fn record_number(session: Session, blocks: &[u32], j: usize) -> Result<(), Refusal>
    requires { Valid (shape_of session) × (j * record_length (shape_of session) + record_length (shape_of session) ≤ length blocks.now) }
    ensures { refused result ≡ first (8 when bad_record session (record_at session blocks.now j) ∷ []) }
{
    let blocks = record(session.shape(), blocks, j);
    blocks::refusal(session.party(), blocks)
}

// 8, of the two records of the product term at place k.
fn record_numbers(session: Session, blocks: &[u32], k: usize) -> Result<(), Refusal>
    requires { Pair session blocks.now k }
    ensures { refused result ≡ first (record_pair session blocks.now k) }
{
    let place = 2 * k;
    record_number(session, blocks, place)?;
    record_number(session, blocks, place + 1)
}

// 8, of every product term's records. By their place: no list holds the pairs, each is a part of the lent one.
#[tactic(auto, using(crate::proofs::Pairs::heard_start, crate::proofs::Pairs::heard_more, crate::proofs::Pairs::heard_all, refusal::proofs::Checks::not_zero))]
fn records(session: Session, all: Terms, blocks: &[u32]) -> Result<(), Refusal>
    requires { Valid (shape_of session) × Few all × (length blocks.now ≡ all.products * (2 * record_length (shape_of session))) }
    ensures { refused result ≡ first (record_tests session blocks.now 0 all.products) }
{
    for k in 0..all.products {
        record_numbers(session, blocks, k)?;
    }
    Ok(())
}

// 5 of the lent list of records, and 14.
#[tactic(auto, using(session::proofs::Calls::same_valid, crate::proofs::Finishing::pairs_fit, crate::proofs::Finishing::pairs_some))]
fn sizes(session: Session, all: Terms, blocks: &[u32]) -> Result<(), Refusal>
    requires { Valid (shape_of session) }
    ensures { refused result ≡ first (finish_sizes session all blocks.now) }
{
    let shape = session.shape();
    let pair = 2 * shape.record_len();
    relation::checks::size(blocks, all.products, pair)?;
    relation::checks::count(all.count)
}

// 6, of every term and of the sum's row.
#[tactic(auto, using(crate::proofs::Finishing::places_stopped, crate::proofs::Finishing::places_asked, refusal::proofs::Checks::not_zero))]
fn places(all: Terms, dest: usize) -> Result<(), Refusal>
    requires { Few all }
    ensures { refused result ≡ first (finish_places all dest) }
{
    relation::checks::places(all)?;
    session::checks::row(dest)
}

// 7, of every term and of the sum's row.
#[tactic(auto, using(crate::proofs::Finishing::marks_stopped, crate::proofs::Finishing::marks_twice, crate::proofs::Finishing::marks_forgot, crate::proofs::Finishing::marks_asked, refusal::proofs::Checks::not_zero))]
fn marks(session: Session, all: Terms, dest: usize) -> Result<(), Refusal>
    requires { Few all × Every (Placed (shape_of session)) (terms_of all) × Every (Factors (shape_of session)) (factors_of all) }
    ensures { refused result ≡ first (finish_marks session all dest) }
{
    let all_marks = session.marks;
    relation::checks::marks(session, all, Mark::Masked)?;
    relation::checks::named_twice(all)?;
    all_remember(session, all)?;
    session::checks::wrong_mark(&all_marks, dest, Mark::Empty)
}

// 8, of every term and of every record.
#[tactic(auto, using(session::proofs::Calls::same_sized, relation::proofs::Passing::same_placed, crate::proofs::Finishing::numbers_stopped, crate::proofs::Finishing::numbers_asked, refusal::proofs::Checks::not_zero))]
fn all_numbers(session: Session, rows: &[u32], all: Terms, blocks: &[u32]) -> Result<(), Refusal>
    requires { Framed session rows.now × Few all × Every (Placed (shape_of session)) (terms_of all)
        × (length blocks.now ≡ all.products * (2 * record_length (shape_of session))) }
    ensures { refused result ≡ first (finish_numbers session rows.now all blocks.now) }
{
    numbers(session.shape(), rows, all)?;
    records(session, all, blocks)
}

// 6 to 8, once 1 to 5 and 14 have passed.
#[tactic(auto, using(crate::proofs::Finishing::own_stopped, crate::proofs::Finishing::own_placed, crate::proofs::Finishing::own_factors, crate::proofs::Finishing::own_unmarked, crate::proofs::Finishing::own_done, refusal::proofs::Checks::not_zero))]
fn own_checks(
    session: Session,
    rows: &[u32],
    all: Terms,
    dest: usize,
    blocks: &[u32],
) -> Result<(), Refusal>
    requires { Framed session rows.now × Counted all × Few all × (length blocks.now ≡ all.products * (2 * record_length (shape_of session))) }
    ensures { refused result ≡ first (finish_own session rows.now all dest blocks.now) }
{
    places(all, dest)?;
    marks(session, all, dest)?;
    all_numbers(session, rows, all, blocks)
}

// 1 to 8; 9 and 13 are the openings'.
#[tactic(auto, using(crate::proofs::Finishing::checks_valid, crate::proofs::Finishing::checks_framed))]
pub fn finish_checks(
    session: Session,
    rows: &[u32],
    all: Terms,
    dest: usize,
    blocks: &[u32],
) -> Result<(), Refusal>
    requires { Counted all }
    ensures { refused result ≡ first (relation_finish_checks session rows.now all dest blocks.now) }
{
    session.frame(rows)?;
    sizes(session, all, blocks)?;
    own_checks(session, rows, all, dest, blocks)
}
