// The openings of a relation's finish: y and y' of every product term, with the first refusal among them.
ghost use Rattle.std.specs.Prelude.{◌≡◌, ◌*◌, ◌<◌, length};
ghost use Rattle.shape.specs.Lengths.{record_length};
ghost use Rattle.session.specs.Sessions.{shape_of};
ghost use Rattle.session.specs.Between.{Framed};
ghost use Rattle.terms.specs.Listed.{most_terms, factors_of};
ghost use Rattle.relation.specs.Tests.{Few, Every, Factors};
ghost use Rattle.relation_checks.specs.Steps.{Pair};
ghost use Rattle.relation_finish.specs.Steps.{kept_at, with_opened, opened_all, unopened_by};

use mask_opening::Masks;
use refusal::{HasNumber, Refusal};
use relation_writing::OpenedTerms;
use session::Session;
use terms::{Term, Terms};

// 9, or else 13, of the product term at place k behind those before it, and its two numbers.
#[tactic(auto, using(crate::proofs::Kept::kept))]
fn keep(
    k: usize,
    a: Result<u32, Refusal>,
    b: Result<u32, Refusal>,
    before: OpenedTerms,
) -> OpenedTerms
    requires { k < most_terms }
    ensures { result ≡ kept_at k a b before }
{
    let own = refusal::number_of(mask_opening::either(a, b));
    let mut opened = before;
    opened.refusal = mask_opening::either(before.refusal, own);
    opened.y_a[k] = a.unwrap_or(0);
    opened.y_b[k] = b.unwrap_or(0);
    opened
}

// The product term at place k: its two openings, behind those before it.
#[tactic(auto, using(session::proofs::Calls::same_valid, relation_checks::proofs::Pairs::same_room, crate::proofs::Kept::term_maskable, crate::proofs::Kept::both_kept))]
fn open_term(
    session: Session,
    rows: &[u32],
    blocks: &[u32],
    k: usize,
    term: Term,
    before: OpenedTerms,
) -> OpenedTerms
    requires { Framed session rows.now × Pair session blocks.now k × Factors (shape_of session) term }
    ensures { result ≡ with_opened session rows.now blocks.now k term before }
{
    let shape = session.shape();
    let place = 2 * k;
    let record_a = relation_checks::record(shape, blocks, place);
    let record_b = relation_checks::record(shape, blocks, place + 1);
    let masks = Masks {
        party: session.party(),
        rows,
        a: term.row as usize,
        b: term.second as usize,
        first: term.first as usize,
        record_a,
        record_b,
    };
    let pair = masks.open();
    keep(k, pair.a, pair.b, before)
}

// No numbers yet, and what the checks found.
pub fn unopened<R: HasNumber>(checked: R) -> OpenedTerms
    ensures { result ≡ unopened_by (R.numbered checked) }
{
    OpenedTerms {
        refusal: checked.as_number(),
        y_a: [0; terms::MOST_TERMS],
        y_b: [0; terms::MOST_TERMS],
    }
}

// Every product term's two numbers, or 9, or 13.
pub fn open_terms(session: Session, rows: &[u32], all: Terms, blocks: &[u32]) -> OpenedTerms
    requires { Framed session rows.now × Few all × Every (Factors (shape_of session)) (factors_of all)
        × (length blocks.now ≡ all.products * (2 * record_length (shape_of session))) }
    ensures { result ≡ opened_all session rows.now all blocks.now }
{
    let mut opened = unopened(0);
    for (k, &term) in all.factors[..all.products].iter().enumerate() {
        opened = open_term(session, rows, blocks, k, term, opened);
    }
    opened
}
