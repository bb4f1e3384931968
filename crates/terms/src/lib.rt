// The terms of a relation, which come as a lent slice of structs. One thin function walks it and hands the terms on by value;
// everything above it goes by these.
#![tactic(auto)]

ghost use Rattle.std.specs.Prelude.{◌≡◌, ◌+◌, ◌<◌, ◌^◌};
ghost use Rattle.terms.specs.Listed.{plain, collected, none_of_of, listed_in, counted_in, placed};

// How many terms a relation may have.
pub const MOST_TERMS: usize = 32;

// In place of a second row: none.
pub const NO_ROW: u8 = 255;

#[repr(C)]
#[derive(Clone, Copy)]
pub struct Term {
    pub coefficient: u32,
    pub row: u8,
    pub second: u8,
    // the first row of a triple; not looked at where there is no second row
    pub first: u8,
}

// How many terms a list has, how many of them are products, and the first ones of either.
#[derive(Clone, Copy)]
pub struct Terms {
    pub count: usize,
    pub products: usize,
    pub list: [Term; MOST_TERMS],
    pub factors: [Term; MOST_TERMS],
}

impl Term {
    // No product: there is no second row.
    pub fn plain(self) -> bool
        ensures { result ≡ plain self }
    {
        self.second == NO_ROW
    }
}

// No terms yet, of a list of `count`.
fn none_of(count: usize) -> Terms
    ensures { result ≡ none_of_of count }
{
    let blank = Term {
        coefficient: 0,
        row: 0,
        second: 0,
        first: 0,
    };
    Terms {
        count,
        products: 0,
        list: [blank; MOST_TERMS],
        factors: [blank; MOST_TERMS],
    }
}

// A term at its place; past the last place it is dropped.
fn list_in(mut terms: Terms, at: usize, term: Term) -> Terms
    ensures { result ≡ listed_in terms at term }
{
    if at < MOST_TERMS {
        terms.list[at] = term;
    }
    terms
}

// A product term behind those before it; past the last place it is counted alone.
fn count_in(mut terms: Terms, term: Term) -> Terms
    requires { terms.products + 1 < 2 ^ 64 }
    ensures { result ≡ counted_in terms term }
{
    let place = terms.products;
    terms.products = place + 1;
    if place < MOST_TERMS {
        terms.factors[place] = term;
    }
    terms
}

// One term of the list.
fn put(terms: Terms, at: usize, term: Term) -> Terms
    requires { terms.products + 1 < 2 ^ 64 }
    ensures { result ≡ placed terms at term }
{
    let listed = list_in(terms, at, term);
    if term.plain() {
        return listed;
    }
    count_in(listed, term)
}

// The walk: every term of the lent list, by value.
pub fn collect(terms: &[Term]) -> Terms
    ensures { result ≡ collected terms.now }
{
    let mut all = none_of(terms.len());
    let mut i = 0;
    while i < terms.len() {
        all = put(all, i, terms[i]);
        i += 1;
    }
    all
}
