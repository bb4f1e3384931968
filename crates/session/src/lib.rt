// A session: what a post remembers beside its rows, and the checks that every call on it makes.
//
// A session goes in by value and comes back by value; its rows stand in one list that the caller lends.
#![tactic(auto)]

pub mod checks;
pub mod rows;

ghost use Rattle.std.specs.Prelude.{◌≡◌, ◌≤◌, ◌<◌};
ghost use Rattle.shape.specs.Bounds.{last_row_at, last_triple};
ghost use Rattle.refusal.specs.Refusal.{outcome};
ghost use Rattle.refusal.specs.Numbers.{refused};
ghost use Rattle.session.specs.Sessions.{as_many_of, points_of, shape_of, party_of, marked, marked_triple, masked_triple, collected_triple, session_of, holding, answer, created, finished_triple};
ghost use Rattle.session.specs.Between.{Allows};

use refusal::{HasNumber, Refusal};
use shape::{Mark, Points, Shape};

// Who opens a number: the station's shape, the post's own number and its check points.
#[derive(Clone, Copy)]
pub struct Party {
    pub shape: Shape,
    pub post: usize,
    pub points: Points,
}

pub const BARRED: usize = 768;

#[repr(C)]
#[derive(Clone, Copy)]
pub struct Session {
    pub n: usize,
    pub t: usize,
    // the post's own number
    pub post: usize,
    // how many check points it has; where it is one, the second is 0
    pub points: usize,
    pub first: u32,
    pub second: u32,
    pub marks: [u8; shape::ROWS],
    // the factor rows that the masks of a triple remember, at its first row
    pub factor_a: [u8; shape::ROWS],
    pub factor_b: [u8; shape::ROWS],
    // the numbers that the masks of a triple were opened to, at its first row
    pub y_a: [u32; shape::ROWS],
    pub y_b: [u32; shape::ROWS],
    // the posts that may not call for a row's opening, 32 to a number: eight numbers a row
    pub barred: [u32; BARRED],
}

// What a call hands back.
#[repr(C)]
#[derive(Clone, Copy)]
pub struct Answer {
    pub refusal: u8,
    pub value: u32,
    pub session: Session,
}

// The check points of a post that has so many: where it is one, the second is 0.
pub fn as_many(points: usize, w: Points) -> Points
    ensures { result ≡ as_many_of points w }
{
    if points == shape::MOST_POINTS {
        return w;
    }
    Points {
        first: w.first,
        second: 0,
    }
}

// A part of a new session: nothing where the call is refused.
#[tactic(auto, using(refusal::proofs::Checks::kept_ok, refusal::proofs::Checks::kept_err))]
fn unless<T: Copy>(checked: Result<(), Refusal>, part: T, none: T) -> T
    ensures { result ≡ outcome (refused checked) part none }
{
    match checked {
        Ok(()) => part,
        Err(_) => none,
    }
}

impl Session {
    // All rows are empty, and no factor rows and no numbers are remembered.
    fn empty(n: usize, t: usize, post: usize, points: usize, w: Points) -> Session
        ensures { result ≡ session_of n t post points w }
    {
        Session {
            n,
            t,
            post,
            points,
            first: w.first,
            second: w.second,
            marks: [Mark::Empty as u8; shape::ROWS],
            factor_a: [0; shape::ROWS],
            factor_b: [0; shape::ROWS],
            y_a: [0; shape::ROWS],
            y_b: [0; shape::ROWS],
            barred: [0; BARRED],
        }
    }

    // A new session; a refused one has 0 in every field.
    pub fn new(n: usize, t: usize, post: usize, points: usize, w: Points) -> Answer
        ensures { result ≡ created n t post points w }
    {
        let checked = checks::settings(n, t, post, points, w);
        let none = Points {
            first: 0,
            second: 0,
        };
        // One end, refused or not, so that the session is made in its place.
        Session::empty(
            unless(checked, n, 0),
            unless(checked, t, 0),
            unless(checked, post, 0),
            unless(checked, points, 0),
            unless(checked, as_many(points, w), none),
        )
        .answer(checked)
    }

    pub fn shape(self) -> Shape
        ensures { result ≡ shape_of self }
    {
        Shape {
            n: self.n,
            t: self.t,
            points: self.points,
        }
    }

    pub fn check_points(self) -> Points
        ensures { result ≡ points_of self }
    {
        Points {
            first: self.first,
            second: self.second,
        }
    }

    pub fn party(self) -> Party
        ensures { result ≡ party_of self }
    {
        Party {
            shape: self.shape(),
            post: self.post,
            points: self.check_points(),
        }
    }

    // How a call ends that changes nothing of the session: refused or not, it goes back as it came.
    pub fn answer<R: HasNumber>(self, checked: R) -> Answer
        ensures { result ≡ holding (R.numbered checked) 0 self }
    {
        Answer {
            refusal: checked.as_number(),
            value: 0,
            session: self,
        }
    }

    // How an accepted call ends: the session is handed over once, and comes back in the answer.
    pub fn done(self, value: u32) -> Answer
        ensures { result ≡ holding 0 value self }
    {
        Answer {
            refusal: 0,
            value,
            session: self,
        }
    }

    // How a call ends that marks a row: refused, the session as it came; else with the mark. One method for both, called once. The list
    // that changes is copied, to be changed; the rest is copied once, straight into the answer. With `mut self` the whole session would
    // be copied twice: to be changed, and into the answer.
    pub fn answer_marking<R: HasNumber, M: HasNumber>(
        self,
        checked: R,
        row: usize,
        mark: M,
    ) -> Answer
        requires { Allows (R.numbered checked) (row ≤ last_row_at) }
        ensures { result ≡ answer (R.numbered checked) 0 (marked self row (M.numbered mark)) self }
    {
        let refusal = checked.as_number();
        let mut marks = self.marks;
        if refusal == 0 {
            marks[row] = mark.as_number();
        }
        Answer {
            refusal,
            value: 0,
            session: Session { marks, ..self },
        }
    }

    // The same, with other marks on a triple's three rows.
    pub fn answer_marking_triple<R: HasNumber, A: HasNumber, B: HasNumber, C: HasNumber>(
        self,
        checked: R,
        first: usize,
        one: A,
        two: B,
        three: C,
    ) -> Answer
        requires { Allows (R.numbered checked) (first ≤ last_triple) }
        ensures { result ≡ answer (R.numbered checked) 0 (marked_triple self first (A.numbered one) (B.numbered two) (C.numbered three)) self }
    {
        let refusal = checked.as_number();
        let mut marks = self.marks;
        if refusal == 0 {
            marks[first] = one.as_number();
            marks[first + 1] = two.as_number();
            marks[first + 2] = three.as_number();
        }
        Answer {
            refusal,
            value: 0,
            session: Session { marks, ..self },
        }
    }

    // The same, of masks: the triple at `first` remembers the factor rows a and b. Part of its callers: else a session is copied there twice.
    #[inline(always)]
    pub fn answer_masking<R: HasNumber>(
        self,
        checked: R,
        first: usize,
        a: usize,
        b: usize,
    ) -> Answer
        requires { Allows (R.numbered checked) (first ≤ last_triple) × Allows (R.numbered checked) (a ≤ last_row_at) × Allows (R.numbered checked) (b ≤ last_row_at) }
        ensures { result ≡ answer (R.numbered checked) 0 (masked_triple self first a b) self }
    {
        let refusal = checked.as_number();
        let mut marks = self.marks;
        let mut factor_a = self.factor_a;
        let mut factor_b = self.factor_b;
        if refusal == 0 {
            marks[first] = Mark::Masked as u8;
            factor_a[first] = a as u8;
            factor_b[first] = b as u8;
        }
        Answer {
            refusal,
            value: 0,
            session: Session {
                marks,
                factor_a,
                factor_b,
                ..self
            },
        }
    }

    // The same, of a finish's first call: the masks of the triple at `first` were opened to y_a and y_b.
    pub fn answer_collecting<R: HasNumber>(
        self,
        checked: R,
        first: usize,
        y_a: u32,
        y_b: u32,
    ) -> Answer
        requires { Allows (R.numbered checked) (first ≤ last_triple) }
        ensures { result ≡ answer (R.numbered checked) 0 (collected_triple self first y_a y_b) self }
    {
        let refusal = checked.as_number();
        let mut marks = self.marks;
        let mut opened_a = self.y_a;
        let mut opened_b = self.y_b;
        if refusal == 0 {
            marks[first] = Mark::Collected as u8;
            opened_a[first] = y_a;
            opened_b[first] = y_b;
        }
        Answer {
            refusal,
            value: 0,
            session: Session {
                marks,
                y_a: opened_a,
                y_b: opened_b,
                ..self
            },
        }
    }

    // How a finish's second call ends: the third row bars whom a factor row bars.
    pub fn answer_multiplying<R: HasNumber>(self, checked: R, first: usize) -> Answer
        requires { Allows (R.numbered checked) (first ≤ last_triple) }
        ensures { result ≡ answer (R.numbered checked) 0 (finished_triple self first) self }
    {
        let refusal = checked.as_number();
        let mut marks = self.marks;
        let mut barred = self.barred;
        let factors_a = self.factor_a;
        let factors_b = self.factor_b;
        if refusal == 0 {
            let a = factors_a[first] as usize;
            let b = factors_b[first] as usize;
            callers::share(&mut barred, first + 2, a, b);
            marks[first] = Mark::Spent as u8;
            marks[first + 1] = Mark::Spent as u8;
            marks[first + 2] = Mark::Held as u8;
        }
        Answer {
            refusal,
            value: 0,
            session: Session {
                marks,
                barred,
                ..self
            },
        }
    }
}
