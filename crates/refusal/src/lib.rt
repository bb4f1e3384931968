// Refusals: the first of several in order, and the conditions that several calls share.
#![tactic(auto)]

pub mod has_number;

ghost use Rattle.std.specs.Prelude.{◌≡◌, [], ◌∷◌};
ghost use Rattle.refusal.specs.Refusal.{first, ◌when◌};
ghost use Rattle.refusal.specs.Numbers.{refused};
ghost use Rattle.refusal.specs.Conditions.{posts_tests, outside, wrong_length, beyond, any_beyond, bad_point, bad_point_count, bad_points, station_tests, party_tests};

pub use crate::has_number::HasNumber;
use shape::Points;

// Why a call is refused, by the documents' numbers.
#[derive(Clone, Copy, PartialEq, Eq)]
pub enum Refusal {
    BadPostCount = 1,
    BadThreshold = 2,
    BadPost = 3,
    BadCheckPoint = 4,
    BadLength = 5,
    NoSuchRow = 6,
    WrongMark = 7,
    NotAnElement = 8,
    TooFewAccepted = 9,
    MalformedLine = 10,
    LineOutOfRange = 11,
    NoRoom = 12,
    InconsistentShares = 13,
    BadTermCount = 14,
    CallerBarred = 15,
    BadDealer = 16,
    PlaceFilled = 17,
    BadPostList = 18,
    TooManyPosts = 19,
}

// The number of a refusal, or 0 for none.
pub fn number_of<T: Copy>(checked: Result<T, Refusal>) -> u8
    ensures { result ≡ refused checked }
{
    match checked {
        Ok(_) => 0,
        Err(refusal) => refusal as u8,
    }
}

// 1 and 2: the number of posts, and t.
pub fn posts(n: usize, t: usize) -> Result<(), Refusal>
    ensures { refused result ≡ first (posts_tests n t) }
{
    if n < shape::FEWEST_POSTS || shape::MOST_POSTS < n {
        return Err(Refusal::BadPostCount);
    }
    if t < 1 || n - 1 < t {
        return Err(Refusal::BadThreshold);
    }
    Ok(())
}

// 3: a post outside 1..n.
pub fn post(n: usize, post: usize) -> Result<(), Refusal>
    ensures { refused result ≡ first (3 when outside 1 n post ∷ []) }
{
    if post < 1 || n < post {
        return Err(Refusal::BadPost);
    }
    Ok(())
}

// 4, of one check point.
pub fn point(w: u32) -> Result<(), Refusal>
    ensures { refused result ≡ first (4 when bad_point w ∷ []) }
{
    if w == 0 || field::P <= w {
        return Err(Refusal::BadCheckPoint);
    }
    Ok(())
}

// 4, of the number of check points that a post has.
pub fn count(points: usize) -> Result<(), Refusal>
    ensures { refused result ≡ first (4 when bad_point_count points ∷ []) }
{
    if points < 1 || shape::MOST_POINTS < points {
        return Err(Refusal::BadCheckPoint);
    }
    Ok(())
}

// 1, 2, and 4 of the number of points: of a station, where a call has no session.
pub fn station(n: usize, t: usize, points: usize) -> Result<(), Refusal>
    ensures { refused result ≡ first (station_tests n t points) }
{
    posts(n, t)?;
    count(points)
}

// And 3 between them, of one of its posts.
pub fn party(n: usize, t: usize, own: usize, points: usize) -> Result<(), Refusal>
    ensures { refused result ≡ first (party_tests n t own points) }
{
    posts(n, t)?;
    post(n, own)?;
    count(points)
}

// 4, of a post's check points.
#[tactic(auto, using(crate::proofs::Pairs::both), unfolding(crate::specs::Conditions::bad_points))]
pub fn points(points: usize, w: Points) -> Result<(), Refusal>
    ensures { refused result ≡ first (4 when bad_points points w ∷ []) }
{
    match points {
        1 => point(w.first),
        2 => point(w.first).and(point(w.second)),
        _ => Err(Refusal::BadCheckPoint),
    }
}

// 5, of one list: its length isn't exactly the one stated.
pub fn size(list: &[u32], length: usize) -> Result<(), Refusal>
    ensures { refused result ≡ first (5 when wrong_length list.now length ∷ []) }
{
    if list.len() != length {
        return Err(Refusal::BadLength);
    }
    Ok(())
}

// 8, of one number.
pub fn number(x: u32) -> Result<(), Refusal>
    ensures { refused result ≡ first (8 when beyond x ∷ []) }
{
    if field::P <= x {
        return Err(Refusal::NotAnElement);
    }
    Ok(())
}

// 8, of every number of a list. There is no early end, so that several numbers are looked at at once.
#[tactic(auto, using(crate::proofs::Elements::turned, crate::proofs::Elements::ended))]
pub fn numbers(list: &[u32]) -> Result<(), Refusal>
    ensures { refused result ≡ first (8 when any_beyond list.now ∷ []) }
{
    let mut beyond = false;
    for &x in list {
        beyond |= field::P <= x;
    }
    if beyond {
        return Err(Refusal::NotAnElement);
    }
    Ok(())
}
