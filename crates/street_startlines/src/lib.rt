// Start lines: `S` and `W`.
#![tactic(auto)]

ghost use Rattle.std.specs.Prelude.{◌≡◌, cond, ltb};
ghost use Rattle.field.specs.Modulus.{p};
ghost use Rattle.refusal.specs.Numbers.{number};
ghost use Rattle.session.specs.Sessions.{no_points, session_of, holding};
ghost use Rattle.street_startlines.specs.Between.{begin_answer, start_answer};

use refusal::Refusal;
use session::{Answer, Session};
use shape::Points;
use street_reading::Settings;

// A number as an element, or p, which is none.
fn narrow(x: u64) -> u32
    ensures { result ≡ cond (ltb x p) x p }
{
    if x < (field::P as u64) {
        x as u32
    } else {
        field::P
    }
}

// A refused start line has no session.
fn refused(refusal: Refusal) -> Answer
    ensures { result ≡ holding (number refusal) 0 (session_of 0 0 0 0 no_points) }
{
    let none = Points {
        first: 0,
        second: 0,
    };
    let unmade = Session::new(0, 0, 0, 0, none);
    unmade.session.answer(Err::<(), Refusal>(refusal))
}

// 1 to 4 of a start line, or its session.
#[tactic(auto, using(crate::proofs::Settings::begin_many, crate::proofs::Settings::begin_made))]
fn begin(settings: Settings) -> Answer
    ensures { result ≡ begin_answer settings.n settings.t settings.post settings.points (record { first = settings.first; second = settings.second }) }
{
    let Settings {
        n,
        t,
        post,
        points,
        first,
        second,
    } = settings;
    if (street_store::STREET_POSTS as u64) < n {
        return refused(Refusal::BadPostCount);
    }
    let w = Points {
        first: narrow(first),
        second: narrow(second),
    };
    Session::new(n as usize, t as usize, post as usize, points, w)
}

// A start line before one is accepted.
#[tactic(auto, using(crate::proofs::Settings::start_long, crate::proofs::Settings::start_wrong, crate::proofs::Settings::start_settings))]
pub fn start(line: &[u8]) -> Answer
    ensures { result ≡ start_answer line.now }
{
    if street_store::LONGEST_LINE < line.len() {
        return refused(Refusal::MalformedLine);
    }
    match street_reading::start::scan_start(line) {
        Some(settings) => begin(settings),
        None => refused(Refusal::MalformedLine),
    }
}
