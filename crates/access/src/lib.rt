// Who may have a number opened: the A line, which sets the posts that may call for a raw row's opening.
#![tactic(auto)]

ghost use Rattle.refusal.specs.Refusal.{first, or_else, outcome};
ghost use Rattle.refusal.specs.Numbers.{refused};
ghost use Rattle.session.specs.Between.{Allows};
ghost use Rattle.std.specs.Prelude.{◌≡◌, not, ◌||◌, cond, ◌<◌, length, eqb, ltb};
ghost use Rattle.callers.specs.Sets.{sets_length};
ghost use Rattle.refusal.specs.Conditions.{outside};
ghost use Rattle.access.specs.Access.{commas, alone, several_at, posts_at, access_fields, admitted, placed, access_answer};
ghost use Rattle.access.specs.Between.{further, walked, start, unread, beyond, told, ended_of, read_of, settings_of};
ghost use Rattle.csv_fields.specs.Fields.{push};

use csv_fields::{Run, short};
use refusal::Refusal;
use session::{Answer, Session};
use shape::{Mark, Points};

// A walk over the posts of a line: how far it has read, the post before, whether all were fields that rise, whether one is outside 1..n,
// and the eight numbers of the set.
#[derive(Clone, Copy)]
struct Posts {
    at: usize,
    begun: bool,
    low: u64,
    rising: bool,
    out: bool,
    words: [u32; 8],
}

// What a line says: its row and the eight numbers of its set; or its refusal.
#[derive(Clone, Copy)]
struct Read {
    refusal: u8,
    row: usize,
    words: [u32; 8],
}

// How many commas a line has.
fn commas(line: &[u8]) -> usize
    ensures { result ≡ commas line.now }
{
    line.iter().filter(|byte| **byte == b',').count()
}

// A post is barred no longer.
#[tactic(auto, using(crate::proofs::Walking::admit_low, crate::proofs::Walking::admit_high, crate::proofs::Walking::admit_bit, crate::proofs::Walking::admit_room, crate::proofs::Walking::admit_sub, crate::proofs::Walking::admit_end))]
fn admit(mut words: [u32; 8], post: u64) -> [u32; 8]
    ensures { result ≡ admitted words post }
{
    if post < 1 || 256 < post {
        return words;
    }
    let at = ((post - 1) / 32) as usize;
    let bit = 1u32 << (((post - 1) % 32) as u32);
    words[at] = words[at] & (4294967295 - bit);
    words
}

fn outside(n: usize, post: u64) -> bool
    ensures { result ≡ outside 1 n post }
{
    post < 1 || (n as u64) < post
}

// Whether a walk's next post is above the one before it, if there is one.
fn rises(begun: bool, low: u64, post: u64) -> bool
    ensures { result ≡ (not begun || ltb low post) }
{
    !begun || low < post
}

// One field more.
fn further(n: usize, posts: Posts, run: Option<Run>) -> Posts
    ensures { result ≡ further n posts run }
{
    match run {
        Some(Run { largest, next }) => {
            let risen = rises(posts.begun, posts.low, largest);
            let beyond = outside(n, largest);
            let before = posts.words;
            let words = admit(before, largest);
            Posts {
                at: next,
                begun: true,
                low: largest,
                rising: posts.rising & risen,
                out: posts.out | beyond,
                words,
            }
        }
        None => Posts {
            rising: false,
            ..posts
        },
    }
}

// So many fields from a position on.
fn walk(line: &[u8], n: usize, at: usize, count: usize) -> Posts
    ensures { result ≡ walked count n line.now (start at) }
{
    let mut posts = Posts {
        at,
        begun: false,
        low: 0,
        rising: true,
        out: false,
        words: [4294967295; 8],
    };
    for i in 0..count {
        let run = short::one_field(line, posts.at);
        posts = further(n, posts, run);
    }
    posts
}

// The eight numbers become a row's.
fn place(sets: &mut [u32], row: usize, words: [u32; 8])
    requires { (length sets.old ≡ sets_length) × (row < 96) }
    ensures { sets.new ≡ placed 8 sets.old row words }
{
    for k in 0..8 {
        sets[8 * row + k] = words[k];
    }
}

// "`A,row,` alone": behind the row a comma and the line feed, and nothing more.
#[tactic(auto, using(crate::proofs::Reading::alone_short, crate::proofs::Reading::alone_else, crate::proofs::Reading::alone_byte, crate::proofs::Reading::alone_is))]
fn is_alone(line: &[u8], at: usize) -> bool
    ensures { result ≡ alone line.now at }
{
    2 <= line.len() && line.len() - 2 == at && line[at] == b',' && line[at + 1] == b'\n'
}

// 10.
fn unread() -> Read
    ensures { result ≡ unread }
{
    Read {
        refusal: 10,
        row: 0,
        words: [4294967295; 8],
    }
}

// 10, 11 or none, where the form is right.
#[tactic(auto, using(crate::proofs::Reading::told_unrisen, crate::proofs::Reading::told_row, crate::proofs::Reading::told_out, crate::proofs::Reading::told_right))]
fn told(risen: bool, out: bool, row: u64, words: [u32; 8]) -> Read
    ensures { result ≡ told risen out row words }
{
    if !risen {
        return unread();
    }
    if 95 < row {
        return beyond();
    }
    if out {
        return beyond();
    }
    Read {
        refusal: 0,
        row: row as usize,
        words,
    }
}

// 11.
fn beyond() -> Read
    ensures { result ≡ beyond }
{
    Read {
        refusal: 11,
        row: 0,
        words: [4294967295; 8],
    }
}

// What a walk says, if the line ends where it has come to.
#[tactic(auto, using(crate::proofs::Reading::end_broken, crate::proofs::Reading::end_right))]
fn end_posts(line: &[u8], row: u64, posts: Posts) -> Read
    ensures { result ≡ ended_of line.now row posts }
{
    match csv_fields::line_end(line, posts.at, 0) {
        Some(_) => told(posts.rising, posts.out, row, posts.words),
        None => unread(),
    }
}

// The posts behind a row that is not alone, to the line's end.
fn read_several(line: &[u8], n: usize, row: u64, at: usize) -> Read
    ensures { result ≡ read_of n (push row (several_at line.now at)) }
{
    let found = commas(line);
    if found < 2 {
        return unread();
    }
    end_posts(line, row, walk(line, n, at, found - 1))
}

// The posts behind a row.
fn read_posts(line: &[u8], n: usize, row: u64, at: usize) -> Read
    ensures { result ≡ read_of n (push row (posts_at line.now at)) }
{
    if is_alone(line, at) {
        return told(true, false, row, [4294967295; 8]);
    }
    read_several(line, n, row, at)
}

// A line's row and posts. A function of its own, so that a session's lists need not be kept while it reads.
#[inline(never)]
#[tactic(auto, using(crate::proofs::Reading::line_short, crate::proofs::Reading::line_letter, crate::proofs::Reading::line_broken, crate::proofs::Reading::line_right))]
fn read_line(line: &[u8], n: usize) -> Read
    ensures { result ≡ read_of n (access_fields line.now) }
{
    if line.len() < 1 || line[0] != b'A' {
        return unread();
    }
    match short::one_field(line, 1) {
        Some(row) => read_posts(line, n, row.largest, row.next),
        None => unread(),
    }
}

// 1 to 4, of the session.
fn settings(session: Session) -> Result<(), Refusal>
    ensures { refused result ≡ first (settings_of session) }
{
    let points = Points {
        first: session.first,
        second: session.second,
    };
    session::checks::settings(session.n, session.t, session.post, session.points, points)
}

// The first refusal of two.
#[tactic(auto, using(refusal::proofs::Endings::or_else_first))]
fn or_else(a: u8, b: u8) -> u8
    ensures { result ≡ or_else a b }
{
    if a != 0 { a } else { b }
}

// The same, where the line is not refused.
fn place_unless(refusal: u8, sets: &mut [u32], row: usize, words: [u32; 8])
    requires { (length sets.old ≡ sets_length) × Allows refusal (row < 96) }
    ensures { sets.new ≡ outcome refusal (placed 8 sets.old row words) sets.old }
{
    if refusal != 0 {
        return;
    }
    place(sets, row, words);
}

// An A line sets the posts that may call for its row's opening. One end, refused or not, so that the session is copied once, into the answer.
pub fn access(session: Session, line: &[u8]) -> Answer
    ensures { result ≡ access_answer session line.now }
{
    let mut barred = session.barred;
    let own = refusal::number_of(settings(session));
    let read = read_line(line, session.n);
    let all_marks = session.marks;
    let marked = session::checks::wrong_mark(&all_marks, read.row, Mark::Raw);
    let mark = refusal::number_of(marked);
    let late = or_else(read.refusal, mark);
    let refusal = or_else(own, late);
    let words = read.words;
    place_unless(refusal, &mut barred, read.row, words);
    Answer {
        refusal,
        value: 0,
        session: Session { barred, ..session },
    }
}
