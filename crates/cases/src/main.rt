// Document 01, "Reckoned by hand": the cases that are not in the proved table, run by the library's calls; and a charge of
// document 02, (i). Each prints what it is, the refusal and the value.
#![tactic(auto)]

ghost use Rattle.std.specs.Prelude.{◌≡◌, ◌≤◌, length};

use session::{Answer, Session};
use shape::Points;
use std::io;
use std::io::Stdout;

// A comma and the refusal, a comma and the value, a line feed; how many bytes they take.
fn lay(out: &mut [u8], refusal: u8, value: u32) -> usize
    requires { length out.old ≡ 32 }
    ensures { result ≤ 32 }
{
    let numbers = [refusal as u32, value];
    let end = csv_fields::put_fields(out, 0, &numbers);
    out[end] = 10;
    end + 1
}

fn show(output: Stdout, case: &[u8], refusal: u8, value: u32) -> io::Result<()> {
    let mut out = [0u8; 32];
    let end = lay(&mut out, refusal, value);
    output.write_all(case)?;
    output.write_all(&out[..end])
}

// A line read for three posts, t = 1: its first number.
fn read_line(output: Stdout, case: &[u8], line: &[u8]) -> io::Result<()> {
    let mut numbers = [0u32; 4];
    let read = lines::read(3, 1, 1, line, &mut numbers);
    show(output, case, read.refusal, numbers[0])
}

// A new session with one check point.
fn one_point(n: usize, t: usize, post: usize, point: u32) -> Answer {
    Session::new(
        n,
        t,
        post,
        1,
        Points {
            first: point,
            second: 0,
        },
    )
}

// A new session for n posts and this t.
fn begin(output: Stdout, case: &[u8], n: usize, t: usize) -> io::Result<()> {
    let answer = one_point(n, t, 1, 2);
    show(output, case, answer.refusal, answer.value)
}

// Post 1's row loaded into this row of a new session.
fn load_into(output: Stdout, case: &[u8], row: usize) -> io::Result<()> {
    let mut rows = [0u32; 768];
    let session = one_point(3, 1, 1, 2).session;
    let answer = load::load_row(session, &mut rows, row, &[1, 2, 5, 5, 17, 12, 18, 24]);
    show(output, case, answer.refusal, answer.value)
}

// A post of three that holds a = 100 in row 0 and a + (p − 1) a in row 1.
fn prepared(post: usize, point: u32, rows: &mut [u32], pack: &[u32]) -> Session {
    let session = one_point(3, 1, post, point).session;
    let loaded = load::load_row(session, rows, 0, pack).session;
    let dealt = deal::deal(loaded, rows, 0, 93).session;
    linear::linear(dealt, rows, 1, 0, 0, 2147483646, 0).session
}

// Post 1 opens this row with post 2's message.
fn open_with_two(output: Stdout, case: &[u8], row: usize) -> io::Result<()> {
    let mut rows = [0u32; 768];
    let mut other = [0u32; 768];
    let mut sent = [0u32; 2];
    let first = prepared(1, 2, &mut rows, &[1, 2, 5, 5, 17, 12, 18, 24]);
    let second = prepared(2, 3, &mut other, &[3, 1, 7, 6, 23, 12, 18, 24]);
    message::opening_message(second, &other, row, 1, &mut sent);
    let blocks = [0, 0, 0, 1, sent[0], sent[1], 0, 0, 0];
    let answer = opening::open(first, &rows, row, &blocks);
    show(output, case, answer.refusal, answer.value)
}

// A new session of document 02, (ix), with so many points, 2 and this one.
fn begin_with(output: Stdout, case: &[u8], points: usize, second: u32) -> io::Result<()> {
    let answer = Session::new(3, 1, 1, points, Points { first: 2, second });
    show(output, case, answer.refusal, answer.value)
}

// Post 1 of three, with the check points 2 and 4, opens 100 with what is said to be post 2's polynomial.
fn open_with_points(output: Stdout, case: &[u8], a: u32, b: u32, c: u32) -> io::Result<()> {
    let mut rows = [0u32; 1152];
    let pair = Points {
        first: 2,
        second: 4,
    };
    let new = Session::new(3, 1, 1, 2, pair).session;
    let pack = [1, 2, 1, 9, 25, 13, 39, 29, 77, 12, 18, 24];
    let loaded = load::load_row(new, &mut rows, 0, &pack).session;
    let dealt = deal::deal(loaded, &mut rows, 0, 93).session;
    let blocks = [0, 0, 0, 0, 1, a, b, c, 0, 0, 0, 0];
    let answer = opening::open(dealt, &rows, 0, &blocks);
    show(output, case, answer.refusal, answer.value)
}

// Post 1 opens row 0 with an empty record.
fn open_alone(output: Stdout, case: &[u8]) -> io::Result<()> {
    let mut rows = [0u32; 768];
    let session = prepared(1, 2, &mut rows, &[1, 2, 5, 5, 17, 12, 18, 24]);
    let answer = opening::open(session, &rows, 0, &[0; 9]);
    show(output, case, answer.refusal, answer.value)
}

// A post of three with two raw rows, 0 and 1, and a triple from row 2 on.
fn loaded(
    post: usize,
    point: u32,
    rows: &mut [u32],
    a: &[u32],
    b: &[u32],
    triple: &[u32],
) -> Session {
    let new = one_point(3, 1, post, point).session;
    let first = load::load_row(new, rows, 0, a).session;
    let second = load::load_row(first, rows, 1, b).session;
    load::load_triple(second, rows, 2, triple).session
}

// Row 0 becomes 6 and row 1 becomes 7; the post makes its masks.
fn masked(session: Session, rows: &mut [u32], sent: &mut [u32]) -> Session {
    let rides = deal::deal(session, rows, 0, 2147483646).session;
    let rate = deal::deal(rides, rows, 1, 4).session;
    product_masks::masks(rate, rows, 0, 1, 2, sent).session
}

// The three rows of a triple, one after the other.
fn joined(l: &[u32; 8], m: &[u32; 8], n: &[u32; 8]) -> [u32; 24] {
    let mut pack = [0u32; 24];
    for i in 0..8 {
        pack[i] = l[i];
        pack[8 + i] = m[i];
        pack[16 + i] = n[i];
    }
    pack
}

fn first_loaded(rows: &mut [u32]) -> Session {
    let triple = joined(
        &[5, 1, 7, 7, 15, 8, 7, 6],
        &[1, 1, 3, 12, 6, 8, 15, 13],
        &[4, 1, 6, 14, 9, 23, 36, 42],
    );
    loaded(
        1,
        2,
        rows,
        &[1, 2, 5, 5, 17, 12, 18, 24],
        &[2, 1, 4, 3, 8, 10, 14, 22],
        &triple,
    )
}

fn second_loaded(rows: &mut [u32]) -> Session {
    let triple = joined(
        &[3, 2, 8, 9, 22, 8, 7, 6],
        &[6, 3, 4, 15, 8, 8, 15, 13],
        &[8, 3, 7, 17, 11, 23, 36, 42],
    );
    loaded(
        2,
        3,
        rows,
        &[3, 1, 7, 6, 23, 12, 18, 24],
        &[1, 1, 5, 4, 10, 10, 14, 22],
        &triple,
    )
}

// The product into row 4, and with a fee of 8 into row 5.
fn charged(session: Session, rows: &mut [u32], record_a: &[u32], record_b: &[u32]) -> Session {
    let collected = collect::collect(session, rows, 2, record_a, record_b).session;
    let multiplied = multiply::multiply(collected, rows, 2).session;
    linear::linear(multiplied, rows, 5, 4, 4, 0, 8).session
}

// Posts 1 and 2 work out a charge, 6 rides at 7 and a fee of 8, and post 1 opens it with post 2's message.
fn open_charge(output: Stdout, case: &[u8]) -> io::Result<()> {
    let mut rows = [0u32; 768];
    let mut other = [0u32; 768];
    let mut mine = [0u32; 4];
    let mut theirs = [0u32; 4];
    let mut sent = [0u32; 2];
    let first = masked(first_loaded(&mut rows), &mut rows, &mut mine);
    let second = masked(second_loaded(&mut other), &mut other, &mut theirs);
    let first = charged(
        first,
        &mut rows,
        &[0, 0, 0, 1, theirs[0], theirs[1], 0, 0, 0],
        &[0, 0, 0, 1, theirs[2], theirs[3], 0, 0, 0],
    );
    let second = charged(
        second,
        &mut other,
        &[1, mine[0], mine[1], 0, 0, 0, 0, 0, 0],
        &[1, mine[2], mine[3], 0, 0, 0, 0, 0, 0],
    );
    message::opening_message(second, &other, 5, 1, &mut sent);
    let blocks = [0, 0, 0, 1, sent[0], sent[1], 0, 0, 0];
    let answer = opening::open(first, &rows, 5, &blocks);
    show(output, case, answer.refusal, answer.value)
}

// Post 1 of three, whose row 0 an A line leaves to posts 1 and 3, makes its message for a post that calls for it.
fn called_by(output: Stdout, case: &[u8], caller: usize) -> io::Result<()> {
    let mut rows = [0u32; 768];
    let mut sent = [0u32; 2];
    let new = one_point(3, 1, 1, 2).session;
    let loaded = load::load_row(new, &mut rows, 0, &[1, 2, 5, 5, 17, 12, 18, 24]).session;
    let admitted = access::access(loaded, b"A,0,1,3\n").session;
    let dealt = deal::deal(admitted, &mut rows, 0, 93).session;
    let answer = message::opening_message(dealt, &rows, 0, caller, &mut sent);
    show(output, case, answer.refusal, answer.value)
}

fn main(rt: HostRuntime) -> io::Result<()> {
    let output = rt.stdout();
    output.write_all(b"case,refusal,value\n")?;
    read_line(output, b"D with 2147483646", b"D,0,2147483646\n")?;
    read_line(output, b"D with 2147483647", b"D,0,2147483647\n")?;
    begin(output, b"n = 255", 255, 1)?;
    begin(output, b"n = 256", 256, 1)?;
    begin(output, b"t = n - 1", 3, 2)?;
    begin(output, b"t = 0", 3, 0)?;
    begin(output, b"t = n", 3, 3)?;
    open_with_two(output, b"a", 0)?;
    open_with_two(output, b"a + (p - 1) a", 1)?;
    load_into(output, b"row 95", 95)?;
    load_into(output, b"row 96", 96)?;
    open_alone(output, b"record empty with t = 1")?;
    open_charge(output, b"6 x 7 + 8")?;
    begin_with(output, b"no points", 0, 4)?;
    begin_with(output, b"three points", 3, 4)?;
    begin_with(output, b"second point 2147483646", 2, 2147483646)?;
    begin_with(output, b"second point 2147483647", 2, 2147483647)?;
    begin_with(output, b"second point not looked at", 1, 2147483647)?;
    open_with_points(output, b"a with two points", 3, 1, 2)?;
    open_with_points(output, b"passes the first point only", 13, 0, 0)?;
    open_with_points(output, b"passes the second point only", 39, 0, 0)?;
    called_by(output, b"called for by post 3", 3)?;
    called_by(output, b"called for by post 2", 2)?;
    called_by(output, b"called for by nobody", 0)?;
    called_by(output, b"called for by post 4", 4)
}
