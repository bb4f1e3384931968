// The calls on a session.
ghost use Rattle.std.specs.Prelude.{◌≡◌};
ghost use Rattle.session.specs.Sessions.{created};
ghost use Rattle.load.specs.Load.{load_row_answer, load_row_rows_of, load_triple_answer, load_triple_rows_of};
ghost use Rattle.deal.specs.Deal.{deal_answer, deal_rows_of};
ghost use Rattle.message.specs.Message.{message_answer, message_out_of};
ghost use Rattle.access.specs.Access.{access_answer};
ghost use Rattle.linear.specs.Linear.{linear_answer, linear_rows_of};
ghost use Rattle.opening.specs.Opening.{open_answer};
ghost use Rattle.product_masks.specs.Masks.{masks_answer, masks_out_of};
ghost use Rattle.collect.specs.Collect.{collect_answer};
ghost use Rattle.multiply.specs.Multiply.{multiply_answer, multiply_rows_of};

use session::{Answer, Session};
use shape::Points;

#[unsafe(no_mangle)]
pub extern "C" fn gantsorol_new(
    n: usize,
    t: usize,
    post: usize,
    points: usize,
    first: u32,
    second: u32,
) -> Answer
    ensures { result ≡ created n t post points (record { first = first; second = second }) }
{
    Session::new(n, t, post, points, Points { first, second })
}

#[unsafe(no_mangle)]
pub extern "C" fn gantsorol_load_row(
    session: Session,
    rows: &mut [u32],
    row: usize,
    pack: &[u32],
) -> Answer
    ensures value { result ≡ load_row_answer session rows.old row pack.now }
    ensures rows_after { rows.new ≡ load_row_rows_of session rows.old row pack.now }
{
    load::load_row(session, rows, row, pack)
}

#[unsafe(no_mangle)]
pub extern "C" fn gantsorol_load_triple(
    session: Session,
    rows: &mut [u32],
    first: usize,
    pack: &[u32],
) -> Answer
    ensures value { result ≡ load_triple_answer session rows.old first pack.now }
    ensures rows_after { rows.new ≡ load_triple_rows_of session rows.old first pack.now }
{
    load::load_triple(session, rows, first, pack)
}

#[unsafe(no_mangle)]
pub extern "C" fn gantsorol_deal(session: Session, rows: &mut [u32], row: usize, c: u32) -> Answer
    ensures value { result ≡ deal_answer session rows.old row c }
    ensures rows_after { rows.new ≡ deal_rows_of session rows.old row c }
{
    deal::deal(session, rows, row, c)
}

#[unsafe(no_mangle)]
pub extern "C" fn gantsorol_opening_message(
    session: Session,
    rows: &[u32],
    row: usize,
    caller: usize,
    out: &mut [u32],
) -> Answer
    ensures value { result ≡ message_answer session rows.now row caller out.old }
    ensures out_after { out.new ≡ message_out_of session rows.now row caller out.old }
{
    message::opening_message(session, rows, row, caller, out)
}

#[unsafe(no_mangle)]
pub extern "C" fn gantsorol_access(session: Session, line: &[u8]) -> Answer
    ensures { result ≡ access_answer session line.now }
{
    access::access(session, line)
}

#[unsafe(no_mangle)]
pub extern "C" fn gantsorol_open<'a>(
    session: Session,
    rows: &'a [u32],
    row: usize,
    blocks: &'a [u32],
) -> Answer
    ensures { result ≡ open_answer session rows.now row blocks.now }
{
    opening::open(session, rows, row, blocks)
}

#[unsafe(no_mangle)]
pub extern "C" fn gantsorol_linear(
    session: Session,
    rows: &mut [u32],
    dest: usize,
    a: usize,
    b: usize,
    scale: u32,
    fee: u32,
) -> Answer
    ensures value { result ≡ linear_answer session rows.old dest a b scale fee }
    ensures rows_after { rows.new ≡ linear_rows_of session rows.old dest a b scale fee }
{
    linear::linear(session, rows, dest, a, b, scale, fee)
}

#[unsafe(no_mangle)]
pub extern "C" fn gantsorol_masks(
    session: Session,
    rows: &[u32],
    a: usize,
    b: usize,
    first: usize,
    out: &mut [u32],
) -> Answer
    ensures value { result ≡ masks_answer session rows.now a b first out.old }
    ensures out_after { out.new ≡ masks_out_of session rows.now a b first out.old }
{
    product_masks::masks(session, rows, a, b, first, out)
}

#[unsafe(no_mangle)]
pub extern "C" fn gantsorol_collect(
    session: Session,
    rows: &[u32],
    first: usize,
    record_a: &[u32],
    record_b: &[u32],
) -> Answer
    ensures { result ≡ collect_answer session rows.now first record_a.now record_b.now }
{
    collect::collect(session, rows, first, record_a, record_b)
}

#[unsafe(no_mangle)]
pub extern "C" fn gantsorol_multiply(session: Session, rows: &mut [u32], first: usize) -> Answer
    ensures value { result ≡ multiply_answer session rows.old first }
    ensures rows_after { rows.new ≡ multiply_rows_of session rows.old first }
{
    multiply::multiply(session, rows, first)
}
