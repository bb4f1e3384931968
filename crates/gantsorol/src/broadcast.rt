// Broadcast lines, written and read.
ghost use Rattle.std.specs.Prelude.{◌≡◌, length};
ghost use Rattle.shape.specs.Lengths.{shape, v_length};
ghost use Rattle.forms.specs.Lines.{text, deal, opening, masks};
ghost use Rattle.forms.specs.Forms.{message};
ghost use Rattle.lines.specs.Writing.{write_deal_refusal, write_opening_refusal, write_masks_refusal, written_as, part_as};
ghost use Rattle.lines.specs.Reading.{read_refusal, line_as, list_as};

use lines::{Line, Written};

#[unsafe(no_mangle)]
pub extern "C" fn gantsorol_write_deal(
    n: usize,
    t: usize,
    row: usize,
    c: u32,
    out: &mut [u8],
) -> Written
    ensures value { result ≡ written_as (write_deal_refusal n t row c (length out.old)) (text (deal row c)) }
    ensures out_after { out.new ≡ part_as (write_deal_refusal n t row c (length out.old)) (text (deal row c)) out.old }
{
    lines::write_deal(n, t, row, c, out)
}

#[unsafe(no_mangle)]
pub extern "C" fn gantsorol_write_opening(
    n: usize,
    t: usize,
    points: usize,
    row: usize,
    post: usize,
    coefficients: &[u32],
    out: &mut [u8],
) -> Written
    ensures value { result
        ≡ written_as (write_opening_refusal n t points row post coefficients.now (length out.old))
        (text (opening row post coefficients.now)) }
    ensures out_after { out.new
        ≡ part_as (write_opening_refusal n t points row post coefficients.now (length out.old))
        (text (opening row post coefficients.now)) out.old }
{
    lines::write_opening(n, t, points, row, post, coefficients, out)
}

#[unsafe(no_mangle)]
pub extern "C" fn gantsorol_write_masks(
    n: usize,
    t: usize,
    points: usize,
    row: usize,
    post: usize,
    coefficients: &[u32],
    out: &mut [u8],
) -> Written
    ensures value { result
        ≡ written_as (write_masks_refusal n t points row post coefficients.now (length out.old))
        (text (masks row post coefficients.now)) }
    ensures out_after { out.new
        ≡ part_as (write_masks_refusal n t points row post coefficients.now (length out.old))
        (text (masks row post coefficients.now)) out.old }
{
    lines::write_masks(n, t, points, row, post, coefficients, out)
}

#[unsafe(no_mangle)]
pub extern "C" fn gantsorol_read(
    n: usize,
    t: usize,
    points: usize,
    line: &[u8],
    out: &mut [u32],
) -> Line
    ensures value { result ≡ line_as (read_refusal n t points line.now out.old) (message (v_length (shape n t points)) line.now) }
    ensures out_after { out.new
        ≡ list_as (read_refusal n t points line.now out.old) (message (v_length (shape n t points)) line.now) out.old }
{
    lines::read(n, t, points, line, out)
}
