// Standard input, output and error: where the program meets the operating system. A `Got` or a `Printed` is made nowhere else.
#![tactic(auto)]

ghost use Rattle.std.specs.Prelude.{◌≡◌, ◌+◌, ◌≤◌, ◌<◌, true, false, length, take};
ghost use Rattle.street_answers.specs.Text.{header};
ghost use Rattle.street_port.specs.Counts.{wrapped};
ghost use Rattle.street_port.specs.Written.{AppendsFront, AppendsPart};
ghost use Rattle.std.specs.Io.KnownBytes.{Appends, Consumes, IsAtEnd};

use std::io::{Read, Write};

// What a read answered: how many bytes it put at the buffer's start, 0 at the end of the input, and whether it failed.
#[derive(Clone, Copy)]
pub struct Got {
    count: usize,
    failed: bool,
}

// How many bytes were handed to standard output so far, modulo 2^64, and whether the last of them were all taken.
#[derive(Clone, Copy)]
pub struct Printed {
    total: u64,
    whole: bool,
}

impl Got {
    pub fn count(self) -> usize
        ensures { result ≡ self.count }
    {
        self.count
    }

    pub fn failed(self) -> bool
        ensures { result ≡ self.failed }
    {
        self.failed
    }
}

impl Printed {
    pub fn total(self) -> u64
        ensures { result ≡ self.total }
    {
        self.total
    }

    pub fn whole(self) -> bool
        ensures { result ≡ self.whole }
    {
        self.whole
    }
}

// Writes a text, and says whether all of it was taken. The first write that fails or takes nothing is the last: none is tried again.
fn write_whole<W: Write>(writer: &mut W, text: &[u8]) -> bool
    ensures all { result ≡ true → Appends (W.contents writer.old) (W.contents writer.new) text.now }
    ensures part { result ≡ false → AppendsPart (W.contents writer.old) (W.contents writer.new) text.now }
{
    let mut left = text;
    while !left.is_empty() {
        match writer.write(left) {
            Ok(0) | Err(_) => return false,
            Ok(taken) => left = &left[taken..],
        }
    }
    true
}

// Hands a text to the output.
fn hand<W: Write>(output: &mut W, text: &[u8]) -> Printed
    ensures total { result.total ≡ length text.now }
    ensures all { result.whole ≡ true → Appends (W.contents output.old) (W.contents output.new) text.now }
    ensures part { result.whole ≡ false → AppendsPart (W.contents output.old) (W.contents output.new) text.now }
{
    let whole = write_whole(output, text);
    Printed {
        total: text.len() as u64,
        whole,
    }
}

// The header, before which nothing is printed.
pub fn begin<W: Write>(output: &mut W) -> Printed
    ensures total { result.total ≡ length header }
    ensures all { result.whole ≡ true → Appends (W.contents output.old) (W.contents output.new) header }
    ensures part { result.whole ≡ false → AppendsPart (W.contents output.old) (W.contents output.new) header }
{
    let header = street_answers::header();
    hand(output, &header)
}

// A text behind those before it, all of which were taken.
pub fn print<W: Write>(output: &mut W, before: Printed, text: &[u8]) -> Printed
    requires { before.whole ≡ true }
    ensures total { result.total ≡ wrapped (before.total + length text.now) }
    ensures all { result.whole ≡ true → Appends (W.contents output.old) (W.contents output.new) text.now }
    ensures part { result.whole ≡ false → AppendsPart (W.contents output.old) (W.contents output.new) text.now }
{
    let handed = hand(output, text);
    Printed {
        total: before.total.wrapping_add(handed.total),
        whole: handed.whole,
    }
}

// Reads a chunk of the input, where all that was printed before was taken.
pub fn read<R: Read>(input: &mut R, before: Printed, chunk: &mut [u8]) -> Got
    requires { before.whole ≡ true }
    ensures within { result.count ≤ length chunk.new }
    ensures failed { result.failed ≡ true → result.count ≡ 0 }
    ensures taken { Consumes (R.remaining input.old) (R.remaining input.new) (take result.count chunk.new) }
    ensures end { result.failed ≡ false → result.count ≡ 0 → 0 < length chunk.new → IsAtEnd (R.remaining input.new) }
{
    match input.read(chunk) {
        Ok(count) => Got {
            count,
            failed: false,
        },
        Err(_) => Got {
            count: 0,
            failed: true,
        },
    }
}

// A note on standard error; how many bytes were handed to it.
pub fn note<W: Write>(errors: &mut W, text: &[u8]) -> usize
    ensures count { result ≡ length text.now }
    ensures front { AppendsFront (W.contents errors.old) (W.contents errors.new) text.now }
{
    write_whole(errors, text);
    text.len()
}
