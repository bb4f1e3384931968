// The street program: reads chunks, and prints the answers to their lines. What lines and answers are is said in `street_transcript`,
// what is read and printed in `street_serving`.
#![tactic(auto)]

mod notes;

ghost use Rattle.std.specs.Prelude.{◌≡◌, length};
ghost use Rattle.street_serving.specs.Sizes.{answers_room_of};
ghost use Rattle.street_serving.specs.Serving.{Ended};
ghost use Rattle.street_serving.specs.Between.{Begun};
ghost use Rattle.street_console.specs.Notes.{note_for};

use std::io::{Read, Write};
use street_port::Printed;

// Room for the answers to a chunk: at most one for each byte.
const ANSWER_BYTES: usize = street_answers::LONGEST_PRINT * street_chunks::CHUNK;

// How a run ended.
#[derive(Clone, Copy)]
pub struct Ending {
    // how many lines were answered
    pub lines: u64,
    // how many bytes were handed to standard output, modulo 2^64
    pub total: u64,
    // reading failed
    pub unread: bool,
    // printing failed
    pub unwritten: bool,
    // the answers to every chunk were taken
    pub taken: bool,
}

// The same, with the note on what failed.
#[derive(Clone, Copy)]
pub struct Outcome {
    pub ending: Ending,
    // how many bytes were handed to standard error
    pub noted: usize,
}

// Room for the answers.
fn answers_room() -> [u8; ANSWER_BYTES]
    ensures { length result ≡ answers_room_of }
{
    [0; ANSWER_BYTES]
}

// Reads and prints after the header.
fn serve_input<R: Read, W: Write>(input: &mut R, output: &mut W, header: Printed) -> Ending
    requires { Begun header }
    ensures { Ended result.lines result.total result.unread result.unwritten result.taken }
{
    let mut store = [0u32; street_store::STORE_ROOM];
    let mut line = [0u8; street_splitting::KEPT];
    let mut chunk = [0u8; street_chunks::CHUNK];
    let mut out = answers_room();
    let run = street_serving::serve(
        input, output, header, &mut store, &mut line, &mut chunk, &mut out,
    );
    let served = run.last;
    let feed = served.feed;
    let got = served.got;
    let printed = served.printed;
    Ending {
        lines: feed.number,
        total: printed.total(),
        unread: got.failed(),
        unwritten: !printed.whole(),
        taken: run.taken,
    }
}

// Prints the header, and reads where it was taken.
fn start<R: Read, W: Write>(input: &mut R, output: &mut W) -> Ending
    ensures { Ended result.lines result.total result.unread result.unwritten result.taken }
{
    let header = street_port::begin(output);
    if header.whole() {
        return serve_input(input, output, header);
    }
    Ending {
        lines: 0,
        total: header.total(),
        unread: false,
        unwritten: true,
        taken: false,
    }
}

// The whole program: how it ended, and how many bytes were handed to standard error.
pub fn run<R: Read, W: Write, E: Write>(input: &mut R, output: &mut W, errors: &mut E) -> Outcome
    ensures { Ended result.ending.lines result.ending.total result.ending.unread result.ending.unwritten result.ending.taken
        × (result.noted ≡ length (note_for result.ending.unread result.ending.unwritten)) }
{
    let ending = start(input, output);
    Outcome {
        ending,
        noted: notes::say(errors, ending.unread, ending.unwritten),
    }
}
