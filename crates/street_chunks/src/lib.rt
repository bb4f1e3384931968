// One chunk: read, fed to the street program, its answers printed; and whether it is the last.
#![tactic(auto)]

ghost use Rattle.std.specs.Prelude.{◌≡◌, true, ◌+◌, ◌≤◌, length, take};
ghost use Rattle.street_feeds.specs.Program.{running};
ghost use Rattle.street_feeds.specs.Between.{Open};
ghost use Rattle.street_chunks.specs.Sizes.{chunk_size};
ghost use Rattle.street_chunks.specs.Stopping.{stops_at, broken_off_of};
ghost use Rattle.street_chunks.specs.Between.{Answered};

use std::io::{Read, Write};
use street_feeds::Feed;
use street_port::{Got, Printed};

// Room for a chunk.
pub const CHUNK: usize = 2048;

// The program after a chunk: what is kept, and what was printed.
#[derive(Clone, Copy)]
struct Answers {
    feed: Feed,
    printed: Printed,
}

// The same, with what the read answered.
#[derive(Clone, Copy)]
pub struct Served {
    pub feed: Feed,
    pub got: Got,
    pub printed: Printed,
}

// Takes a chunk and prints its answers.
fn answer_chunk<W: Write>(
    output: &mut W,
    feed: Feed,
    before: Printed,
    store: &mut [u32],
    line: &mut [u8],
    chunk: &[u8],
    out: &mut [u8],
) -> Answers
    requires { Open feed store.old line.old out.old chunk_size × (length chunk.now ≤ chunk_size) × (before.whole ≡ true) }
    ensures answered { Answered
        (running feed store.old line.old out.old)
        (running result.feed store.new line.new out.new)
        chunk.now out.new before result.printed }
    ensures fact { Open result.feed store.new line.new out.new 0
        × (result.feed.at ≡ 0) × (result.feed.number ≤ feed.number + chunk_size) }
{
    let taken = street_transcript::feed_chunk(feed, store, line, chunk, out);
    let fed = taken.unwrap_or(feed);
    let at = fed.at;
    let printed = street_port::print(output, before, &out[..at]);
    Answers {
        feed: street_feeds::drain(fed),
        printed,
    }
}

// Reads a chunk and prints its answers. At the end of the input, and where reading fails, the chunk is empty.
pub fn serve_chunk<R: Read, W: Write>(
    input: &mut R,
    output: &mut W,
    feed: Feed,
    before: Printed,
    store: &mut [u32],
    line: &mut [u8],
    chunk: &mut [u8],
    out: &mut [u8],
) -> Served
    requires { Open feed store.old line.old out.old chunk_size × (length chunk.old ≡ chunk_size) × (before.whole ≡ true) }
    ensures answered { Answered
        (running feed store.old line.old out.old)
        (running result.feed store.new line.new out.new)
        (take result.got.count chunk.new) out.new before result.printed }
    ensures fact { Open result.feed store.new line.new out.new 0
        × (result.feed.at ≡ 0) × (result.feed.number ≤ feed.number + chunk_size) × (result.got.count ≤ length chunk.new) }
{
    let got = street_port::read(input, before, chunk);
    let n = got.count();
    let answers = answer_chunk(output, feed, before, store, line, &chunk[..n], out);
    let next = answers.feed;
    let printed = answers.printed;
    Served {
        feed: next,
        got,
        printed,
    }
}

// Whether this chunk is the last.
pub fn stops(served: Served) -> bool
    ensures { result ≡ stops_at served }
{
    let got = served.got;
    let answers = served.printed;
    if got.count() == 0 {
        return true;
    }
    !answers.whole()
}

// Whether reading or printing failed.
pub fn broken_off(served: Served) -> bool
    ensures { result ≡ broken_off_of served }
{
    let got = served.got;
    let printed = served.printed;
    if got.failed() {
        return true;
    }
    !printed.whole()
}
