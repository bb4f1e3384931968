// From the first chunk to the end of the input, or until reading or printing fails.
#![tactic(auto)]

ghost use Rattle.std.specs.Prelude.{not};
ghost use Rattle.street_feeds.specs.Program.{running};
ghost use Rattle.street_feeds.specs.Between.{Open};
ghost use Rattle.street_serving.specs.Serving.{Ended};
ghost use Rattle.street_serving.specs.Between.{Fresh, Begun, Stopped, Finished};

use std::io::{Read, Write};
use street_chunks::Served;
use street_port::Printed;

// How the reading ended: the program then, and whether the answers to every chunk were taken.
#[derive(Clone, Copy)]
pub struct Run {
    pub last: Served,
    pub taken: bool,
}

// Nothing says that an input ends: no run uses up these turns.
const TURNS: u64 = 1 << 51;

// Reads to the end of the input, or until reading or printing fails.
fn serve_chunks<R: Read, W: Write>(
    input: &mut R,
    output: &mut W,
    header: Printed,
    store: &mut [u32],
    line: &mut [u8],
    chunk: &mut [u8],
    out: &mut [u8],
) -> Served
    requires { Fresh store.old line.old chunk.old out.old × Begun header }
    ensures stopped { Stopped (running result.feed store.new line.new out.new) result }
    ensures fact { Open result.feed store.new line.new out.new 1 }
{
    let mut feed = street_feeds::begin();
    let mut printed = header;
    let mut turns = TURNS;
    loop {
        let served = street_chunks::serve_chunk(
            input, output, feed, printed, store, line, chunk, out,
        );
        turns -= 1;
        if turns == 0 {
            return served;
        }
        if street_chunks::stops(served) {
            return served;
        }
        feed = served.feed;
        printed = served.printed;
    }
}

// The end of the input ends a line that was begun. Where reading failed nothing is known of the line's end, and where printing
// failed nothing more is printed.
fn finish<W: Write>(
    output: &mut W,
    served: Served,
    store: &mut [u32],
    line: &mut [u8],
    out: &mut [u8],
) -> Served
    requires { Open served.feed store.old line.old out.old 1 }
    ensures { Finished
        (running served.feed store.old line.old out.old)
        (running result.feed store.new line.new out.new)
        out.new served result }
{
    if street_chunks::broken_off(served) {
        return served;
    }
    let got = served.got;
    let printed = served.printed;
    let taken = street_transcript::end_input(served.feed, store, line, out);
    let ended = taken.unwrap_or(served.feed);
    let at = ended.at;
    let last = street_port::print(output, printed, &out[..at]);
    Served {
        feed: ended,
        got,
        printed: last,
    }
}

// Reads the input and prints the answers.
pub fn serve<R: Read, W: Write>(
    input: &mut R,
    output: &mut W,
    header: Printed,
    store: &mut [u32],
    line: &mut [u8],
    chunk: &mut [u8],
    out: &mut [u8],
) -> Run
    requires { Fresh store.old line.old chunk.old out.old × Begun header }
    ensures { Ended result.last.feed.number result.last.printed.total result.last.got.failed
        (not result.last.printed.whole) result.taken }
{
    let served = serve_chunks(input, output, header, store, line, chunk, out);
    let printed = served.printed;
    let taken = printed.whole();
    let last = finish(output, served, store, line, out);
    Run { last, taken }
}
