// The transcript: input bytes, chunk by chunk, and the answers to their lines.
#![tactic(auto)]

mod limits;

ghost use Rattle.std.specs.Prelude.{◌≡◌, length};
ghost use Rattle.street_transcript.specs.Limits.{feed_refusal_of};
ghost use Rattle.street_transcript.specs.Between.{Moved, line_after_of, Closing, ran, line_ran};
ghost use Rattle.street_feeds.specs.Between.{Open, Added, Fed};
ghost use Rattle.street_feeds.specs.Program.{running, fed, closed};

use refusal::Refusal;
use street_feeds::Feed;
use street_states::Head;

// A chunk of the input, or its end, where there is room: the session and the rest of what is kept are two variables, so that a line that does
// not change the session does not copy it. At the end the chunk is one byte, which is not kept.
fn take_lines(
    feed: Feed,
    store: &mut [u32],
    line: &mut [u8],
    chunk: &[u8],
    closing: bool,
    out: &mut [u8],
) -> Feed
    requires { Open feed store.old line.old out.old (length chunk.now) × Closing closing chunk.now }
    ensures out_after { running result store.new line.new out.new
        ≡ ran closing (running feed store.old line.old out.old) chunk.now }
    ensures fed { Fed feed result store.new (length chunk.now) × Added feed result out.old out.new }
    ensures line_after { line.new
        ≡ line_ran closing (running feed store.old line.old out.old) line.old chunk.now }
{
    let mut numbers = [0u32; street_store::NUMBERS_ROOM];
    let mut masks = [0u32; street_store::MOST_MASKS];
    let empty = [0u32; street_store::RECORD_ROOM];
    let state = feed.state;
    let mut last = street_interpreter::unchanged(state.session);
    let mut head = street_feeds::head(feed);
    let mut i = 0;
    while i < chunk.len() {
        let end = street_splitting::line_end(chunk, i);
        let session = last.session;
        let shape = session.shape();
        let part = street_feeds::read_part(
            head,
            shape,
            line,
            &chunk[i..end],
            closing,
            &mut numbers,
        );
        let grown = part.head;
        head = Head {
            len: grown.len,
            ..grown
        };
        i = end;
        if part.ended {
            let order = part.order;
            let letter = order.letter;
            if street_steps::changes(letter) {
                let len = head.len;
                let post = session.post;
                match letter {
                    b'A' => {
                        last = street_interpreter::admit(last.session, &line[..len], order);
                    }
                    b'F' => {
                        last = street_interpreter::finish(
                            last.session,
                            head.triple,
                            store,
                            order,
                            &numbers,
                            &empty,
                        );
                    }
                    b'S' => {
                        last = street_interpreter::start(last.session, &line[..len], order);
                    }
                    _ => {
                        last = street_interpreter::change(
                            last.session,
                            head.triple,
                            store,
                            &line[..len],
                            order,
                            &numbers,
                            &mut masks,
                        );
                    }
                }
                head = street_feeds::change_line(
                    head,
                    letter,
                    post,
                    shape,
                    last.refusal,
                    &numbers,
                    &masks,
                    out,
                );
            } else {
                head = street_feeds::look_line(session, head, order, store, &numbers, &empty, out);
            }
        }
    }
    street_feeds::whole(last.session, head)
}

// A chunk of the input: the program afterwards. Where it is refused the caller's stays as it is.
pub fn feed_chunk(
    feed: Feed,
    store: &mut [u32],
    line: &mut [u8],
    chunk: &[u8],
    out: &mut [u8],
) -> Result<Feed, Refusal>
    ensures { Moved (feed_refusal_of feed store.old line.old out.old (length chunk.now))
        (length chunk.now) feed store.old line.old out.old
        (fed (running feed store.old line.old out.old) chunk.now)
        (line_after_of (running feed store.old line.old out.old) line.old chunk.now)
        result store.new line.new out.new }
{
    limits::open_refusal(feed, store, line, out, chunk.len())?;
    Ok(take_lines(feed, store, line, chunk, false, out))
}

// The end of the input ends a line that was begun.
pub fn end_input(
    feed: Feed,
    store: &mut [u32],
    line: &mut [u8],
    out: &mut [u8],
) -> Result<Feed, Refusal>
    ensures { Moved (feed_refusal_of feed store.old line.old out.old 1) 1 feed store.old
        line.old out.old (closed (running feed store.old line.old out.old))
        line.old result store.new line.new out.new }
{
    limits::open_refusal(feed, store, line, out, 1)?;
    Ok(take_lines(feed, store, line, b"\n", true, out))
}
