// What is refused before a byte is looked at.
ghost use Rattle.std.specs.Prelude.{◌≡◌};
ghost use Rattle.refusal.specs.Refusal.{first};
ghost use Rattle.refusal.specs.Numbers.{refused};
ghost use Rattle.street_transcript.specs.Limits.{feed_tests, feed_refusal_of};

use refusal::Refusal;
use street_feeds::Feed;

// 5 of the lent line, of its bytes that count, and of the room for answers; 11 of the line numbers.
#[tactic(auto, using(crate::proofs::Admitting::line_missized, crate::proofs::Admitting::len_beyond, crate::proofs::Admitting::at_beyond, crate::proofs::Admitting::room_small, crate::proofs::Admitting::number_beyond, crate::proofs::Admitting::feed_fine))]
fn feed_refusal(feed: Feed, line: &[u8], out: &[u8], count: usize) -> Result<(), Refusal>
    ensures { refused result ≡ first (feed_tests feed line.now out.now count) }
{
    if line.len() != street_splitting::KEPT || street_splitting::KEPT < feed.len {
        return Err(Refusal::BadLength);
    }
    let room = out.len();
    if room < feed.at || (room - feed.at) / street_answers::LONGEST_PRINT < count {
        return Err(Refusal::BadLength);
    }
    if u64::MAX - feed.number < count as u64 {
        return Err(Refusal::LineOutOfRange);
    }
    Ok(())
}

// The refusal of so many bytes more.
pub fn open_refusal(
    feed: Feed,
    store: &[u32],
    line: &[u8],
    out: &[u8],
    count: usize,
) -> Result<(), Refusal>
    ensures { refused result ≡ feed_refusal_of feed store.now line.now out.now count }
{
    street_steps::room_refusal(feed.state, store).and(feed_refusal(feed, line, out, count))
}
