// A record's blocks, filled and emptied.
ghost use Rattle.std.specs.Prelude.{◌≡◌};
ghost use Rattle.records.specs.Records.{place_refusal_of, put_refusal_of, put_record, removed_record};

#[unsafe(no_mangle)]
pub extern "C" fn gantsorol_record_put(
    n: usize,
    t: usize,
    points: usize,
    blocks: &mut [u32],
    post: usize,
    message: &[u32],
) -> u8
    ensures value { result ≡ put_refusal_of n t points blocks.old post message.now }
    ensures blocks_after { blocks.new ≡ put_record n t points blocks.old post message.now }
{
    refusal::number_of(records::put(n, t, points, blocks, post, message))
}

#[unsafe(no_mangle)]
pub extern "C" fn gantsorol_record_remove(
    n: usize,
    t: usize,
    points: usize,
    blocks: &mut [u32],
    post: usize,
) -> u8
    ensures value { result ≡ place_refusal_of n t points blocks.old post }
    ensures blocks_after { blocks.new ≡ removed_record n t points blocks.old post }
{
    refusal::number_of(records::remove(n, t, points, blocks, post))
}
