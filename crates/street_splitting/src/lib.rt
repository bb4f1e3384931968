// Input bytes split into lines.
#![tactic(auto)]

ghost use Rattle.std.specs.Prelude.{◌≡◌, ◌++◌, ◌+◌, ◌≤◌, length, take, drop};
ghost use Rattle.street_splitting.specs.Lines.{segment, kept_length, cut, laid};

// Of a line that is too long, one byte more than the longest line has is kept: enough to tell.
pub const KEPT: usize = street_store::LONGEST_LINE + 1;

// The position behind the next line feed, or the chunk's end.
pub fn line_end(chunk: &[u8], from: usize) -> usize
    ensures { result ≡ from + segment (drop from chunk.now) }
{
    for i in from..chunk.len() {
        if chunk[i] == b'\n' {
            return i + 1;
        }
    }
    chunk.len().max(from)
}

// Bytes behind the first `len` of a line, as far as there is room; how many the line has then.
#[tactic(auto, using(crate::proofs::Segments::appended_fits, crate::proofs::Segments::appended_room, crate::proofs::Segments::appended_within, crate::proofs::Segments::appended_size, crate::proofs::Segments::appended_laid, crate::proofs::Segments::appended))]
pub fn append(line: &mut [u8], len: usize, part: &[u8]) -> usize
    requires { (len ≤ kept_length) × (length line.old ≡ kept_length) }
    ensures upper_bound { (result ≤ kept_length) × (take result line.new ≡ cut (take len line.old ++ part.now)) }
    ensures line_after { line.new ≡ laid len part.now line.old }
{
    let count = part.len().min(KEPT - len);
    let end = len + count;
    lists::copy(&part[..count], &mut line[len..end]);
    end
}
