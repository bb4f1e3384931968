// What is said on standard error.
ghost use Rattle.std.specs.Prelude.{◌≡◌, length};
ghost use Rattle.street_console.specs.Notes.{unread_note_of, unwritten_note_of, note_for};

use std::io::Write;

fn unread_note() -> [u8; 28]
    ensures { result ≡ unread_note_of }
{
    *b"the input could not be read\n"
}

fn unwritten_note() -> [u8; 33]
    ensures { result ≡ unwritten_note_of }
{
    *b"the answers could not be written\n"
}

// Says what failed; how many bytes were handed to standard error.
pub fn say<W: Write>(errors: &mut W, unread: bool, unwritten: bool) -> usize
    ensures { result ≡ length (note_for unread unwritten) }
{
    if unread {
        let text = unread_note();
        return street_port::note(errors, &text);
    }
    if unwritten {
        let text = unwritten_note();
        return street_port::note(errors, &text);
    }
    0
}
