//! Finds whole lines of a text that can be consumed at once.

ghost use Rattle.std.specs.Prelude.{◌≡◌, ◌≤◌, length, take};
ghost use Rattle.covsession.specs.Text.{AreLines, starts_with_dot};

use memchr::{memmem, memrchr};

/// Whether the first byte is a dot.
fn begins_with_dot(bytes: &[u8]) -> bool
    ensures { result ≡ starts_with_dot bytes.now }
{
    matches!(bytes, [b'.', ..])
}

/// Returns the length of the whole lines before the first line that begins with a dot. None of these lines ends a text.
pub fn whole_lines_len(bytes: &[u8]) -> usize
    ensures bound { result ≤ length bytes.now }
    ensures lines { AreLines (take result bytes.now) }
{
    if begins_with_dot(bytes) {
        return 0;
    }
    match memmem::find(bytes, b"\n.") {
        Some(feed) => feed + 1,
        None => match memrchr(b'\n', bytes) {
            Some(last) => last + 1,
            None => 0,
        },
    }
}
