//! Prints texts from outside.

ghost use Rattle.std.specs.Prelude.{◌≡◌, ◌==◌, ◌++◌, [], length, flat_map, if◌then◌else◌};
ghost use Rattle.std.specs.Str.Lossy.{replacement_bytes};
ghost use Rattle.covhtml.specs.Shown.{is_control as is_control_byte, picture, shown, shown_byte, visible_byte};

use covreport::Printer;

/// Prints a text from outside, such as a path or a source line, so that it can stand between tags and in a quoted attribute. `<`,
/// `>`, `&` and `"` are printed as character references. Bytes that aren't UTF-8 are printed as U+FFFD, and control bytes other
/// than tabs as control pictures, as U+241B for an escape byte.
pub fn put_shown<P: Printer>(text: &[u8], out: &mut P)
    ensures { P.text out.new ≡ P.text out.old ++ shown text.now }
{
    for chunk in text.utf8_chunks() {
        put_bytes(chunk.valid().as_bytes(), out);
        put_mark(chunk.invalid(), out);
    }
}

/// Prints U+FFFD if there are invalid bytes.
fn put_mark<P: Printer>(invalid: &[u8], out: &mut P)
    ensures { P.text out.new ≡ P.text out.old ++ (if length invalid.now == 0 then [] else replacement_bytes) }
{
    if invalid.is_empty() {
        return;
    }
    out.put(b"\xef\xbf\xbd");
}

/// Prints the bytes of a text that is UTF-8.
fn put_bytes<P: Printer>(text: &[u8], out: &mut P)
    ensures { P.text out.new ≡ P.text out.old ++ flat_map shown_byte text.now }
{
    for byte in text {
        put_byte(*byte, out);
    }
}

/// Prints one byte.
fn put_byte<P: Printer>(byte: u8, out: &mut P)
    ensures { P.text out.new ≡ P.text out.old ++ shown_byte byte }
{
    match byte {
        b'<' => out.put(b"&lt;"),
        b'>' => out.put(b"&gt;"),
        b'&' => out.put(b"&amp;"),
        b'"' => out.put(b"&quot;"),
        _ => put_visible(byte, out),
    }
}

/// Prints a byte that needs no character reference.
fn put_visible<P: Printer>(byte: u8, out: &mut P)
    ensures { P.text out.new ≡ P.text out.old ++ visible_byte byte }
{
    if is_control(byte) {
        put_picture(byte, out);
    } else {
        out.put(&[byte]);
    }
}

/// Prints the picture of a control byte.
fn put_picture<P: Printer>(byte: u8, out: &mut P)
    ensures { P.text out.new ≡ P.text out.old ++ picture byte }
{
    let last = if byte == 127 { 0xa1 } else { 0x80 + byte % 32 };
    out.put(&[0xe2, 0x90, last]);
}

/// Whether the byte is a control byte of ASCII other than a tab.
fn is_control(byte: u8) -> bool
    ensures { result ≡ is_control_byte byte }
{
    byte.is_ascii_control() && byte != b'\t'
}
