//! Prints names from outside with control bytes and backslashes escaped.

ghost use Rattle.std.specs.Prelude.{◌≡◌, ◌≢◌, ◌++◌, ◌∷◌, [], OnOk, OnErr};
ghost use Rattle.hex.specs.Hex.{encode_lower};
ghost use Rattle.covlist.specs.Shown.{HasBegun, is_control as is_control_byte, shown_byte, shown_control, shown_in_lines, shown_lines, shown_name};

use covdata::{Bytes, Memory};
use std::alloc::Allocator;

/// Appends a file's name. A control byte (below 32, or 127) is printed as `\x` and two lower-case hexadecimal digits, a backslash
/// is printed twice, and any other byte is unchanged. So the appended text has no line feed and no escape byte.
///
/// # Errors
///
/// `Memory` if an allocation failed. A part of the name, from its front, may then be appended, and nothing else. An empty name never
/// fails.
pub fn put_shown_name<A: Allocator>(name: &[u8], text: &mut Bytes<A>) -> Result<(), Memory>
    ensures ok { OnOk result (text.new ≡ text.old ++ shown_name name.now) }
    ensures err { OnErr result (HasBegun (shown_name name.now) text.old text.new) }
    ensures some { OnErr result (name.now ≢ []) }
{
    for byte in name {
        put_shown_byte(*byte, text)?;
    }
    Ok(())
}

/// Appends whole lines that contain names. Each line feed stays, and any other byte is printed as `put_shown_name` does.
///
/// # Errors
///
/// `Memory` if an allocation failed. A part of the lines, from their front, may then be appended, and nothing else. No lines never
/// fail.
pub fn put_shown_lines<A: Allocator>(lines: &[u8], text: &mut Bytes<A>) -> Result<(), Memory>
    ensures ok { OnOk result (text.new ≡ text.old ++ shown_lines lines.now) }
    ensures err { OnErr result (HasBegun (shown_lines lines.now) text.old text.new) }
    ensures some { OnErr result (lines.now ≢ []) }
{
    for byte in lines {
        put_shown_in_lines(*byte, text)?;
    }
    Ok(())
}

/// Appends one byte as `put_shown_lines` prints it.
fn put_shown_in_lines<A: Allocator>(byte: u8, text: &mut Bytes<A>) -> Result<(), Memory>
    ensures ok { OnOk result (text.new ≡ text.old ++ shown_in_lines byte) }
    ensures err { OnErr result (HasBegun (shown_in_lines byte) text.old text.new) }
{
    if byte == b'\n' {
        return text.append(&[byte]);
    }
    put_shown_byte(byte, text)
}

/// Appends one byte as `put_shown_name` prints it.
fn put_shown_byte<A: Allocator>(byte: u8, text: &mut Bytes<A>) -> Result<(), Memory>
    ensures ok { OnOk result (text.new ≡ text.old ++ shown_byte byte) }
    ensures err { OnErr result (HasBegun (shown_byte byte) text.old text.new) }
{
    if byte == b'\\' {
        return text.append(b"\\\\");
    }
    if is_control(byte) {
        return put_control(byte, text);
    }
    text.append(&[byte])
}

/// Appends a control byte as `\x` and two lower-case hexadecimal digits.
fn put_control<A: Allocator>(byte: u8, text: &mut Bytes<A>) -> Result<(), Memory>
    ensures ok { OnOk result (text.new ≡ text.old ++ shown_control byte) }
    ensures err { OnErr result (HasBegun (shown_control byte) text.old text.new) }
{
    text.append(b"\\x")?;
    put_hexadecimal(byte, text)
}

/// Whether the byte is a control byte of ASCII.
fn is_control(byte: u8) -> bool
    ensures { result ≡ is_control_byte byte }
{
    byte < 32 || byte == 127
}

/// Appends a byte as two lower-case hexadecimal digits.
fn put_hexadecimal<A: Allocator>(byte: u8, text: &mut Bytes<A>) -> Result<(), Memory>
    ensures ok { OnOk result (text.new ≡ text.old ++ encode_lower (byte ∷ [])) }
    ensures err { OnErr result (text.new ≡ text.old) }
{
    let mut digits = [0; 2];
    if hex::encode_to_slice([byte], &mut digits).is_err() {
        unreachable!();
    }
    text.append(&digits)
}
