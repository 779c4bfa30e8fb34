//! The names of source files' pages.

ghost use Rattle.std.specs.Prelude.{◌≡◌, ◌<◌, ◌++◌, IfOk, OnOk, codes, decimal};
ghost use Rattle.std.specs.Char.{digit_char};
ghost use Rattle.covhtml.specs.DirectoryPages.{directory_page_name as name_of_directory};
ghost use Rattle.covhtml.specs.PageName.{encoded_path, name_byte, page_name as name_of_page, stays as stays_in_names};

use covdata::{Bytes, Memory};
use std::alloc::Allocator;

/// The maximum length in bytes of an encoded path in a name.
const MOST_BYTES: usize = 245;

/// Returns the name of a source file's page, such as `file-src-main.c.html`. The name is made of the path: a lower-case letter, a
/// digit, a `.` or a `_` stays, a `/` becomes a `-`, and any other byte becomes a `~` and two hexadecimal digits. If that would make
/// the name longer than 255 bytes, the name has the file's number instead, such as `long-17.html`. `number` must be different for
/// each file, as its place in the list of files. By the laws of this crate, different files have different names, and a name is
/// safe as a file's name and as a link.
///
/// # Errors
///
/// `Memory` if an allocation failed.
pub fn page_name<A: Allocator + Copy>(
    alloc: A,
    number: u64,
    path: &[u8],
) -> Result<Bytes<A>, Memory>
    ensures { IfOk result (λ name. name ≡ name_of_page number path.now) }
{
    let mut encoded = Bytes::new(alloc);
    put_encoded(path, &mut encoded)?;
    if encoded.get().len() <= MOST_BYTES {
        named_by_path(alloc, encoded.get())
    } else {
        named_by_number(alloc, number)
    }
}

/// Returns the name of a directory's page, such as `file-src-lib~0a.html`: that of a source file's page for this path and a line
/// feed, which the path of a source file doesn't have. `number` must be that of no source file.
///
/// # Errors
///
/// `Memory` if an allocation failed.
pub fn directory_page_name<A: Allocator + Copy>(
    alloc: A,
    number: u64,
    path: &[u8],
) -> Result<Bytes<A>, Memory>
    ensures { IfOk result (λ name. name ≡ name_of_directory number path.now) }
{
    let mut line = Bytes::of(alloc, path)?;
    line.append(b"\n")?;
    page_name(alloc, number, line.get())
}

/// The name that has this encoded path.
fn named_by_path<A: Allocator>(alloc: A, encoded: &[u8]) -> Result<Bytes<A>, Memory>
    ensures { IfOk result (λ name. name ≡ codes "file-" ++ encoded.now ++ codes ".html") }
{
    let mut name = Bytes::new(alloc);
    name.append(b"file-")?;
    name.append(encoded)?;
    name.append(b".html")?;
    Ok(name)
}

/// The name that has this number.
fn named_by_number<A: Allocator>(alloc: A, number: u64) -> Result<Bytes<A>, Memory>
    ensures { IfOk result (λ name. name ≡ codes "long-" ++ decimal number ++ codes ".html") }
{
    let mut name = Bytes::new(alloc);
    name.append(b"long-")?;
    name.append_number(number)?;
    name.append(b".html")?;
    Ok(name)
}

/// Appends a path as names have it.
fn put_encoded<A: Allocator>(path: &[u8], name: &mut Bytes<A>) -> Result<(), Memory>
    ensures { OnOk result (name.new ≡ name.old ++ encoded_path path.now) }
{
    for byte in path {
        put_name_byte(*byte, name)?;
    }
    Ok(())
}

/// Appends a byte of a path as names have it.
fn put_name_byte<A: Allocator>(byte: u8, name: &mut Bytes<A>) -> Result<(), Memory>
    ensures { OnOk result (name.new ≡ name.old ++ name_byte byte) }
{
    if stays(byte) {
        return name.append(&[byte]);
    }
    if byte == b'/' {
        return name.append(b"-");
    }
    name.append(&[b'~', digit(byte / 16), digit(byte % 16)])
}

/// Whether names have the byte as it is.
fn stays(byte: u8) -> bool
    ensures { result ≡ stays_in_names byte }
{
    byte.is_ascii_lowercase() || byte.is_ascii_digit() || byte == b'.' || byte == b'_'
}

/// A hexadecimal digit, in lower case.
fn digit(value: u8) -> u8
    requires { value < 16 }
    ensures { result ≡ digit_char value }
{
    if value < 10 {
        b'0' + value
    } else {
        b'a' - 10 + value
    }
}
