//! Files that are no tracefiles, told by their first bytes.

ghost use Rattle.std.specs.Prelude.{◌≡◌};
ghost use Rattle.covcombine.specs.Strangers.{first_line as first_line_in, kind_of as kind_by_bytes, strange, unpacked_kind as unpacked_by_bytes};

use memchr::memchr2;

/// How many bytes of a file are looked at.
pub(crate) const FIRST_BYTES: usize = 16;

/// A kind of file that isn't a tracefile.
#[derive(Clone, Copy)]
pub(crate) enum Stranger {
    /// There are no bytes.
    Empty,
    /// Packed by gzip.
    Gzip,
    /// Packed by compress.
    Compress,
    /// Packed by bzip2.
    Bzip2,
    /// Packed by xz.
    Xz,
    /// Packed by zstd.
    Zstd,
    /// A zip archive.
    Zip,
    /// Text in UTF-16.
    Utf16,
    /// Text behind a byte order mark.
    Marked,
    /// The counts of a program that gcc built.
    Gcda,
}

/// Returns the kind of other file that begins with the bytes `first`, or `None` if the file may be a tracefile.
pub(crate) fn strange_of(first: &[u8]) -> Option<Stranger>
    ensures { result ≡ strange first.now }
{
    if first.is_empty() {
        Some(Stranger::Empty)
    } else {
        kind_of(first)
    }
}

/// The kind of other file that begins with these bytes.
fn kind_of(first: &[u8]) -> Option<Stranger>
    ensures { result ≡ kind_by_bytes first.now }
{
    if first.starts_with(b"\x1f\x8b") {
        Some(Stranger::Gzip)
    } else if first.starts_with(b"\x1f\x9d") {
        Some(Stranger::Compress)
    } else if first.starts_with(b"BZh") {
        Some(Stranger::Bzip2)
    } else if first.starts_with(b"\xfd7zXZ\x00") {
        Some(Stranger::Xz)
    } else if first.starts_with(b"\x28\xb5\x2f\xfd") {
        Some(Stranger::Zstd)
    } else if first.starts_with(b"PK\x03\x04") {
        Some(Stranger::Zip)
    } else {
        unpacked_kind(first)
    }
}

/// The kind of other file that isn't packed and begins with these bytes.
fn unpacked_kind(first: &[u8]) -> Option<Stranger>
    ensures { result ≡ unpacked_by_bytes first.now }
{
    if first.starts_with(b"\xff\xfe") || first.starts_with(b"\xfe\xff") {
        Some(Stranger::Utf16)
    } else if first.starts_with(b"\xef\xbb\xbf") {
        Some(Stranger::Marked)
    } else if first.starts_with(b"adcg") {
        Some(Stranger::Gcda)
    } else {
        None
    }
}

/// The bytes before the first line feed or carriage return.
pub(crate) fn first_line(first: &[u8]) -> &[u8]
    ensures { result.now ≡ first_line_in first.now }
{
    match memchr2(b'\n', b'\r', first) {
        Some(end) => &first[..end],
        None => first,
    }
}
