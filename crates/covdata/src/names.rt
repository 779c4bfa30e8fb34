//! Checks of the names and checksums in a line.

ghost use Rattle.std.specs.Prelude.{◌↔◌, IsTrue};
ghost use Rattle.covdata.specs.Lawful.{IsChecksum, IsChecksumByte, IsGoodName, IsGoodTest};

/// Whether `name` can be a test's name: no line feed, and no carriage return at the end.
pub fn good_test(name: &[u8]) -> bool
    ensures { IsTrue result ↔ IsGoodTest name.now }
{
    !name.contains(&b'\n') && name.last() != Some(&b'\r')
}

/// Whether `name` can be a file's or a function's name: not empty, no line feed, and no carriage return at the end.
pub(crate) fn good_name(name: &[u8]) -> bool
    ensures { IsTrue result ↔ IsGoodName name.now }
{
    good_test(name) && !name.is_empty()
}

/// Whether a line can have this checksum: one or more bytes, none of them a comma, space, tab, carriage return or line feed.
pub fn good_checksum(checksum: &[u8]) -> bool
    ensures { IsTrue result ↔ IsChecksum checksum.now }
{
    !checksum.is_empty() && checksum.iter().all(|&byte| is_checksum_byte(byte))
}

/// Whether a checksum may contain this byte.
pub fn is_checksum_byte(byte: u8) -> bool
    ensures { IsTrue result ↔ IsChecksumByte byte }
{
    byte > b',' || !matches!(byte, b',' | b' ' | b'\t' | b'\r' | b'\n')
}
