//! Builds the text of a record in a buffer, so that a record is printed in few pieces.

ghost use Rattle.std.specs.Prelude.{◌≡◌, ◌+◌, ◌<◌, ◌≤◌, ◌++◌, [], ◌∷◌, codes, decimal, length};
ghost use Rattle.covdata.specs.Delimiters.{comma, line_feed};
ghost use Rattle.covdata.specs.Printed.{printed, taken_text};
ghost use Rattle.covdata.specs.Records.{Branch, Total};

use crate::point::BranchPoint;
use crate::trace_line::TotalKind;
use itoa::{Buffer, write_digits};
use std::marker::Model;

/// The capacity in bytes. A record has at most a key of 5 bytes, three numbers of 64 bits, one number of 128 bits, and a byte after
/// each number.
const ROOM: usize = 112;

/// A record, or its beginning up to a name or a checksum. It is built from its last byte to its first. Contracts see the bytes.
#[derive(Drop)]
pub struct RecordBuffer {
    bytes: [u8; ROOM],
    start: usize,
    ghost within: { start ≤ 112 },
}

impl Model for RecordBuffer {
    ghost use Rattle.std.specs.Prelude.{List, ℕ, drop};

    ghost Value = { List ℕ };

    ghost view = { λ buffer. drop buffer.start buffer.bytes };
}

impl RecordBuffer {
    /// An empty buffer.
    #[inline]
    pub fn new() -> RecordBuffer
        ensures { result ≡ [] }
    {
        RecordBuffer {
            bytes: [0; ROOM],
            start: ROOM,
        }
    }

    /// The bytes.
    #[inline]
    pub fn get(&self) -> &[u8]
        ensures { result.now ≡ self.now }
    {
        &self.bytes[self.start..]
    }

    /// Replaces the content by `key`, `number` and a comma, the beginning of a function's record. The name comes next.
    #[inline]
    pub fn write_named(&mut self, key: &[u8], number: u128)
        requires { length key.now ≤ 5 }
        ensures { self.new ≡ key.now ++ decimal number ++ comma ∷ [] }
    {
        self.begin(b',');
        self.put_count(number);
        self.put_text(key);
    }

    /// Replaces the content by a `BRDA` record: a branch, and how often it was taken.
    #[inline]
    pub fn write_branch(&mut self, branch: BranchPoint, taken: Option<u128>)
        ensures { self.new ≡ printed (Branch branch.line branch.block branch.branch taken) }
    {
        self.begin_taken(taken);
        self.put_field(branch.branch);
        self.put_field(branch.block);
        self.put_field(branch.line);
        self.put_text(b"BRDA:");
    }

    /// Replaces the content by a `DA` record up to its count: the key, the line, the count, and the byte `end`.
    #[inline]
    pub fn write_line_count(&mut self, line: u64, count: u128, end: u8)
        ensures { self.new ≡ codes "DA:" ++ decimal line ++ comma ∷ decimal count ++ end ∷ [] }
    {
        self.begin(end);
        self.put_count(count);
        self.put_field(line);
        self.put_text(b"DA:");
    }

    /// Replaces the content by the record of a total.
    #[inline]
    pub fn write_total(&mut self, kind: TotalKind, value: u64)
        ensures { self.new ≡ printed (Total kind value) }
    {
        self.begin(b'\n');
        self.put_number(value);
        self.put_text(kind.key());
    }

    /// Replaces the content by the end of a `BRDA` record: how often the branch was taken (`-` for `None`), and a line feed.
    #[inline]
    fn begin_taken(&mut self, taken: Option<u128>)
        ensures text { self.new ≡ taken_text taken ++ line_feed ∷ [] }
        ensures size { length self.new ≤ 40 }
    {
        self.begin(b'\n');
        match taken {
            Some(taken) => self.put_count(taken),
            None => self.put(b'-'),
        }
    }

    /// Replaces the content by the last byte of a record.
    #[inline]
    fn begin(&mut self, last: u8)
        ensures { self.new ≡ last ∷ [] }
    {
        self.start = ROOM;
        self.put(last);
    }

    /// Prepends a byte.
    #[inline]
    fn put(&mut self, byte: u8)
        requires { length self.old < 112 }
        ensures { self.new ≡ byte ∷ self.old }
    {
        self.start -= 1;
        self.bytes[self.start] = byte;
    }

    /// Prepends a text.
    #[inline]
    fn put_text(&mut self, text: &[u8])
        requires { length text.now + length self.old ≤ 112 }
        ensures { self.new ≡ text.now ++ self.old }
    {
        let end = self.start;
        self.start -= text.len();
        self.bytes[self.start..end].copy_from_slice(text);
    }

    /// Prepends a number in decimal.
    #[inline]
    fn put_number(&mut self, number: u64)
        requires { length self.old + 20 ≤ 112 }
        ensures text { self.new ≡ decimal number ++ self.old }
        ensures size { length self.new ≤ length self.old + 20 }
    {
        self.start = write_digits(number, &mut self.bytes, self.start);
    }

    /// Prepends a number of 128 bits in decimal.
    #[inline]
    fn put_count(&mut self, count: u128)
        requires { length self.old + 39 ≤ 112 }
        ensures text { self.new ≡ decimal count ++ self.old }
        ensures size { length self.new ≤ length self.old + 39 }
    {
        match u64::try_from(count) {
            Ok(number) => self.put_number(number),
            Err(_) => self.put_text(Buffer::new().format(count).as_bytes()),
        }
    }

    /// Prepends a number and a comma.
    #[inline]
    fn put_field(&mut self, number: u64)
        requires { length self.old + 21 ≤ 112 }
        ensures text { self.new ≡ decimal number ++ comma ∷ self.old }
        ensures size { length self.new ≤ length self.old + 21 }
    {
        self.put(b',');
        self.put_number(number);
    }
}
