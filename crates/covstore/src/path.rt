//! Paths of source files, and their order.

ghost use Rattle.std.specs.Prelude.{◌≡◌, ◌+◌, ◌≤◌, IfOk, Some, drop, length, nat_eq, refl, take};
ghost use Rattle.std.specs.Cmp.{on_equiv, on_po, on_total, partial_equiv_from_equiv};
ghost use Rattle.std.specs.Cmp.Lexicographic.{nat_list_cmp_total, nat_list_eq_equiv, pointwise, slice_cmp, texts_po, texts_ties};
ghost use Rattle.std.specs.Int.{from_be_bytes, w64};
ghost use Rattle.std.specs.Ordering.{nat_cmp};

use std::alloc::{AllocError, Allocator};
use std::cmp::Ordering;
use std::marker::Model;

/// The path of a source file. Paths are ordered byte by byte, like slices of bytes, but paths with a long common prefix compare
/// faster. Contracts see the vector of the bytes.
#[derive(Drop)]
pub(crate) struct Path<A: Allocator> {
    bytes: Vec<u8, A>,
}

impl<A: Allocator> Model for Path<A> {
    ghost use Rattle.std.specs.Prelude.{Vec, ℕ};

    ghost Value = { Vec ℕ A };

    ghost view = { λ path. path.bytes };
}

impl<A: Allocator> Path<A> {
    /// Copies the bytes into a new path.
    pub(crate) fn from_slice(alloc: A, bytes: &[u8]) -> Result<Path<A>, AllocError>
        ensures items { IfOk result (λ path. path.items ≡ bytes.now) }
    {
        let bytes = Vec::from_slice(alloc, bytes)?;
        Ok(Path { bytes })
    }

    /// The bytes of the path.
    pub(crate) fn as_slice(&self) -> &[u8]
        ensures value { result.now ≡ self.now.items }
    {
        self.bytes.as_slice()
    }
}

impl<A: Allocator> PartialEq for Path<A> {
    ghost eq = { λ x y. pointwise nat_eq x.items y.items };

    ghost laws = { partial_equiv_from_equiv (on_equiv (λ path. path.items) nat_list_eq_equiv) };

    fn eq(&self, other: &Self) -> bool {
        self.as_slice() == other.as_slice()
    }
}

impl<A: Allocator> Eq for Path<A> {
    ghost laws = { on_equiv (λ path. path.items) nat_list_eq_equiv };
}

impl<A: Allocator> PartialOrd for Path<A> {
    ghost partial_cmp = { λ x y. Some (slice_cmp nat_cmp x.items y.items) };

    ghost laws = { on_po (λ path. path.items) texts_po };

    fn partial_cmp(&self, other: &Self) -> Option<Ordering> {
        Some(self.cmp(other))
    }
}

impl<A: Allocator> Ord for Path<A> {
    ghost cmp = { λ x y. slice_cmp nat_cmp x.items y.items };

    ghost total = { on_total (λ path. path.items) nat_list_cmp_total };

    ghost matches_partial_cmp = { λ x y. refl };

    ghost matches_eq = { λ x y. texts_ties x.items y.items };

    fn cmp(&self, other: &Self) -> Ordering {
        order_bytes(self.as_slice(), other.as_slice())
    }
}

/// Compares two paths or function names by their bytes. Takes eight bytes at a time, as one number, since paths of a source tree
/// often begin alike, and so do function names.
pub(crate) fn order_bytes(a: &[u8], b: &[u8]) -> Ordering
    ensures { result ≡ slice_cmp nat_cmp a.now b.now }
{
    let both = a.len().min(b.len());
    let mut at = 0;
    while at + 8 <= both {
        let first = word_at(a, at);
        let second = word_at(b, at);
        if first != second {
            return first.cmp(&second);
        }
        at += 8;
    }
    order_rest(a, b, at)
}

/// Reads the eight bytes from index `at` on as one big-endian number. `bytes` must have that many.
fn word_at(bytes: &[u8], at: usize) -> u64
    requires { at + 8 ≤ length bytes.now }
    ensures { result ≡ from_be_bytes w64 (take 8 (drop at bytes.now)) }
{
    // The constant length of this slice lets the compiler load all eight bytes at once.
    let word = &bytes[at..at + 8];
    u64::from_be_bytes([
        word[0], word[1], word[2], word[3], word[4], word[5], word[6], word[7],
    ])
}

/// Compares the bytes of two texts from index `start` on.
fn order_rest(a: &[u8], b: &[u8], start: usize) -> Ordering
    requires { (start ≤ length a.now) × (start ≤ length b.now) }
    ensures { result ≡ slice_cmp nat_cmp (drop start a.now) (drop start b.now) }
{
    let both = a.len().min(b.len());
    let mut at = start;
    while at < both {
        if a[at] != b[at] {
            return a[at].cmp(&b[at]);
        }
        at += 1;
    }
    a.len().cmp(&b.len())
}
