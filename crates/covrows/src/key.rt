//! A file and a test: the key of a section.

/// A file and a test. Keys are ordered by file and then by test, both byte by byte.
#[derive(Clone, Copy, PartialEq, Eq, PartialOrd, Ord, Drop)]
pub(crate) struct Key<'s> {
    pub(crate) file: &'s [u8],
    pub(crate) test: &'s [u8],
}
