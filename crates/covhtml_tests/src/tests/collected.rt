//! A printer that stores what is printed.

use super::check_bytes;
use covdata::Bytes;
use covreport::{Noted, Printer};
use std::alloc::Global;
use std::process::Abort;
use std::test::*;

/// A printer that stores the pieces.
#[derive(Drop)]
pub(super) struct Collected {
    text: Bytes,
    is_whole: bool,
    put: Noted,
}

impl Printer for Collected {
    ghost text = { λ c. c.put.bytes };

    ghost is_open = { λ c. c.is_whole };

    fn put(&mut self, piece: &[u8]) {
        let is_kept = self.text.append(piece).is_ok();
        self.is_whole = self.is_whole && is_kept;
        self.put = self.put.and(piece);
    }

    fn is_open(&self) -> bool {
        self.is_whole
    }
}

impl Collected {
    /// A printer that has stored nothing.
    pub(super) fn new(alloc: Global) -> Collected {
        Collected {
            text: Bytes::new(alloc),
            is_whole: true,
            put: Noted::none(),
        }
    }

    /// Checks all that was printed.
    pub(super) fn check(&self, rt: &impl Abort, wanted: &[u8]) {
        assert!(rt; self.is_whole, "out of memory");
        check_bytes(rt, self.text.get(), wanted);
    }

    /// Checks that `wanted`, which must not be empty, is a part of what was printed.
    pub(super) fn check_part(&self, rt: &impl Abort, wanted: &[u8]) {
        let text = self.text.get();
        assert!(rt; self.is_whole, "out of memory");
        assert!(rt; !wanted.is_empty(), "nothing to look for");
        assert!(rt;
            text.windows(wanted.len()).any(|part| part == wanted),
            "another page"
        );
    }
}
