//! Prints texts piece by piece.

use super::check_bytes;
use super::choices::{FIRST, GIVEN};
use super::held::store_of;
use covdata::{Bytes, Memory};
use covreport::{Choice, Noted, Printer, Printing};
use covstore::Store;
use std::alloc::Global;
use std::process::Abort;
use std::test::*;

/// A printer that stores the pieces, and wants no more after `most` bytes.
#[derive(Drop)]
struct Pieces {
    text: Bytes,
    most: usize,
    wants_more: bool,
    put: Noted,
}

impl Printer for Pieces {
    ghost text = { λ p. p.put.bytes };

    ghost is_open = { λ p. p.wants_more };

    fn put(&mut self, piece: &[u8]) {
        let is_kept = self.text.append(piece).is_ok();
        self.wants_more = is_kept && self.text.get().len() < self.most;
        self.put = self.put.and(piece);
    }

    fn is_open(&self) -> bool {
        self.wants_more
    }
}

/// A printer that wants no more after `most` bytes.
fn printer(alloc: Global, most: usize) -> Pieces {
    Pieces {
        text: Bytes::new(alloc),
        most,
        wants_more: true,
        put: Noted::none(),
    }
}

/// Prints the chosen files to a printer that wants no more after `most` bytes.
fn printed(alloc: Global, store: &Store, choice: Choice, most: usize) -> Result<Pieces, Memory> {
    let printing = Printing::of_store(alloc, store, choice)?;
    let mut pieces = printer(alloc, most);
    printing.print(&mut pieces);
    Ok(pieces)
}

/// Checks the text of the chosen files in a printer that wants no more after `most` bytes.
pub(super) fn check_printed(
    rt: &(impl Abort + AllocGlobal),
    store: &Store,
    choice: Choice,
    most: usize,
    wanted: &[u8],
) {
    match printed(rt.alloc(), store, choice, most) {
        Ok(pieces) => check_bytes(rt, pieces.text.get(), wanted),
        Err(_refused) => panic!(rt; "out of memory"),
    }
}

/// The report of the first section.
const SECTION: &[u8] =
    b"TN:t\nSF:/a.c\nFN:2,g\nFN:9,f\nFNDA:3,g\nFNDA:0,f\nFNF:2\nFNH:1\nBRDA:4,0,0,-\nBRDA:4,0,1,2\nBRF:2\nBRH:1\nDA:4,1,sum\nDA:5,0\nLF:2\nLH:1\nend_of_record\n";

/// A printer that wants no more gets the rest of the current section, and no other section.
#[test]
fn a_printer_that_wants_no_more(rt: HostRuntime) -> Result<(), Fail> {
    let store = store_of(&rt, GIVEN)?;
    check_printed(&rt, &store, Choice::All, 20, SECTION);
    check_printed(&rt, &store, Choice::All, SECTION.len() + 1, FIRST);
    Ok(())
}

/// Prints a text that is there already.
fn printed_text(alloc: Global, text: Bytes) -> Pieces {
    let mut pieces = printer(alloc, 1);
    let printing: Printing<'_, Global, Store> = Printing::of_text(text);
    printing.print(&mut pieces);
    pieces
}

#[test]
fn a_text_that_is_there(rt: HostRuntime) -> Result<(), Fail> {
    let text = Bytes::of(rt.alloc(), b"some text\n")?;
    let pieces = printed_text(rt.alloc(), text);
    check_bytes(&rt, pieces.text.get(), b"some text\n");
    Ok(())
}
