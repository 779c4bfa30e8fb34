//! A text that is ready to be printed.

use crate::block::Block;
use crate::block_printer::print_text;
use covreport::{Printing, Table};
use covsession::SessionFault;
use covstream::Sink;
use std::alloc::{AllocError, Global};
use std::marker::Model;

/// A text that is ready to be printed: all memory for printing it is reserved. Contracts see the text.
#[derive(Drop)]
pub struct ReadyText<'s, T: Table<Global>> {
    text: Printing<'s, Global, T>,
    // The empty buffer that printing uses.
    block: Block,
}

impl<'s, T: Table<Global>> Model for ReadyText<'s, T> {
    ghost use Rattle.std.specs.Prelude.{◌≡◌, [], ℕ, List};

    ghost Value = { List ℕ };

    ghost view = { λ t. t.text };

    ghost invariant = { λ t. t.block ≡ [] };
}

impl<'s, T: Table<Global>> ReadyText<'s, T> {
    ghost use Rattle.std.specs.Prelude.{◌≡◌, ◌<◌, ◌^◌, [], IfOk, IfErr, OnOk, OnErr, suc};
    ghost use Rattle.std.specs.Io.KnownBytes.{Appends};
    ghost use Rattle.covsession.specs.Fault.{HasBegun};
    ghost use Rattle.covsession.specs.declared.session.fault.SessionFault.TheVariants as session_faults;

    /// Reserves all memory for printing `text`.
    pub fn of(alloc: Global, text: Printing<'s, Global, T>) -> Result<ReadyText<'s, T>, AllocError>
        ensures { IfOk result (λ ready. ready ≡ text.entry) }
    {
        let block = Block::new(alloc)?;
        Ok(ReadyText { text, block })
    }

    /// The text, and the empty buffer that printing uses.
    pub(crate) fn into_parts(self) -> (Printing<'s, Global, T>, Block)
        ensures text { result.0 ≡ self.entry }
        ensures empty { result.1 ≡ [] }
    {
        (self.text, self.block)
    }

    /// Prints the text and flushes the output. Never allocates.
    pub(crate) fn print<O: Sink>(self, output: &mut O) -> Result<(), SessionFault>
        requires { O.failed_writes output.old < 2 ^ 62 }
        ensures written { OnOk result (Appends (O.written output.old) (O.written output.new) self.entry) }
        ensures sent { OnOk result (O.held output.new ≡ 0) }
        ensures good { OnOk result (O.failed_writes output.new ≡ O.failed_writes output.old) }
        ensures failed { OnErr result (O.failed_writes output.new ≡ suc (O.failed_writes output.old)) }
        ensures begun { OnErr result (HasBegun (O.written output.old) (O.written output.new) self.entry) }
        ensures fault { IfErr result (λ fault. fault ≡ session_faults.Write) }
    {
        print_text(self.text, self.block, output)
    }
}
