//! Wraps calls of other crates in functions without `ensures` clauses. A measurement doesn't need such clauses, and is proved
//! faster without them.

ghost use Rattle.std.specs.Prelude.{◌≡◌};

use covbook::{BookFault, Op, SubRef};
use covdata::{Memory, ReadFault, Submission};
use covjobs::{Done, Live, Name, ReaderFault, Seat, Seats, Shared, Start};
use covread::read_trace;
use covreport::Table;
use std::alloc::Allocator;
use std::sync::Wait;

pub(crate) fn read<A: Allocator + Copy>(alloc: A, text: &[u8]) -> Result<Submission<A>, ReadFault> {
    read_trace(alloc, text)
}

/// Makes the submission shareable, as an operation needs it.
pub(crate) fn shared<A: Allocator + Copy>(
    alloc: A,
    given: Submission<A>,
) -> Result<SubRef<A>, Memory> {
    SubRef::of(alloc, given)
}

pub(crate) fn open_book<L: Name, A: Allocator + Copy, T: Table<A>>(
    alloc: A,
    start: Start<A>,
) -> Result<(Shared<L, A, T>, Seats<L, A>), Memory>
    requires name { start.name ≡ L.name }
    requires jobs { start.jobs ≡ L.parts }
    requires book { start.book ≡ L.book }
{
    covjobs::open_book::<L, A, T>(alloc, start)
}

pub(crate) fn reader<L: Name, A: Allocator + Copy, R: Wait, T: Table<A>>(
    rt: &R,
    book: &Shared<L, A, T>,
) -> Result<Live<L, A>, ReaderFault> {
    book.reader(rt)
}

pub(crate) fn perform<L: Name, A: Allocator + Copy, R: Wait, T: Table<A>>(
    rt: &R,
    alloc: A,
    book: &Shared<L, A, T>,
    seat: &mut Seat<L, A>,
    op: &Op<A>,
) -> Result<Done<L, A>, BookFault> {
    book.perform(rt, alloc, seat, op)
}
