//! Opens books with a lock over a `Store`.

ghost use Rattle.std.specs.Prelude.{◌≡◌, IfOk};
ghost use Rattle.covlock.specs.Seat.{first_seats};

use crate::Shared;
use covbook::{Entry, Keep};
use covdata::Memory;
use covlock::{Name, Seats, Start};
use covstore::Store;
use std::alloc::Allocator;

/// Opens an empty book, as `covlock::open_book` does.
pub fn open_book<L: Name, A: Allocator + Copy>(
    alloc: A,
    start: Start<A>,
) -> Result<(Shared<L, A>, Seats<L, A>), Memory>
    requires name { start.name ≡ L.name }
    requires jobs { start.jobs ≡ L.parts }
    requires book { start.book ≡ L.book }
    ensures jobs { IfOk result (λ r. r.0.jobs ≡ start.jobs) }
    ensures seats { IfOk result (λ r. r.1 ≡ first_seats start.jobs) }
{
    covlock::open_book::<L, A, Store<A>>(alloc, start)
}

/// Like `open_book`, but the book stores only the `K` part of each entry, as with `covlock::open_book_keeping`.
pub fn open_book_keeping<L: Name, A: Allocator + Copy, K: Keep<Of = Entry<A>>>(
    alloc: A,
    start: Start<A>,
) -> Result<(Shared<L, A, K>, Seats<L, A>), Memory>
    requires name { start.name ≡ L.name }
    requires jobs { start.jobs ≡ L.parts }
    requires book { start.book ≡ L.book }
    ensures jobs { IfOk result (λ r. r.0.jobs ≡ start.jobs) }
    ensures seats { IfOk result (λ r. r.1 ≡ first_seats start.jobs) }
{
    covlock::open_book_keeping::<L, A, Store<A>, K>(alloc, start)
}
