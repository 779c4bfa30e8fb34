//! Tests of a publisher and its readers. The entries are those of a book over covstore's `Store`.

ghost use Rattle.std.specs.Prelude.{◌≡◌, ◌<◌, []};

use covbook::{Book, Op};
use covnews::{HistorySeed, Live, Name, News, Publisher};
use covreport::Table;
use covstore::Store;
use linked_list_allocator::LocalHeap;
use std::alloc::{AllocGlobal, Allocator, Global};
use std::marker::Brand;
use std::process::Abort;
use std::sync::Wait;
use std::test::*;
use std::thread::{Threads, join};

fn opened<L: Name, A: Allocator + Copy>(
    rt: &impl Abort,
    alloc: A,
    seed: HistorySeed,
    readers: u32,
) -> Publisher<L, A>
    requires book { seed.book ≡ L.book }
    requires readers { 0 < readers }
    ensures { result.noted ≡ [] }
{
    match Publisher::new(alloc, seed, readers) {
        Ok(publisher) => publisher,
        Err(_refused) => panic!(rt; "no publisher"),
    }
}

fn reader<L: Name, A: Allocator>(rt: &impl Abort, publisher: &mut Publisher<L, A>) -> Live<L, A>
    ensures { publisher.new.noted ≡ publisher.old.noted }
{
    match publisher.reader() {
        Ok(live) => live,
        Err(_fault) => panic!(rt; "no reader"),
    }
}

/// Performs one step of the book, notes its entry and publishes it.
fn step<L: Name, R: Wait + Abort, T: Table<Global>>(
    rt: &R,
    alloc: Global,
    book: &mut Book<Global, T>,
    publisher: &mut Publisher<L>,
) -> News<L>
    requires { publisher.old.noted ≡ book.old.entries }
    ensures { publisher.new.noted ≡ book.new.entries }
{
    let Ok(ready) = book.ready(alloc, 0, &Op::Summary) else {
        panic!(rt; "no step");
    };
    let Some(_noted) = publisher.note(ready.entry()) else {
        panic!(rt; "other entries");
    };
    book.finish(ready);
    publisher.publish(rt)
}

/// Checks that the reader reports `upto` entries.
fn check_upto<L: Name, A: Allocator>(rt: &impl Abort, live: &mut Live<L, A>, upto: u64) {
    assert_eq!(rt; live.totals().upto, upto);
}

/// Checks that making one more reader fails with `NoPlace`.
fn check_no_place<L: Name, A: Allocator>(rt: &impl Abort, publisher: &mut Publisher<L, A>)
    ensures { publisher.new.noted ≡ publisher.old.noted }
{
    match publisher.reader() {
        Ok(_live) => panic!(rt; "a reader more"),
        Err(fault) => assert_eq!(rt; fault.number(), 1),
    }
}

/// Checks three readers. `early` reports published entries without learning news. `late` begins with what was published before it
/// was made. `asleep` first reads after the close, and reports no entries until it learns news.
fn follow<L: Name, R: Wait + Abort, T: Table<Global>>(rt: &R, alloc: Global, seed: HistorySeed)
    requires { seed.book ≡ L.book }
{
    let mut publisher = opened::<L, Global>(rt, alloc, seed, 3);
    let mut book: Book<Global, T> = Book::new(alloc);
    let mut early = reader(rt, &mut publisher);
    let mut asleep = reader(rt, &mut publisher);
    check_upto(rt, &mut early, 0);
    step(rt, alloc, &mut book, &mut publisher);
    step(rt, alloc, &mut book, &mut publisher);
    check_upto(rt, &mut early, 2);
    drop(early);
    let mut late = reader(rt, &mut publisher);
    check_no_place(rt, &mut publisher);
    let news = publisher.close(rt);
    check_upto(rt, &mut late, 2);
    check_upto(rt, &mut asleep, 0);
    asleep.learn(&news);
    check_upto(rt, &mut asleep, 2);
}

#[test]
fn readers_follow(rt: HostRuntime) -> Result<(), Fail> {
    follow::<Brand, _, Store>(&rt, rt.alloc(), HistorySeed::new());
    Ok(())
}

/// Fills the heap, and returns the blocks that fill it.
fn fill<A: Allocator + Copy, R: Abort + AllocGlobal>(rt: &R, alloc: A) -> Vec<Vec<u8, A>> {
    let mut blocks = Vec::new(rt.alloc());
    for _ in 0..10_000 {
        let Ok(block) = vec![in alloc; 0u8; 64] else {
            return blocks;
        };
        if blocks.push(block).is_err() {
            panic!(rt; "no memory");
        }
    }
    panic!(rt; "the heap has room left")
}

/// The publisher publishes even if no memory is left. After the publisher is dropped, its reader still sees what was published.
fn publish_without_room<L: Name, A: Allocator + Copy, R: Wait + Abort + AllocGlobal>(
    rt: &R,
    alloc: A,
    seed: HistorySeed,
)
    requires { seed.book ≡ L.book }
{
    let mut publisher = opened::<L, A>(rt, alloc, seed, 2);
    let mut live = reader(rt, &mut publisher);
    let blocks = fill(rt, alloc);
    for _ in 0..100 {
        publisher.publish(rt);
    }
    drop(blocks);
    drop(publisher);
    check_upto(rt, &mut live, 0);
}

#[test]
fn publishing_takes_no_memory(rt: HostRuntime) -> Result<(), Fail> {
    let heap = LocalHeap::new(rt.alloc(), 100_000)?;
    publish_without_room::<Brand, _, _>(&rt, &heap, HistorySeed::new());
    Ok(())
}

/// Performs a hundred steps of a new book, publishes each, and closes the publisher.
fn step_often<L: Name, R: Wait + Abort, T: Table<Global>>(
    rt: &R,
    alloc: Global,
    mut publisher: Publisher<L>,
) -> News<L>
    requires { publisher.noted ≡ [] }
{
    let mut book: Book<Global, T> = Book::new(alloc);
    for _ in 0..100 {
        step(rt, alloc, &mut book, &mut publisher);
    }
    publisher.close(rt)
}

/// Reads a thousand times, and checks that no reading has fewer entries than the one before.
fn read_often<L: Name>(rt: &impl Abort, mut live: Live<L>) -> Live<L> {
    let mut seen = 0;
    for _ in 0..1000 {
        let upto = live.totals().upto;
        assert!(rt; seen <= upto && upto <= 100);
        seen = upto;
    }
    live
}

/// One thread publishes while another reads.
fn read_meanwhile<L: Name + Send + Sync, R: Threads + Wait + Abort + Sync>(
    rt: &R,
    alloc: Global,
    seed: HistorySeed,
)
    requires { seed.book ≡ L.book }
{
    let mut publisher = opened::<L, Global>(rt, alloc, seed, 64);
    let live = reader(rt, &mut publisher);
    let (news, mut live) = join(
        rt,
        move || -> News<L>
            requires { publisher.noted ≡ [] }
        { step_often::<L, R, Store>(rt, alloc, publisher) },
        move || read_often(rt, live),
    );
    live.learn(&news);
    check_upto(rt, &mut live, 100);
}

#[test]
fn readings_rise(rt: HostRuntime) -> Result<(), Fail> {
    read_meanwhile::<Brand, _>(&rt, rt.alloc(), HistorySeed::new());
    Ok(())
}
