//! The thread that shows how much is read.

use crate::counts::Counts;
use crate::line::line_at;
use std::alloc::{AllocGlobal, Global};
use std::io::Write;
use std::sync::{Arc, Wait};
use std::thread;
use std::thread::Threads;
use std::time::{Clock, Duration};

/// How long the line stays as it is, at least, in milliseconds.
const PAUSE: u64 = 200;

/// Starts the thread that shows the line, and returns the counts that it shows. The thread ends when all is read, or with the
/// process. Returns `None` if memory runs out or no thread can be made.
pub(crate) fn started<
    R: Clock + Threads + Wait + AllocGlobal + Copy + Drop + Send + 'static,
    T: Write + Copy + Drop + Send + 'static,
>(rt: R, terminal: T) -> Option<Arc<Counts, Global>> {
    let counts = Arc::new(rt.alloc(), Counts::new()).ok()?;
    let shared = Arc::try_clone(&counts).ok()?;
    match thread::spawn(&rt, move || show(rt, terminal, shared)) {
        Ok(_) => Some(counts),
        Err(_) => None,
    }
}

/// Waits until reading begins. Then writes the line again and again until all is read. A failed write changes nothing.
fn show<R: Clock + Wait + AllocGlobal + Drop, T: Write + Drop>(
    rt: R,
    terminal: T,
    counts: Arc<Counts, Global>,
) {
    let mut terminal = terminal;
    counts.wait_for_begin(&rt);
    for _ in 0..u64::MAX {
        thread::sleep(&rt, Duration::from_millis(PAUSE));
        if !counts.may_write() {
            return;
        }
        if let Ok(line) = line_at(rt.alloc(), counts.now(millis_of(&rt))) {
            let _ = terminal.write(line.get());
        }
        counts.wrote();
    }
}

/// The time of the clock in milliseconds; 0 without a clock.
pub(crate) fn millis_of<R: Clock>(rt: &R) -> u64 {
    match rt.monotonic() {
        Ok(time) => time
            .as_secs()
            .saturating_mul(1000)
            .saturating_add(u64::from(time.subsec_millis())),
        Err(_) => 0,
    }
}
