//! How much is read, counted by all threads.

use std::sync::Wait;
use std::sync::atomic::{AtomicBool, AtomicU64, Ordering};
use std::thread::Parker;

/// How much of a call's files is read. All threads of the call share it.
#[derive(Drop)]
pub(crate) struct Counts {
    /// How many files are opened.
    files: AtomicU64,
    /// How many bytes are read.
    bytes: AtomicU64,
    /// How many files there are.
    all_files: AtomicU64,
    /// How many bytes they have, as far as this is known.
    all_bytes: AtomicU64,
    /// When reading began, in milliseconds of the clock.
    begun: AtomicU64,
    /// Wakes the thread that waits until reading begins.
    has_begun: Parker,
    /// Whether all is read.
    is_over: AtomicBool,
    /// Whether the line is being written.
    is_writing: AtomicBool,
}

/// How much is read at a moment.
#[derive(Clone, Copy)]
pub(crate) struct Moment {
    /// How many files are opened, of how many.
    pub(crate) files: u64,
    pub(crate) all_files: u64,
    /// How many bytes are read, of how many.
    pub(crate) bytes: u64,
    pub(crate) all_bytes: u64,
    /// How many milliseconds have passed since reading began.
    pub(crate) millis: u64,
}

impl Counts {
    /// Nothing is read, of no files.
    pub(crate) fn new() -> Counts {
        Counts {
            files: AtomicU64::new(0),
            bytes: AtomicU64::new(0),
            all_files: AtomicU64::new(0),
            all_bytes: AtomicU64::new(0),
            begun: AtomicU64::new(0),
            has_begun: Parker::new(),
            is_over: AtomicBool::new(false),
            is_writing: AtomicBool::new(false),
        }
    }

    /// Says how much is to be read, and when reading begins. Wakes the thread that waits for this.
    pub(crate) fn begin(&self, files: u64, bytes: u64, millis: u64) {
        self.all_files.store(files, Ordering::SeqCst);
        self.all_bytes.store(bytes, Ordering::SeqCst);
        self.begun.store(millis, Ordering::SeqCst);
        self.has_begun.unpark();
    }

    /// Waits until reading begins. At most one thread may wait.
    pub(crate) fn wait_for_begin<R: Wait>(&self, rt: &R) {
        self.has_begun.park(rt);
    }

    /// Counts a file that is opened.
    pub(crate) fn add_file(&self) {
        self.files.fetch_add(1, Ordering::Relaxed);
    }

    /// Counts bytes that are read.
    pub(crate) fn add_bytes(&self, bytes: u64) {
        self.bytes.fetch_add(bytes, Ordering::Relaxed);
    }

    /// How much is read now.
    pub(crate) fn now(&self, millis: u64) -> Moment {
        Moment {
            files: self.files.load(Ordering::Relaxed),
            all_files: self.all_files.load(Ordering::SeqCst),
            bytes: self.bytes.load(Ordering::Relaxed),
            all_bytes: self.all_bytes.load(Ordering::SeqCst),
            millis: millis.saturating_sub(self.begun.load(Ordering::SeqCst)),
        }
    }

    /// Asks to write the line. Returns false if all is read; then the line must not be written. Otherwise `wrote` has to follow.
    pub(crate) fn may_write(&self) -> bool {
        self.is_writing.store(true, Ordering::SeqCst);
        if self.is_over.load(Ordering::SeqCst) {
            self.is_writing.store(false, Ordering::SeqCst);
            return false;
        }
        true
    }

    /// Says that the line is written.
    pub(crate) fn wrote(&self) {
        self.is_writing.store(false, Ordering::SeqCst);
    }

    /// Says that all is read. The line isn't begun again.
    pub(crate) fn end(&self) {
        self.is_over.store(true, Ordering::SeqCst);
    }

    /// Whether the line is being written.
    pub(crate) fn is_writing(&self) -> bool {
        self.is_writing.load(Ordering::SeqCst)
    }
}
