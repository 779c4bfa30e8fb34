//! Sources that count what is read of them.

use crate::counts::Counts;
use covstream::{Failed, Source};
use std::alloc::Global;
use std::sync::Arc;

/// A source that adds the bytes that are read of it to the counts of a call, if there are any.
#[derive(Drop)]
pub struct Counted<S: Source> {
    source: S,
    counts: Option<Arc<Counts, Global>>,
}

impl<S: Source> Counted<S> {
    ghost use Rattle.std.specs.Prelude.{◌≡◌};

    /// Counts what is read of `source`.
    pub(crate) fn new(source: S, counts: Option<Arc<Counts, Global>>) -> Counted<S>
        ensures { result.source ≡ source }
    {
        Counted { source, counts }
    }
}

impl<S: Source> Source for Counted<S> {
    ghost left = { λ c. S.left c.source };

    ghost reads = { λ c. S.reads c.source };

    ghost failed_reads = { λ c. S.failed_reads c.source };

    fn read(&mut self, buffer: &mut [u8]) -> Result<usize, Failed> {
        match self.source.read(buffer) {
            Ok(got) => {
                if let Some(counts) = &self.counts {
                    counts.add_bytes(got as u64);
                }
                Ok(got)
            }
            Err(failed) => Err(failed),
        }
    }
}
