//! The number of jobs.

ghost use Rattle.std.specs.Prelude.{None};
ghost use Rattle.covcombine.specs.Options.{AreJobsFor};

use std::thread::{Threads, available_parallelism};

/// The greatest number of jobs if the command line names none.
const MOST_OWN_JOBS: usize = 16;

/// The number of jobs for this number of files: `named` if the command line has one.
pub(crate) fn jobs_for<R: Threads>(rt: &R, named: Option<u32>, files: usize) -> u32
    ensures { AreJobsFor named result }
{
    match named {
        Some(jobs) => jobs,
        None => own_jobs(rt, files),
    }
}

/// As many jobs as there are processors, but at most 16, and at most one for each file.
fn own_jobs<R: Threads>(rt: &R, files: usize) -> u32
    ensures { AreJobsFor None result }
{
    let processors = match available_parallelism(rt) {
        Ok(count) => count.get(),
        Err(_) => 1,
    };
    processors.min(files).min(MOST_OWN_JOBS).max(1) as u32
}
