//! The program as a function: command line, files and streams in, exit status out.
//!
//! `run` parses the command line (covcommand) and makes a `Task` of the command. The task is a session (covsession) if there is no
//! subcommand. `check` reads and reports each file by itself (`checked`, `file_report`), several at once if there are several jobs.
//! `combine` is a crate of its own, covcombine. `html` collects like `list`, and writes the pages of covpages (`pages`).
//! Any other subcommand is `Work`: covworkers collects the files in a book, and a job reads a file when the file's turn comes
//! (`FileInput`). So at most one file's content per job is in memory. The result of collecting is a `ReadyAnswer` or a `Failure`,
//! which is reported by an exit status and on the two output streams. An answer goes from the book to the output in blocks while it
//! is made, or into the file that `--output` names. All memory for printing is reserved before the first byte is written.
//!
//! A run reads files from a `Folder` and changes a `World`. The crate covworld has both, and `FromFiles` and `IntoFiles`, the file
//! system of std.
//!
//! No function names a store: all are generic over covreport's `Table`. A sketch: the program's main function.
//!
//! ```text
//! fn main(rt: HostRuntime) -> ExitCode {
//!     let mut world = World {
//!         files: IntoFiles::new(&rt),
//!         input: FromRead::new(rt.reader()),
//!         sinks: Sinks {
//!             output: FromWrite::new(io::writer(&rt)),
//!             faults: FromWrite::new(rt.stderr()),
//!         },
//!     };
//!     ExitCode::from(match words_of_call(&rt) {
//!         Ok(words) => {
//!             let folder = FromFiles::new(&rt);
//!             run::<_, _, _, _, _, _, Store>(&rt, &folder, words.as_slice(), &mut world)
//!         }
//!         Err(fault) => refuse(fault, &mut world.sinks),
//!     })
//! }
//! ```
#![tactic(auto)]

mod argument_fault;
mod check_verdict;
mod checked;
mod collecting;
mod ending;
mod file_input;
mod file_report;
mod large_input;
mod messages;
mod naming;
mod output;
mod pages;
mod program;
mod question;
mod strict;
mod text_fault;
mod work;

pub use argument_fault::ArgumentFault;
pub use covworld::{Folder, FolderWriter, OutputFolder, Sinks, World};
pub use program::{refuse, run};
