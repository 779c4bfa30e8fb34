//! What a run changes: the files that it writes, and its standard streams.

use crate::output_folder::OutputFolder;
use crate::sinks::Sinks;
use covstream::{Sink, Source};
use std::marker::Model;

/// What a run changes: the files that it writes, and its standard streams. Contracts see what the fields' traits state of them.
#[derive(Drop)]
pub struct World<P: OutputFolder, I: Source, O: Sink, E: Sink> {
    /// Takes the output file, if the command line names one.
    pub files: P,
    /// Gives the commands of a session, or a list of names. Nothing else reads it.
    pub input: I,
    /// The output and the error stream.
    pub sinks: Sinks<O, E>,
}

impl<P: OutputFolder, I: Source, O: Sink, E: Sink> Model for World<P, I, O, E> {
    ghost use Rattle.covworld.specs.OutputFiles.{output_files};
    ghost use Rattle.covworld.specs.Streams.{source};
    ghost use Rattle.covworld.specs.World.{WorldData};

    ghost Value = { WorldData };

    ghost view = { λ w. record {
      files = output_files (P.finished w.files) (P.names w.files) (P.begun w.files) (P.failed w.files);
      input = source (I.left w.input) (I.reads w.input) (I.failed_reads w.input);
      sinks = w.sinks;
    } };
}
