//! Why the content of a file is rejected.

use covdata::ReadFault;

/// Why the content of a file is rejected.
#[derive(Drop)]
pub(crate) enum TextFault {
    /// The content is invalid.
    Faulty(ReadFault),
    /// A strict run found no item, an inconsistent line or a skipped line. The value is the summary line.
    Unclean(Vec<u8>),
}

impl TextFault {
    ghost use Rattle.std.specs.Prelude.{◌≡◌};
    ghost use Rattle.covrun.specs.Ending.{has_run_out};

    /// Whether reading ended because memory ran out.
    pub(crate) fn is_memory(&self) -> bool
        ensures { result ≡ has_run_out self.now }
    {
        match self {
            TextFault::Faulty(fault) => fault.is_memory(),
            TextFault::Unclean(_) => false,
        }
    }
}
