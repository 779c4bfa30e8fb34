//! The words of the program's own messages.

ghost use Rattle.std.specs.Prelude.{◌≡◌};
ghost use Rattle.covsession.specs.Session.{said};
ghost use Rattle.covrun.specs.Ending.{argument_fault_name};

use crate::argument_fault::ArgumentFault;

/// The end of the line about a file that can't be read. The file's name comes first.
pub(crate) const CANT_READ: &[u8] = b": can't read\n";

/// The end of the line about a file that can't be written.
pub(crate) const CANT_WRITE: &[u8] = b": can't write\n";

/// The end of the line about a folder that `html` doesn't replace.
pub(crate) const FOREIGN: &[u8] = b": has files that html didn't write\n";

/// The end of the line about a file without items.
pub(crate) const NO_ITEMS: &[u8] = b": no items\n";

/// The end of the line about a pattern that matches no file. The pattern comes first.
pub(crate) const MATCHES_NO_FILE: &[u8] = b": matches no file\n";

/// The line that reports why a subcommand is rejected.
pub(crate) fn line_of_argument(fault: ArgumentFault) -> &'static [u8]
    ensures { result.now ≡ said (argument_fault_name fault) }
{
    match fault {
        ArgumentFault::TooMany => b"TooMany\n",
        ArgumentFault::TooLong => b"TooLong\n",
        ArgumentFault::BadTest => b"BadTest\n",
        ArgumentFault::BadRate => b"BadRate\n",
        ArgumentFault::BadSource => b"BadSource\n",
        ArgumentFault::BadJobs => b"BadJobs\n",
    }
}
