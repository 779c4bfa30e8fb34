//! The verdict on a checked file, which decides the exit status.

/// The verdict on a checked file, which decides the exit status.
#[derive(Clone, Copy)]
pub(crate) enum CheckVerdict {
    /// The file was read and accepted.
    Fine,
    /// The file was read but not accepted: it has no item, or a strict check finds that it isn't clean.
    Unaccepted,
    /// The file's content is invalid.
    Refused,
    /// The file can't be read.
    Unreadable,
}

impl CheckVerdict {
    ghost use Rattle.std.specs.Prelude.{◌≡◌};
    ghost use Rattle.covrun.specs.Checked.{verdict_status, worse};

    /// Returns the worse of two verdicts, which decides the exit status.
    pub(crate) fn or(self, other: CheckVerdict) -> CheckVerdict
        ensures { result ≡ worse self other }
    {
        match (self, other) {
            (CheckVerdict::Unreadable, _) | (_, CheckVerdict::Unreadable) =>
                CheckVerdict::Unreadable,
            (CheckVerdict::Refused, _) | (_, CheckVerdict::Refused) => CheckVerdict::Refused,
            (CheckVerdict::Unaccepted, _) | (_, CheckVerdict::Unaccepted) =>
                CheckVerdict::Unaccepted,
            (CheckVerdict::Fine, CheckVerdict::Fine) => CheckVerdict::Fine,
        }
    }

    /// The exit status for this verdict.
    pub(crate) fn status(self) -> u8
        ensures { result ≡ verdict_status self }
    {
        match self {
            CheckVerdict::Fine => 0,
            CheckVerdict::Unreadable => 1,
            CheckVerdict::Refused => 4,
            CheckVerdict::Unaccepted => 5,
        }
    }
}
