//! Totals: how many lines, functions and branches are found, and how many are hit.

ghost use Rattle.std.specs.Prelude.{◌≡◌};
ghost use Rattle.covtable.specs.TotalsExchanged.{finds_nothing, FitTogether, IsAmong, exchanged, no_totals, together};

/// The totals of a store or a file (geninfo(1): `LF:`, `LH:`, `FNF:`, `FNH:`, `BRF:`, `BRH:`). A point of a file is counted once,
/// however many tests have it. A point is hit if its value in some test is above 0.
#[derive(Clone, Copy, Debug, Default, PartialEq, Eq)]
pub struct Totals {
    /// Lines found.
    pub lf: u64,
    /// Lines hit.
    pub lh: u64,
    /// Functions found.
    pub ff: u64,
    /// Functions hit.
    pub fh: u64,
    /// Branches found.
    pub bf: u64,
    /// Branches hit.
    pub bh: u64,
}

impl Totals {
    /// Returns totals that are all 0.
    pub fn none() -> Totals
        ensures { result ≡ no_totals }
    {
        Totals {
            lf: 0,
            lh: 0,
            ff: 0,
            fh: 0,
            bf: 0,
            bh: 0,
        }
    }

    /// Whether no point of any kind is found.
    pub fn finds_nothing(self) -> bool
        ensures { result ≡ finds_nothing self }
    {
        self.lf == 0 && self.ff == 0 && self.bf == 0
    }

    /// Returns these totals with the part `before` replaced by `after`.
    pub fn exchanged(self, before: Totals, after: Totals) -> Totals
        requires part { IsAmong before self }
        requires fits { FitTogether after self }
        ensures { result ≡ exchanged self before after }
    {
        Totals {
            lf: self.lf - before.lf + after.lf,
            lh: self.lh - before.lh + after.lh,
            ff: self.ff - before.ff + after.ff,
            fh: self.fh - before.fh + after.fh,
            bf: self.bf - before.bf + after.bf,
            bh: self.bh - before.bh + after.bh,
        }
    }

    /// Returns the sum of these totals and `more`.
    pub fn plus(self, more: Totals) -> Totals
        requires { FitTogether more self }
        ensures { result ≡ together self more }
    {
        Totals {
            lf: self.lf + more.lf,
            lh: self.lh + more.lh,
            ff: self.ff + more.ff,
            fh: self.fh + more.fh,
            bf: self.bf + more.bf,
            bh: self.bh + more.bh,
        }
    }
}

/// A source file with its totals over all tests.
#[derive(Clone, Copy)]
pub struct FileTotals<'a> {
    /// The source file's path.
    pub path: &'a [u8],
    /// The totals of the file.
    pub totals: Totals,
}
