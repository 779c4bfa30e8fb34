//! A submission that a store is prepared to add.

use covtable::Totals;
use std::marker::Model;

/// A submission that a store is prepared to add. The plan has the totals after the commit. The values to commit are staged in the
/// store itself. Contracts see the totals.
#[derive(Drop)]
pub struct Plan {
    after: Totals,
}

impl Model for Plan {
    ghost use Rattle.covstore.specs.Store.{PlanData};
    ghost use Rattle.covtable.specs.Totals.{AreTotals};

    ghost Value = { PlanData };

    ghost view = { λ p. record { after = p.after } };

    ghost invariant = { λ p. AreTotals p.after };
}

impl Plan {
    ghost use Rattle.std.specs.Prelude.{◌≡◌};
    ghost use Rattle.covtable.specs.Totals.{AreTotals};

    /// A plan whose commit gives the store the totals `after`.
    pub(crate) fn new(after: Totals) -> Plan
        requires { AreTotals after }
        ensures { result.after ≡ after }
    {
        Plan { after }
    }

    /// The totals of the store after the commit.
    pub fn after(&self) -> Totals
        ensures value { result ≡ self.now.after }
        ensures bounds { AreTotals result }
    {
        self.after
    }
}
