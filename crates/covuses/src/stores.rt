//! A use of covstore.

ghost use Rattle.std.specs.Prelude.{[], ◌∷◌, IfOk};
ghost use Rattle.covdata.specs.Row.{rows_of};
ghost use Rattle.covstore.specs.Store.{StandsFor};

use covdata::Submission;
use covstore::{Refuse, Store};
use std::alloc::Global;

/// Merges two submissions into a new store.
pub fn merged(alloc: Global, first: &Submission, second: &Submission) -> Result<Store, Refuse>
    ensures { IfOk result (λ s. StandsFor s (rows_of first.now ∷ rows_of second.now ∷ [])) }
{
    let mut store = Store::new(alloc);
    let plan = store.prepare(alloc, first)?;
    store.commit(plan);
    let plan = store.prepare(alloc, second)?;
    store.commit(plan);
    Ok(store)
}
