//! Which rules were applied.

use covdata::Memory;
use std::alloc::Global;
use std::marker::Model;

/// Which rules were applied to a path. Contracts see a list with a truth value for each rule.
#[derive(Drop)]
pub struct UsedRules {
    marks: Vec<bool>,
}

impl Model for UsedRules {
    ghost use Rattle.std.specs.Prelude.{Bool, List};

    ghost Value = { List Bool };

    ghost view = { λ u. u.marks.items };
}

impl UsedRules {
    ghost use Rattle.std.specs.Prelude.{◌≡◌, true, false, get_or, replicate, slice_set, IfOk};

    /// No rule of this number of `rules` was applied. Allocates nothing for no rules.
    pub fn none(alloc: Global, rules: usize) -> Result<UsedRules, Memory>
        ensures { IfOk result (λ used. used ≡ replicate rules false) }
    {
        let mut marks = Vec::new(alloc);
        marks.resize(rules, false)?;
        Ok(UsedRules { marks })
    }

    /// Marks that the rule at this place was applied. A place beyond the last rule changes nothing.
    pub(crate) fn mark(&mut self, rule: usize)
        ensures { self.new ≡ slice_set self.old rule true }
    {
        if let Some(mark) = self.marks.get_mut(rule) {
            *mark = true;
        }
    }

    /// Whether the rule at this place was applied; false for a place beyond the last rule.
    pub fn get(&self, rule: usize) -> bool
        ensures { result ≡ get_or self.now rule false }
    {
        match self.marks.get(rule) {
            Some(mark) => *mark,
            None => false,
        }
    }
}
