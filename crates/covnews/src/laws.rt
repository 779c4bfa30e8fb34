//! Laws of the definitions that this crate's contracts cite. The functions do nothing: the contract is the law.

ghost use Rattle.std.specs.Prelude.{◌≤◌, List, length};
ghost use Rattle.covbook.specs.Op.{EntryData};
ghost use Rattle.covbook.specs.Step.{IsLegal};
ghost use Rattle.covnews.specs.History.{IsPrefix};

/// Of two prefixes of one history, the shorter is a prefix of the longer. Two news that a reader learned have such histories. A
/// prefix of a prefix is a prefix. A prefix of a legal history is legal.
pub fn prefixes_agree()
    ensures shorter { (some other whole : List EntryData) → IsPrefix some whole → IsPrefix other whole → length some ≤ length other → IsPrefix some other }
    ensures onward { (first second third : List EntryData) → IsPrefix first second → IsPrefix second third → IsPrefix first third }
    ensures legal { (history whole : List EntryData) → IsPrefix history whole → IsLegal whole → IsLegal history }
{}
