//! Looks for a file that a pattern or a choice takes.

ghost use Rattle.std.specs.Prelude.{◌≡◌, map};
ghost use Rattle.covtable.specs.ValuesView.{file_totals_data};
ghost use Rattle.covreport.specs.ChoiceView.{choice_data};
ghost use Rattle.covlist.specs.Chosen.{chooses_any, is_matched};

use covreport::{Choice, matches};
use covtable::FileTotals;
use std::alloc::Allocator;

/// Whether `pattern` matches the path of one of `files`. Never allocates.
pub fn matches_a_file(pattern: &[u8], files: &[FileTotals<'_>]) -> bool
    ensures { result ≡ is_matched (map file_totals_data files.now) pattern.now }
{
    for file in files {
        if matches(pattern, file.path) {
            return true;
        }
    }
    false
}

/// Whether `choice` takes one of `files`. Never allocates.
pub fn takes_a_file<A: Allocator>(choice: &Choice<A>, files: &[FileTotals<'_>]) -> bool
    ensures { result ≡ chooses_any (choice_data choice.now) (map file_totals_data files.now) }
{
    for file in files {
        if choice.takes(file.path) {
            return true;
        }
    }
    false
}
