//! Laws of new names, as functions without effect. Each contract is a theorem.

ghost use Rattle.std.specs.Prelude.{◌≡◌, ◌↔◌, ◌+◌, List, ℕ, filter, flat_map, map, sum_by};
ghost use Rattle.covdata.specs.Row.{ItemData, Row, SubmissionData, rows_of};
ghost use Rattle.covpaths.specs.Meeting.{IsApart, Meet, is_of, items_of, with_new_paths};
ghost use Rattle.covpaths.specs.Names.{NamesData, named, named_row};
ghost use Rattle.covpaths.specs.Paths.{RuleData, mapped_path};
ghost use Rattle.covpaths.specs.Relation.{IsMapped};

/// Rows get their new names one by one: it doesn't matter whether names change before rows are taken of a submission or after. Nor does
/// it whether submissions are joined before or after.
pub fn rows_get_new_names()
    ensures one { (names : NamesData) (s : SubmissionData) → rows_of (named names s) ≡ map (named_row names) (rows_of s) }
    ensures joined { (names : NamesData) (submissions : List SubmissionData) → flat_map rows_of (map (named names) submissions) ≡ map (named_row names) (flat_map rows_of submissions) }
{}

/// The path that a source file gets is that of the first rule that applies, or its own.
pub fn the_first_rule_applies()
    ensures { (rules : List RuleData) (path mapped : List ℕ) → IsMapped rules path mapped ↔ (mapped ≡ mapped_path rules path) }
{}

/// Under a test and a file stand the items of all rows that get these names, in the order of the rows. So where two files get the same
/// path, and no others do, whatever is counted there is the sum of what was counted for both.
pub fn files_that_meet_add_up()
    ensures all { (names : NamesData) (test file : List ℕ) (rows : List Row) → items_of test file (map (named_row names) rows) ≡ map (λ row. row.item) (filter (λ row. is_of test file (named_row names row)) rows) }
    ensures two { (rules : List RuleData) (count : ItemData → ℕ) (test one other path : List ℕ) → (one ≡ other → ⊥) → (rows : List Row) → Meet rules rows one other path → sum_by count (items_of test path (with_new_paths rules rows)) ≡ sum_by count (items_of test one rows) + sum_by count (items_of test other rows) }
{}

/// Where no other file gets the path of a file, exactly this file's items stand under that path.
pub fn files_apart_stay_apart()
    ensures { (rules : List RuleData) (test file : List ℕ) (rows : List Row) → IsApart rules rows file → items_of test (mapped_path rules file) (with_new_paths rules rows) ≡ items_of test file rows }
{}
