//! Laws about the definitions of this crate. Each function does nothing: its contract is the law.

ghost use Rattle.std.specs.Prelude.{◌≡◌, ◌↔◌, List, [], ◌∷◌, ◌++◌, ℕ, Some, None, map};
ghost use Rattle.std.specs.Cmp.Lexicographic.{slice_cmp};
ghost use Rattle.std.specs.List.Sorted.{IsPermutation};
ghost use Rattle.std.specs.Ordering.{nat_cmp};
ghost use Rattle.covdata.specs.Points.{BranchPoint, line_points, func_points, branch_points};
ghost use Rattle.covdata.specs.Row.{ItemData, Row, SubmissionData, rows_of};
ghost use Rattle.covtable.specs.Ascending.{IsAscendingOf};
ghost use Rattle.covtable.specs.Clash.{Checksum, ClashData, Agree, IsFirstClash, checksums_in, first_clash};
ghost use Rattle.covtable.specs.Content.{SectionData, content_of, content_at};
ghost use Rattle.covtable.specs.Counted.{lines, functions, branches, found, hit};
ghost use Rattle.covtable.specs.Renamed.{renamed};
ghost use Rattle.covtable.specs.Table.{Table, all_rows, clash_at};
ghost use Rattle.covtable.specs.Totals.{AreTotals, totals_of};
ghost use Rattle.covtable.specs.TotalsSteps.{totals_over};
ghost use Rattle.covtable.specs.Without.{without_test};
ghost use Rattle.covtable.specs.Value.{Key, key_cmp, key_of_row, keys_of, lines_in, names_in, branch_cmp, branches_in};

/// The sections of a table are in strictly ascending order. There is one section for each file and test with a row.
pub fn keys_stand_in_order()
    ensures { (rows : List Row) → IsAscendingOf key_cmp (map key_of_row rows) (keys_of rows) }
{}

/// The functions, branches and lines of a section are each in strictly ascending order. Functions ascend by the bytes of their
/// names, branches by line, block and number, and lines by number. Each point of the section's items occurs once.
pub fn points_stand_in_order()
    ensures functions { (items : List ItemData) → IsAscendingOf (slice_cmp nat_cmp) (func_points items) (names_in items) }
    ensures branches { (items : List ItemData) → IsAscendingOf branch_cmp (branch_points items) (branches_in items) }
    ensures lines { (items : List ItemData) → IsAscendingOf nat_cmp (line_points items) (lines_in items) }
{}

/// Two strictly ascending lists of the same elements are equal. The elements are keys of sections, functions ordered by the bytes
/// of their names, branches, or lines.
pub fn order_is_unique()
    ensures keys { (all some others : List Key) → IsAscendingOf key_cmp all some → IsAscendingOf key_cmp all others → some ≡ others }
    ensures functions { (all some others : List (List ℕ)) → IsAscendingOf (slice_cmp nat_cmp) all some → IsAscendingOf (slice_cmp nat_cmp) all others → some ≡ others }
    ensures branches { (all some others : List BranchPoint) → IsAscendingOf branch_cmp all some → IsAscendingOf branch_cmp all others → some ≡ others }
    ensures lines { (all some others : List ℕ) → IsAscendingOf nat_cmp all some → IsAscendingOf nat_cmp all others → some ≡ others }
{}

/// If the checksums of `held` agree with each other, `first_clash` returns the first clash. This is the clash of the first checksum
/// of `given` that differs from a checksum of `held` or from an earlier checksum of `given`. `first_clash` returns `None` if and
/// only if all these checksums agree with each other.
pub fn the_first_clash_is_told()
    ensures first { (held given : List Checksum) (clash : ClashData) → Agree held → first_clash held given ≡ Some clash ↔ IsFirstClash held given clash }
    ensures none { (held given : List Checksum) → Agree held → first_clash held given ≡ None ↔ Agree (held ++ given) }
{}

/// A table never gets two different checksums of one line of a file. The checksums of the empty table agree. If the checksums
/// of a table agree, they still agree after a submission that doesn't clash is added, and after a test is dropped.
/// `renaming_keeps_totals` says the same of a rename.
pub fn accepted_rows_agree()
    ensures empty { Agree (checksums_in (all_rows [])) }
    ensures accepted { (table : Table) (s : SubmissionData) → clash_at table s ≡ None → Agree (checksums_in (all_rows table)) → Agree (checksums_in (all_rows (table ++ rows_of s ∷ []))) }
    ensures dropped { (table : Table) (test : List ℕ) → Agree (checksums_in (all_rows table)) → Agree (checksums_in (all_rows (without_test test table))) }
{}

/// The totals have two numbers for each kind of points. The points found are the different points of that kind in all rows. Points
/// of different files are different. The points hit are the found points that have a value above 0 in some test.
pub fn totals_count_different_points()
    ensures lines { (rows : List Row) → ((totals_of (content_of rows)).lf ≡ found lines rows) × ((totals_of (content_of rows)).lh ≡ hit lines rows) }
    ensures functions { (rows : List Row) → ((totals_of (content_of rows)).ff ≡ found functions rows) × ((totals_of (content_of rows)).fh ≡ hit functions rows) }
    ensures branches { (rows : List Row) → ((totals_of (content_of rows)).bf ≡ found branches rows) × ((totals_of (content_of rows)).bh ≡ hit branches rows) }
{}

/// No more points are hit than found, for each kind of points. This holds for any sections, and so for the sections of any rows.
pub fn no_more_are_hit_than_found()
    ensures sections { (sections : List SectionData) → AreTotals (totals_of sections) }
    ensures rows { (rows : List Row) → AreTotals (totals_of (content_of rows)) }
{}

/// Totals can be counted from the rows themselves, without adding up their counts. For each file, the points found are the distinct
/// points of the file's rows, over all tests. A point is hit if some row of the point has a count above 0.
pub fn totals_count_the_rows()
    ensures { (rows : List Row) → totals_of (content_of rows) ≡ totals_over rows }
{}

/// The sum of rows whose checksums agree doesn't depend on the order of the rows.
pub fn order_of_rows_does_not_matter()
    ensures content { (rows others : List Row) → IsPermutation rows others → Agree (checksums_in rows) → content_of rows ≡ content_of others }
    ensures agree { (rows others : List Row) → IsPermutation rows others → Agree (checksums_in rows) → Agree (checksums_in others) }
{}

/// The sum of a table whose checksums agree doesn't depend on the order of the table's submissions.
pub fn order_of_submissions_does_not_matter()
    ensures content { (table others : Table) → IsPermutation table others → Agree (checksums_in (all_rows table)) → content_at table ≡ content_at others }
    ensures agree { (table others : Table) → IsPermutation table others → Agree (checksums_in (all_rows table)) → Agree (checksums_in (all_rows others)) }
{}

/// A rename doesn't change the totals, since a point of a file is counted once, however many tests have it. If the checksums of
/// a table agree before a rename, they agree after the rename. A rename to the same name leaves the table as it is.
pub fn renaming_keeps_totals()
    ensures totals { (old new : List ℕ) (table : Table) → totals_of (content_at (renamed old new table)) ≡ totals_of (content_at table) }
    ensures agree { (old new : List ℕ) (table : Table) → Agree (checksums_in (all_rows table)) → Agree (checksums_in (all_rows (renamed old new table))) }
    ensures still { (old : List ℕ) (table : Table) → renamed old old table ≡ table }
{}
