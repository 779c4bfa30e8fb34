//! Laws about the definitions that this crate's contracts cite. Each function does nothing: its contract is the law.

ghost use Rattle.std.specs.Prelude.{◌≡◌, ◌≢◌, ◌+◌, ◌^◌, ◌<◌, ◌≤◌, ℕ, true, List, ◌∷◌, ◌++◌, map};
ghost use Rattle.std.specs.List.{AllByRecursion};
ghost use Rattle.covtable.specs.Content.{BranchValueData, LineValueData};
ghost use Rattle.covhtml.specs.PageName.{IsSafeName, page_name};
ghost use Rattle.covhtml.specs.ReadBack.{is_escaped, read_back};
ghost use Rattle.covhtml.specs.Rows.{RowData, blank_cells, cells_of, row_cells, rows_after};
ghost use Rattle.covhtml.specs.SectionRows.{HasOwnBranches, NeverFalls, Rises, branches_in, counts_in, line_count, section_rows};
ghost use Rattle.covhtml.specs.Shown.{shown, visible};

/// A shown text has no markup: no `<`, no `>` and no `"`, and each `&` begins a character reference.
pub fn a_shown_text_has_no_markup()
    ensures { (text : List ℕ) → is_escaped (shown text) ≡ true }
{}

/// A browser that reads a shown text sees the text itself, but U+FFFD for bytes that aren't UTF-8, and pictures for control bytes.
pub fn a_shown_text_reads_back()
    ensures { (text : List ℕ) → read_back (shown text) ≡ visible text }
{}

/// The pages of different files have different names. Files are different if both their numbers and their paths are.
pub fn different_files_have_different_pages()
    ensures { (m n : ℕ) (one other : List ℕ) → m < 2 ^ 64 → n < 2 ^ 64 → m ≢ n → one ≢ other → page_name m one ≢ page_name n other }
{}

/// The name of a page is safe on any file system: it stays in the folder, has no upper-case letter, has at most 255 bytes, and ends
/// with `.html`.
pub fn page_names_are_safe()
    ensures { (number : ℕ) (path : List ℕ) → number < 2 ^ 64 → AllByRecursion (λ b. b < 256) path → IsSafeName (page_name number path) }
{}

/// In ascending rows, each line of a source shows its own row, and a line without a row is blank.
pub fn a_line_shows_its_own_row()
    ensures own { (line : ℕ) (front later : List RowData) (row : RowData) → AllByRecursion (λ r. r.number ≤ line) front → row.number ≡ line + 1 → cells_of (line + 1) (rows_after line (front ++ row ∷ later)) ≡ row_cells row later }
    ensures blank { (line : ℕ) (front later : List RowData) → AllByRecursion (λ r. r.number ≤ line) front → AllByRecursion (λ r. line + 1 < r.number) later → cells_of (line + 1) (rows_after line (front ++ later)) ≡ blank_cells (line + 1) }
{}

/// The rows of a section have all of its lines with their counts, and all of its branches, in order. No other line has a count, no
/// branch is added, and each branch stands in the row of its line. The rows rise by line, since the lines and branches of a section do.
pub fn rows_have_all_points()
    ensures counts { (lines : List LineValueData) (branches : List BranchValueData) → counts_in (section_rows lines branches) ≡ map line_count lines }
    ensures branches { (lines : List LineValueData) (branches : List BranchValueData) → branches_in (section_rows lines branches) ≡ branches }
    ensures order { (lines : List LineValueData) (branches : List BranchValueData) → Rises 0 (map (λ l. l.line) lines) → NeverFalls 0 (map (λ b. b.point.line) branches) → Rises 0 (map (λ r. r.number) (section_rows lines branches)) }
    ensures places { (lines : List LineValueData) (branches : List BranchValueData) → AllByRecursion HasOwnBranches (section_rows lines branches) }
{}
