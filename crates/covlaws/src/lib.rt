//! Laws of reading, adding up and printing together. Each law is the contract of a function that does nothing.
//!
//! A printed tracefile reads back: an empty book to which it is submitted reports the same tracefile, byte for byte. This holds for
//! at most 67,108,864 bytes, and only if each new name of a rename is a valid test name (`covdata::good_test`). A book itself
//! accepts any new name.
//!
//! So merges can be merged. Several machines each print a report. A book with these reports prints the same texts as a book with
//! all submissions of all machines, provided that
//!
//! - the checksums of all these submissions agree,
//! - no machine drops or renames a test before its report,
//! - each report has at most 67,108,864 bytes.
//!
//! Tracefiles that are read in chunks count as whole tracefiles do. A tracefile of version 1 means the same as one of LCOV 2, with a
//! few exceptions. The JSON of a list is read back as its files and totals.
//!
//! The laws are about definitions in `specs/`. The contracts of `covread::read_trace` and `covbook::Book` connect these definitions
//! to the code: `read_trace` returns the submission that the definitions assign to the input, and a book gives the answers that the
//! definitions assign to a run of lawful operations.
#![tactic(auto)]

ghost use Rattle.std.specs.Prelude.{◌≡◌, ◌≤◌, ◌++◌, ◌∷◌, ℕ, true, List, Option, Some, None, Ok, Err, length, map, filter};
ghost use Rattle.std.specs.List.{AllByRecursion, flat_map};
ghost use Rattle.covdata.specs.Row.{Row, SubmissionData, rows_of};
ghost use Rattle.covdata.specs.declared.fault.ReadFault.{ReadFault as Fault};
ghost use Rattle.covdata.specs.declared.version.LcovVersion.{LcovVersion};
ghost use Rattle.covline.specs.Lines.{lines_of};
ghost use Rattle.covdata.specs.Lawful.{IsLawful};
ghost use Rattle.covread.specs.Outcome.{IsOutcome, max_bytes};
ghost use Rattle.covread.specs.Reads.{Reads};
ghost use Rattle.covlcov2.specs.Outcome.{IsOutcome as IsLcov2Outcome};
ghost use Rattle.covlcov2.specs.Reads.{branch_number, has_expression};
ghost use Rattle.covlcov2.specs.Spells.{Lcov2Data};
ghost use Rattle.covtable.specs.Clash.{Agree, checksums_in};
ghost use Rattle.covtable.specs.Content.{SectionData, content_of};
ghost use Rattle.covtable.specs.Files.{FileTotalsData};
ghost use Rattle.covtable.specs.Table.{all_rows};
ghost use Rattle.covtable.specs.declared.totals.Totals.{Totals as TotalsData};
ghost use Rattle.covlist.specs.Json.{list_json_of, summary_json_of};
ghost use Rattle.covreport.specs.Choice.{ChoiceData, is_chosen};
ghost use Rattle.covreport.specs.Report.{section_text};
ghost use Rattle.covbook.specs.Op.{AreLawfulOps, EntryData, HaveGoodNames, OpData, SubmitOp, TextAnswer};
ghost use Rattle.covbook.specs.Order.{AreAgreeing, AreTheSame};
ghost use Rattle.covbook.specs.Step.{IsLegal, answer_of, ops_in, table_of};
ghost use Rattle.covbook.specs.Texts.{IsText};
ghost use Rattle.json.specs.Json.{document, object};
ghost use Rattle.covlaws.specs.Chunks.{AreAllChunksOf};
ghost use Rattle.covlaws.specs.Printable.{IsLawfulRow, IsPrintable, submission_shown};
ghost use Rattle.covlaws.specs.ReadsBack.{AreMergesOf, IsReport, ReadsBack};
ghost use Rattle.covlaws.specs.ListValue.{FitTotals, FitsFile, list_value, totals_members};
ghost use Rattle.covlaws.specs.Numbered.{IsNewAfter, numbers_in};
ghost use Rattle.covlaws.specs.Version1.{IsOfVersion1, IsReadAlike};

use covbook::laws::{no_versions_are_mixed, order_does_not_matter};
use covlcov2::each_lcov2_line_has_one_meaning;
use covline::laws::printed_records_spell;
use covline::{each_line_has_one_meaning, lines_are_the_text};
use covread::each_text_has_one_outcome;
use covtable::laws::{order_of_rows_does_not_matter, the_first_clash_is_told};

/// The text of each report, extract and remove after a run of lawful operations reads back: the text is read as a lawful submission
/// without inconsistent lines, and an empty book accepts this submission and then reports the same text. This holds if each new
/// name of a rename is a valid test name, and the text has at most 67,108,864 bytes.
pub fn reports_read_back()
    ensures { (ops : List OpData) → AreLawfulOps ops → HaveGoodNames ops → (op : OpData) → IsReport op → (text : List ℕ) → answer_of (table_of ops) op ≡ TextAnswer text → length text ≤ max_bytes → ReadsBack text }
{
    printed_records_spell();
    lines_are_the_text();
    the_first_clash_is_told();
    no_versions_are_mixed();
}

/// The text of each report, extract and remove in a legal history with lawful operations reads back. This holds if each new name of
/// an earlier rename is a valid test name, and the text has at most 67,108,864 bytes.
pub fn each_report_of_a_history_reads_back()
    ensures { (entries : List EntryData) → IsLegal entries → AreLawfulOps (ops_in entries) → (before after : List EntryData) (entry : EntryData) → entries ≡ before ++ entry ∷ after → HaveGoodNames (ops_in before)
        → IsReport entry.op → (text : List ℕ) → entry.answer ≡ TextAnswer text → length text ≤ max_bytes → ReadsBack text }
{
    reports_read_back();
}

/// A merge of merges is the merge of all submissions. Lawful submissions are divided into parts, one for each machine. The merge of
/// a part is the submission that is read from the part's report. Other submissions may follow the merges. The law requires that
///
/// - the checksums of all submissions agree,
/// - no test is dropped or renamed before a part's report, so that the report has exactly the part's submissions,
/// - each report has at most 67,108,864 bytes.
///
/// Then the merges are lawful, so they can be merged again. The checksums of the merges and the other submissions agree. A book
/// with the merges and the other submissions prints the same texts as a book with all parts' submissions and the other submissions.
pub fn a_merge_of_merges_is_the_merge_of_all()
    ensures lawful { (parts : List (List SubmissionData)) (merges : List SubmissionData) → AllByRecursion IsLawful (flat_map (λ part. part) parts) → AreAgreeing (flat_map (λ part. part) parts) → AreMergesOf parts merges → AllByRecursion IsLawful merges }
    ensures agree { (parts : List (List SubmissionData)) (merges others : List SubmissionData) → AllByRecursion IsLawful (flat_map (λ part. part) parts) → AreAgreeing (flat_map (λ part. part) parts ++ others) → AreMergesOf parts merges → AreAgreeing (merges ++ others) }
    ensures texts { (parts : List (List SubmissionData)) (merges others : List SubmissionData) → AllByRecursion IsLawful (flat_map (λ part. part) parts) → AreAgreeing (flat_map (λ part. part) parts ++ others) → AreMergesOf parts merges
        → (op : OpData) → IsText op → answer_of (table_of (map SubmitOp (merges ++ others))) op ≡ answer_of (table_of (map SubmitOp (flat_map (λ part. part) parts ++ others))) op }
{
    printed_records_spell();
    lines_are_the_text();
    each_text_has_one_outcome();
    order_does_not_matter();
    order_of_rows_does_not_matter();
}

/// The text of printable sections is read as the submission of these sections (`submission_shown`), and this submission is lawful.
/// This holds if the text has at most 67,108,864 bytes.
pub fn printed_sections_read_back()
    ensures reads { (sections : List SectionData) → IsPrintable sections → length (flat_map section_text sections) ≤ max_bytes → Reads (lines_of (flat_map section_text sections)) (submission_shown sections) }
    ensures lawful { (sections : List SectionData) → IsPrintable sections → length (flat_map section_text sections) ≤ max_bytes → IsLawful (submission_shown sections) }
{
    printed_records_spell();
    lines_are_the_text();
}

/// The content of lawful rows is printable if the rows' checksums agree. The sections of chosen files are the content of these
/// files' rows. All rows after a run of lawful operations are lawful if each new name of a rename is a valid test name.
pub fn lawful_rows_are_printable()
    ensures printable { (rows : List Row) → AllByRecursion IsLawfulRow rows → Agree (checksums_in rows) → IsPrintable (content_of rows) }
    ensures chosen { (choice : ChoiceData) (rows : List Row) → filter (λ s. is_chosen choice s.key.file) (content_of rows) ≡ content_of (filter (λ row. is_chosen choice row.file) rows) }
    ensures run { (ops : List OpData) → AreLawfulOps ops → HaveGoodNames ops → AllByRecursion IsLawfulRow (all_rows (table_of ops)) }
{}

/// A report stands for its rows: reading the report returns rows of the same content, alone or together with any other rows.
pub fn a_report_stands_for_its_rows()
    ensures { (rows others : List Row) → content_of (rows_of (submission_shown (content_of rows)) ++ others) ≡ content_of (rows ++ others) }
{}

/// Tracefiles that are read in chunks (`--large`) count as whole tracefiles do. If the checksums of all chunks agree, a book with
/// the chunks, submitted in any order, prints the same texts as a book with the submissions of the whole tracefiles.
pub fn chunks_count_as_the_whole()
    ensures { (version : LcovVersion) (files : List (List SubmissionData)) (wholes submitted : List SubmissionData) → AreAllChunksOf version files wholes → AreTheSame submitted (flat_map (λ chunks. chunks) files) → AreAgreeing submitted
        → (op : OpData) → IsText op → answer_of (table_of (map SubmitOp submitted)) op ≡ answer_of (table_of (map SubmitOp wholes)) op }
{
    each_line_has_one_meaning();
    each_lcov2_line_has_one_meaning();
    order_does_not_matter();
}

/// The JSON of a list and of a summary is read back, by the kit's crate `json`, as a value that has the files and the totals. Different
/// files or totals have different values.
pub fn json_is_read_back()
    ensures list { (files : List FileTotalsData) (all : TotalsData) → AllByRecursion FitsFile files → FitTotals all → document (list_json_of files all) ≡ Some (list_value files all) }
    ensures summary { (totals : TotalsData) → FitTotals totals → document (summary_json_of totals) ≡ Some (object (totals_members totals)) }
    ensures table { (files others : List FileTotalsData) (all other : TotalsData) → AllByRecursion FitsFile files → FitTotals all → AllByRecursion FitsFile others → FitTotals other
        → list_value files all ≡ list_value others other → (files ≡ others) × (all ≡ other) }
{}

/// A tracefile of version 1 has the same outcome when it is read as LCOV 2 (`--lcov2`). The exceptions are lines that begin with
/// `FNL:` or `FNA:`, and `FN:` lines whose name begins with digits, a comma and another byte. In a tracefile with an error, `BRDA:`
/// lines of another form than version 1's are exceptions too.
pub fn version_1_is_read_the_same()
    ensures accepted { (text : List ℕ) (submission : SubmissionData) → AllByRecursion IsReadAlike (lines_of text) → IsOutcome text (Ok submission) → IsLcov2Outcome text (Ok submission) }
    ensures refused { (text : List ℕ) (fault : Fault) → AllByRecursion IsOfVersion1 (lines_of text) → IsOutcome text (Err fault) → IsLcov2Outcome text (Err fault) }
{
    each_line_has_one_meaning();
    each_lcov2_line_has_one_meaning();
}

/// From the first branch with an expression on, each branch of a block gets a number above all numbers of the block's branches
/// before it, within a section of LCOV 2. The largest number, 2^64 - 1, may come more than once.
pub fn numbers_below_an_expression_are_new()
    ensures below { (line block : ℕ) (given : Option ℕ) (above : List Lcov2Data) → has_expression line block above ≡ true → AllByRecursion (IsNewAfter (branch_number above line block given)) (numbers_in line block above) }
    ensures expression { (line block : ℕ) (above : List Lcov2Data) → AllByRecursion (IsNewAfter (branch_number above line block None)) (numbers_in line block above) }
{}
