//! Laws about the definitions that this crate's contracts cite. Each function does nothing: its contract is the law.

ghost use Rattle.std.specs.Prelude.{◌≡◌, ◌≢◌, ◌↔◌, ◌+◌, ◌≤◌, ℕ, List, [], ◌∷◌, ◌++◌, length, map, Contains};
ghost use Rattle.std.specs.List.{AllByRecursion, range_with_len};
ghost use Rattle.covbook.specs.declared.gather_fault.GatherFault.{GatherFault};
ghost use Rattle.covbook.specs.declared.gather_fault.GatherFault.TheVariants.{Stranger, Differs, Backwards, Missing, BadReading, SameJob};
ghost use Rattle.covbook.specs.Cause.{IsBackwards, IsBadReading, IsDiffering, IsMissing, IsSameJob, IsStranger};
ghost use Rattle.covbook.specs.Gather.{AllHold, AreReadingsOf, IsGathered, IsGatherFault, IsMerge, LogData, gather_claims, jobs_of};
ghost use Rattle.covbook.specs.Kept.{AreBefore, IsKept, IsKeptWell, IsPrefix, KeptData, calls_kept, logs_kept, with_receipt};
ghost use Rattle.covbook.specs.Op.{EntryData, OpData, ReceiptData, SubmitOp, ClashAnswer};
ghost use Rattle.covbook.specs.Order.{submissions_in, AreTheSame, AreAgreeing, OnlySubmitsAndAsks};
ghost use Rattle.covbook.specs.Step.{answer_of, answers_to, receipt_of, table_after, table_of, totals_at, totals_to};
ghost use Rattle.covbook.specs.Texts.{IsText};
ghost use Rattle.covdata.specs.Row.{SubmissionData, rows_of};
ghost use Rattle.covtable.specs.Clash.{ClashData, Agree, checksums_in};
ghost use Rattle.covtable.specs.Table.{all_rows};

use covtable::laws::{
    accepted_rows_agree, order_of_submissions_does_not_matter, renaming_keeps_totals,
    the_first_clash_is_told,
};

/// No two versions of a source are mixed: in the table after any operations, no line of a file has two different checksums.
pub fn no_versions_are_mixed()
    ensures { (ops : List OpData) → Agree (checksums_in (all_rows (table_of ops))) }
{
    accepted_rows_agree();
    renaming_keeps_totals();
}

/// Appending an operation to a list of operations appends one answer and one set of totals, and applies the operation to the table.
pub fn a_run_goes_on()
    ensures answers { (ops : List OpData) (op : OpData) → answers_to (ops ++ op ∷ []) ≡ answers_to ops ++ answer_of (table_of ops) op ∷ [] }
    ensures totals { (ops : List OpData) (op : OpData) → totals_to (ops ++ op ∷ []) ≡ totals_to ops ++ totals_at (table_after (table_of ops) op) ∷ [] }
    ensures table { (ops : List OpData) (op : OpData) → table_of (ops ++ op ∷ []) ≡ table_after (table_of ops) op }
{}

/// The order of submissions doesn't matter if their checksums agree: no submission clashes, and the table has the rows of each
/// submission. In another order, the checksums agree too and each text is the same, whatever texts were requested in between.
pub fn order_does_not_matter()
    ensures accepted { (ops : List OpData) → OnlySubmitsAndAsks ops → AreAgreeing (submissions_in ops) → (clash : ClashData) → ¬ Contains (answers_to ops) (ClashAnswer clash) }
    ensures table { (ops : List OpData) → OnlySubmitsAndAsks ops → AreAgreeing (submissions_in ops) → table_of ops ≡ map rows_of (submissions_in ops) }
    ensures texts { (some others : List OpData) → OnlySubmitsAndAsks some → OnlySubmitsAndAsks others → AreTheSame (submissions_in some) (submissions_in others) → AreAgreeing (submissions_in some) → (op : OpData) → IsText op → answer_of (table_of some) op ≡ answer_of (table_of others) op }
    ensures lists { (some others : List SubmissionData) → AreTheSame some others → AreAgreeing some → (op : OpData) → IsText op → answer_of (table_of (map SubmitOp some)) op ≡ answer_of (table_of (map SubmitOp others)) op }
    ensures agree { (some others : List SubmissionData) → AreTheSame some others → AreAgreeing some → AreAgreeing others }
    ensures none { (submissions : List SubmissionData) → AreAgreeing submissions → (clash : ClashData) → ¬ Contains (answers_to (map SubmitOp submissions)) (ClashAnswer clash) }
    ensures rows { (submissions : List SubmissionData) → AreAgreeing submissions → table_of (map SubmitOp submissions) ≡ map rows_of submissions }
{
    the_first_clash_is_told();
    order_of_submissions_does_not_matter();
}

/// All claims that `gather` checks hold if and only if the history matches the logs. There is at most one first error, and none if
/// the history matches the logs. If the first error isn't `BadReading`, the entries aren't even a merge of the logs.
pub fn claims_make_a_gathering()
    ensures gathered { (entries : List EntryData) (logs : List LogData) → AllHold (gather_claims entries logs) ↔ IsGathered entries logs }
    ensures fault { (entries : List EntryData) (logs : List LogData) (some other : GatherFault) → IsGatherFault entries logs some → IsGatherFault entries logs other → some ≡ other }
    ensures none { (entries : List EntryData) (logs : List LogData) (fault : GatherFault) → IsGatherFault entries logs fault → ¬ IsGathered entries logs }
    ensures merge { (entries : List EntryData) (logs : List LogData) (fault : GatherFault) → IsGatherFault entries logs fault → ((log index : ℕ) → fault ≢ BadReading log index) → ¬ IsMerge entries logs }
{}

/// An error is the first if and only if it has its cause: the log, receipt, reading or entry that the error names is wrong, and
/// everything checked before is right.
pub fn each_fault_has_its_cause()
    ensures stranger { (entries : List EntryData) (logs : List LogData) (log index : ℕ) → IsGatherFault entries logs (Stranger log index) ↔ IsStranger entries logs log index }
    ensures differs { (entries : List EntryData) (logs : List LogData) (log index : ℕ) → IsGatherFault entries logs (Differs log index) ↔ IsDiffering entries logs log index }
    ensures backwards { (entries : List EntryData) (logs : List LogData) (log index : ℕ) → IsGatherFault entries logs (Backwards log index) ↔ IsBackwards entries logs log index }
    ensures missing { (entries : List EntryData) (logs : List LogData) (place : ℕ) → IsGatherFault entries logs (Missing place) ↔ IsMissing entries logs place }
    ensures bad_reading { (entries : List EntryData) (logs : List LogData) (log index : ℕ) → IsGatherFault entries logs (BadReading log index) ↔ IsBadReading entries logs log index }
    ensures same_job { (entries : List EntryData) (logs : List LogData) (log : ℕ) → IsGatherFault entries logs (SameJob log) ↔ IsSameJob logs log }
{}

/// Two laws that lead from counted calls to a gathered history. First, suppose that a job's log matches the history up to the job's
/// latest news. The log still matches after one more call, even if the job stores no history. Second, a history is gathered from
/// the jobs' logs if its length is the number of all successful calls, each job's latest news are a prefix of the history, and all
/// readings are right. No two receipts have the same index then, so each entry has a receipt.
pub fn calls_count_a_history()
    ensures one_more { (log : LogData) (calls seen : ℕ) (latest before : List EntryData) (entry : EntryData) (told : ReceiptData) → IsKept log calls seen latest → entry.job ≡ log.job → receipt_of told.place entry ≡ told → length before ≡ told.place → seen ≤ told.place → IsPrefix latest (before ++ entry ∷ []) → IsKept (with_receipt log told) (calls + 1) (told.place + 1) (before ++ entry ∷ []) }
    ensures gathered { (entries : List EntryData) (jobs : ℕ) (kept : List KeptData) → jobs_of (logs_kept kept) ≡ range_with_len 0 jobs → AllByRecursion IsKeptWell kept → AllByRecursion (AreReadingsOf entries) (logs_kept kept) → AreBefore entries kept → length entries ≡ calls_kept kept → IsGathered entries (logs_kept kept) }
{}
