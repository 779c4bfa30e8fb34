//! Does a subcommand's work: collects its files, decides how the run ends, and reports that.

ghost use Rattle.std.specs.Prelude.{◌≡◌, ◌⊎◌, ◌++◌, [], ◌∷◌, map, option_map, slice_get, IfOk, OnOk, IfErr};
ghost use Rattle.std.specs.List.{flat_map};
ghost use Rattle.std.specs.String.{string_bytes};
ghost use Rattle.covbook.specs.EntryView.{entry_data};
ghost use Rattle.covbook.specs.Step.{next_entry};
ghost use Rattle.covbook.specs.Texts.{IsText};
ghost use Rattle.covbook.specs.View.{answer_data};
ghost use Rattle.covsession.specs.Session.{clash_text};
ghost use Rattle.covsession.specs.declared.session.fault.SessionFault.TheVariants as session_faults;
ghost use Rattle.covrun.specs.Call.{IsWorkDone};
ghost use Rattle.covbook.specs.Step.{ops_in, table_of};
ghost use Rattle.covtable.specs.Content.{content_at};
ghost use Rattle.covtable.specs.Files.{files_with_totals};
ghost use Rattle.covrun.specs.Ending.{Stopped, Unreadable, of_collected, asked_shortfalls, asked_text, complaints, faulty_line, refusal_line, ran_out, name_at, strict_line, strict_lines as strict_lines_of, unclean_line, with_shortfalls};
ghost use Rattle.covrun.specs.Strict.{asked_patterns, unmatched_line, unmatched_lines as unmatched_lines_of};
ghost use Rattle.covworld.specs.Folder.{folder_data};
ghost use Rattle.covrun.specs.Naming.{naming_of, told_lines, told_name};
ghost use Rattle.covrun.specs.View.{failure_data, question_data, ready_data, work_data};
ghost use Rattle.covrun.specs.Work.{last_of};
ghost use Rattle.covworld.specs.World.{CanCall};

use crate::ending::{Failure, ReadyAnswer, failure_of_collect};
use crate::file_input::file_inputs;
use crate::naming::Naming;
use crate::output::{report_answer, report_failure};
use crate::question::Question;
use crate::text_fault::TextFault;
use crate::work::Work;
use covbook::{Answer, Answered};
use covcommand::Strictness;
use covdata::{Bytes, Memory};
use covlist::put_shown_name;
use covreport::Table;
use covsession::{SessionFault, clash_line, refused_line};
use covstream::{Sink, Source};
use covworkers::{CollectedBook, IntoBookFault, NoGate, RefusedInput, collect_into_book};
use covworld::{Folder, OutputFolder, ReadyText, World};
use std::alloc::Global;
use std::sync::Wait;
use std::thread::Threads;

/// Does `work`, reports how the work ended, and returns the exit status. A job reads a file when the file's turn comes, and frees
/// the content after parsing. A tracefile is printed while it is made from the book. `file` is the name of the output file, if the
/// command line has one.
pub(crate) fn do_work<
    R: Threads + Wait + Sync,
    F: Folder<File: Send> + Sync,
    P: OutputFolder,
    I: Source,
    O: Sink,
    E: Sink,
    T: Table<Global, Plan: Send, Renaming: Send> + Send,
>(
    rt: &R,
    folder: &F,
    alloc: Global,
    work: &Work,
    file: Option<&str>,
    world: &mut World<P, I, O, E>,
) -> u8
    requires text { IsText (last_of (question_data work.now.asks)) }
    requires can { CanCall world.old }
    ensures { IsWorkDone (folder_data F.Folder F.File.Source folder.now) (work_data work.now) (option_map (λ name. name.now) file.entry) result world.old world.new }
{
    let names = work.files.get();
    let naming = Naming::of(work, file);
    let Ok(inputs) = file_inputs(folder, alloc, &work.format, work.strictness, names) else {
        return report_failure(Failure::Stopped(SessionFault::Memory), world);
    };
    match collect_into_book(rt, alloc, inputs, work.jobs, &NoGate) {
        Ok(collected) => match answer_of::<T>(
            alloc,
            naming,
            names,
            work.strictness,
            &work.asks,
            &collected,
        ) {
            Ok(answer) => report_answer(alloc, answer, file, world),
            Err(failure) => report_failure(failure, world),
        },
        Err(IntoBookFault::Unread { index }) => {
            report_failure(unreadable(alloc, naming, file_name(names, index)), world)
        }
        Err(IntoBookFault::Collect(fault)) => report_failure(failure_of_collect(fault), world),
    }
}

/// The failure of a run that can't read the file called `name`; `Stopped` if memory runs out.
pub(crate) fn unreadable(alloc: Global, naming: Naming, name: &str) -> Failure
    ensures { (failure_data result ≡ Stopped session_faults.Memory) ⊎ (failure_data result ≡ Unreadable (told_name naming name.now)) }
{
    let mut told = Bytes::new(alloc);
    match naming.put_name(name.as_bytes(), &mut told) {
        Ok(()) => Failure::Unreadable(told),
        Err(_) => Failure::Stopped(SessionFault::Memory),
    }
}

/// Returns the answer to `asks` after all files are collected, or why there is none: `Stopped` if memory runs out. All memory for
/// printing is already reserved in the answer.
pub(crate) fn answer_of<'a, T: Table<Global>>(
    alloc: Global,
    naming: Naming,
    files: &[String],
    strictness: Strictness,
    asks: &Question,
    collected: &'a CollectedBook<T, TextFault>,
) -> Result<ReadyAnswer<'a, T>, Failure>
    requires { IsText (last_of (question_data asks.now)) }
    ensures answer { IfOk result (λ answer. ready_data answer ≡ of_collected naming (map string_bytes files.now) strictness (question_data asks.now)
        (collected.now.book.entries ++ next_entry collected.now.book.entries 0 (last_of (question_data asks.now)) ∷ []) collected.now.refused) }
    ensures failure { IfErr result (λ failure. (failure_data failure ≡ Stopped session_faults.Memory)
        ⊎ (failure_data failure ≡ of_collected naming (map string_bytes files.now) strictness (question_data asks.now)
        (collected.now.book.entries ++ next_entry collected.now.book.entries 0 (last_of (question_data asks.now)) ∷ []) collected.now.refused)) }
{
    if has_run_out(collected.refused.get()) {
        return Err(Failure::Stopped(SessionFault::Memory));
    }
    let lines = complaint_lines(alloc, naming, files, collected)?;
    if !lines.get().is_empty() {
        return Err(Failure::Refused(lines));
    }
    let unclean = strict_lines(alloc, files, strictness, asks, collected)?;
    if !unclean.get().is_empty() {
        return Err(Failure::Unclean(unclean));
    }
    Ok(answered(alloc, asks, collected)?)
}

/// Prepares the text that `asks` requests, and the lines about rates below their thresholds.
fn answered<'a, T: Table<Global>>(
    alloc: Global,
    asks: &Question,
    collected: &'a CollectedBook<T, TextFault>,
) -> Result<ReadyAnswer<'a, T>, SessionFault>
    requires { IsText (last_of (question_data asks.now)) }
    ensures answer { IfOk result (λ answer. ready_data answer ≡ with_shortfalls
        (asked_shortfalls (question_data asks.now) (collected.now.book.entries ++ next_entry collected.now.book.entries 0 (last_of (question_data asks.now)) ∷ []))
        (asked_text (question_data asks.now) (collected.now.book.entries ++ next_entry collected.now.book.entries 0 (last_of (question_data asks.now)) ∷ []))) }
    ensures fault { IfErr result (λ fault. fault ≡ session_faults.Memory) }
{
    let shortfalls = asks.shortfalls(alloc, collected)?;
    let text = ReadyText::of(alloc, asks.printing(alloc, collected)?)?;
    Ok(ReadyAnswer { text, shortfalls })
}

/// The lines about invalid files, followed by those about clashes.
fn complaint_lines<T: Table<Global>>(
    alloc: Global,
    naming: Naming,
    files: &[String],
    collected: &CollectedBook<T, TextFault>,
) -> Result<Bytes, SessionFault>
    ensures lines { IfOk result (λ lines. lines ≡ complaints naming (map string_bytes files.now) collected.now.refused collected.now.book.entries) }
    ensures fault { IfErr result (λ fault. fault ≡ session_faults.Memory) }
{
    let mut lines = Bytes::new(alloc);
    add_refusals(alloc, naming, files, collected.refused.get(), &mut lines)?;
    add_clashes(alloc, naming, collected.book.kept(), &mut lines)?;
    Ok(lines)
}

/// Whether an input was rejected because memory ran out.
fn has_run_out(refused: &[RefusedInput<TextFault>]) -> bool
    ensures { result ≡ ran_out refused.now }
{
    for input in refused {
        if input.fault.is_memory() {
            return true;
        }
    }
    false
}

/// Appends to `lines` a line for each invalid file, with the file's name in front.
fn add_refusals(
    alloc: Global,
    naming: Naming,
    files: &[String],
    refused: &[RefusedInput<TextFault>],
    lines: &mut Bytes,
) -> Result<(), SessionFault>
    ensures added { OnOk result (lines.new ≡ lines.old ++ flat_map (refusal_line naming (map string_bytes files.now)) refused.now) }
    ensures fault { IfErr result (λ fault. fault ≡ session_faults.Memory) }
{
    for input in refused {
        add_refusal(
            alloc,
            naming,
            file_name(files, input.index),
            &input.fault,
            lines,
        )?;
    }
    Ok(())
}

/// The name of the file at `index`; empty if the index is out of range.
pub(crate) fn file_name(files: &[String], index: usize) -> &str
    ensures { result.now ≡ name_at (slice_get (map string_bytes files.now) index) }
{
    match files.get(index) {
        Some(name) => name.as_str(),
        None => "",
    }
}

/// Appends to `lines` the line about the file called `name` if its content is invalid.
fn add_refusal(
    alloc: Global,
    naming: Naming,
    name: &str,
    fault: &TextFault,
    lines: &mut Bytes,
) -> Result<(), SessionFault>
    ensures added { OnOk result (lines.new ≡ lines.old ++ faulty_line (told_name naming name.now) fault.now) }
    ensures fault { IfErr result (λ fault. fault ≡ session_faults.Memory) }
{
    let TextFault::Faulty(fault) = fault else {
        return Ok(());
    };
    naming.put_name(name.as_bytes(), lines)?;
    lines.append(b": ")?;
    let line = refused_line(alloc, *fault)?;
    lines.append(line.as_slice())?;
    Ok(())
}

/// Appends to `lines` a line for each clash among `answers`.
fn add_clashes(
    alloc: Global,
    naming: Naming,
    answers: &[Answered],
    lines: &mut Bytes,
) -> Result<(), SessionFault>
    ensures added { OnOk result (lines.new ≡ lines.old ++ flat_map (λ e. told_lines naming (clash_text e.answer))
        (map (λ k. entry_data (record k.entry.value { answer = k.answer })) answers.now)) }
    ensures fault { IfErr result (λ fault. fault ≡ session_faults.Memory) }
{
    for answered in answers {
        add_clash(alloc, naming, &answered.answer, lines)?;
    }
    Ok(())
}

/// Appends to `lines` the line about `answer` if it is a clash, and nothing for any other answer.
fn add_clash(
    alloc: Global,
    naming: Naming,
    answer: &Answer,
    lines: &mut Bytes,
) -> Result<(), SessionFault>
    ensures added { OnOk result (lines.new ≡ lines.old ++ told_lines naming (clash_text (answer_data answer.now))) }
    ensures fault { IfErr result (λ fault. fault ≡ session_faults.Memory) }
{
    let text = clash_line(alloc, answer)?;
    naming.put_lines(text.as_slice(), lines)?;
    Ok(())
}

/// The lines that fail a strict run: those about files that aren't clean, or those about patterns that match no file if all files
/// are clean.
fn strict_lines<T: Table<Global>>(
    alloc: Global,
    files: &[String],
    strictness: Strictness,
    asks: &Question,
    collected: &CollectedBook<T, TextFault>,
) -> Result<Bytes, SessionFault>
    requires { IsText (last_of (question_data asks.now)) }
    ensures lines { IfOk result (λ lines. lines ≡ strict_lines_of (map string_bytes files.now) strictness (question_data asks.now)
        (collected.now.book.entries ++ next_entry collected.now.book.entries 0 (last_of (question_data asks.now)) ∷ []) collected.now.refused) }
    ensures fault { IfErr result (λ fault. fault ≡ session_faults.Memory) }
{
    let mut lines = Bytes::new(alloc);
    add_unclean(files, collected.refused.get(), &mut lines)?;
    if lines.get().is_empty() {
        lines = unmatched_lines(alloc, strictness, asks, collected)?;
    }
    Ok(lines)
}

/// The lines about patterns that match no file; none unless the run is strict.
fn unmatched_lines<T: Table<Global>>(
    alloc: Global,
    strictness: Strictness,
    asks: &Question,
    collected: &CollectedBook<T, TextFault>,
) -> Result<Bytes, Memory>
    requires { IsText (last_of (question_data asks.now)) }
    ensures { IfOk result (λ lines. lines ≡ unmatched_lines_of strictness (question_data asks.now)
        (content_at (table_of (ops_in (collected.now.book.entries ++ next_entry collected.now.book.entries 0 (last_of (question_data asks.now)) ∷ []))))) }
{
    match strictness {
        Strictness::Lenient => Ok(Bytes::new(alloc)),
        Strictness::Strict => unmatched_patterns(alloc, asks, collected),
    }
}

/// The lines about patterns that match no file.
fn unmatched_patterns<T: Table<Global>>(
    alloc: Global,
    asks: &Question,
    collected: &CollectedBook<T, TextFault>,
) -> Result<Bytes, Memory>
    requires { IsText (last_of (question_data asks.now)) }
    ensures { IfOk result (λ lines. lines ≡ flat_map (unmatched_line (files_with_totals (content_at (table_of (ops_in
        (collected.now.book.entries ++ next_entry collected.now.book.entries 0 (last_of (question_data asks.now)) ∷ [])))))) (asked_patterns (question_data asks.now))) }
{
    let mut lines = Bytes::new(alloc);
    let files = collected.book.store().files(alloc)?;
    asks.add_unmatched(files.as_slice(), &mut lines)?;
    Ok(lines)
}

/// Appends to `lines` a line for each file that isn't clean, with the file's name in front.
fn add_unclean(
    files: &[String],
    refused: &[RefusedInput<TextFault>],
    lines: &mut Bytes,
) -> Result<(), Memory>
    ensures { OnOk result (lines.new ≡ lines.old ++ flat_map (strict_line (map string_bytes files.now)) refused.now) }
{
    for input in refused {
        add_if_unclean(file_name(files, input.index), &input.fault, lines)?;
    }
    Ok(())
}

/// Appends to `lines` the line about the file called `name` if the file isn't clean.
fn add_if_unclean(name: &str, fault: &TextFault, lines: &mut Bytes) -> Result<(), Memory>
    ensures { OnOk result (lines.new ≡ lines.old ++ unclean_line name.now fault.now) }
{
    let TextFault::Unclean(line) = fault else {
        return Ok(());
    };
    put_shown_name(name.as_bytes(), lines)?;
    lines.append(b": ")?;
    lines.append(line.as_slice())?;
    Ok(())
}
