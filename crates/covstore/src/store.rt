//! The store of all submissions, and its public functions.

ghost use Rattle.std.specs.Prelude.{◌≡◌, ◌+◌, ◌++◌, ℕ, List, None, [], ◌∷◌, map, IfErr, IfOk, OnOk};
ghost use Rattle.std.specs.BTreeMap.{is_at};
ghost use Rattle.std.specs.Cmp.Lexicographic.{slice_cmp};
ghost use Rattle.std.specs.Map.{lookup};
ghost use Rattle.std.specs.Ordering.{nat_cmp};
ghost use Rattle.covtable.specs.RefuseView.{refuse_data};
ghost use Rattle.covstore.specs.State.{totals_in};
ghost use Rattle.covstore.specs.Store.{AddsTo, ClashesAmong, KeepsState};
ghost use Rattle.covstore.specs.StoreSection.{HasRoomAmong, rows_of_items};
ghost use Rattle.covstore.specs.StoreView.{AreSettledBut, files_staged, files_committed, touched_data};
ghost use Rattle.covtable.specs.TotalsExchanged.{IsExchange};

use crate::all_files::{count_sections, count_without, drop_from_files, names_with};
use crate::boxed::Boxed;
use crate::content::{FileSections, Sections};
use crate::file::File;
use crate::files::Files;
use crate::path::Path;
use crate::plan::Plan;
use crate::renaming::Renaming;
use covdata::{Memory, Submission};
use covpacked::{PackedItems, PackedSect, PackedSects, PackedSectsIter, PackedSubmission, pack};
use covtable::{Refuse, Totals};
use std::alloc::{Allocator, Global};
use std::collections::BTreeMap;
use std::marker::Model;

/// A test with staged values, and the test's file.
#[derive(Drop)]
pub(crate) struct Touched<A: Allocator> {
    file: Path<A>,
    test: Vec<u8, A>,
}

impl<A: Allocator + Copy> Touched<A> {
    ghost use Rattle.std.specs.Prelude.{◌≡◌, ◌≢◌, ℕ, List, ◌++◌, [], ◌∷◌, OnErr, OnOk};
    ghost use Rattle.covstore.specs.StoreView.{touched_data};

    /// Appends the test `test` of `file` to `touched`, the list of tests with staged values.
    fn push(
        touched: &mut Vec<Touched<A>, A>,
        alloc: A,
        file: &[u8],
        test: &[u8],
    ) -> Result<(), Memory>
        ensures ok { OnOk result (touched_data touched.new.items ≡ touched_data touched.old.items ++ (file.now, test.now) ∷ []) }
        ensures err { OnErr result (touched.new.items ≡ touched.old.items) }
    {
        let last = Touched {
            file: Path::from_slice(alloc, file)?,
            test: Vec::from_slice(alloc, test)?,
        };
        touched.push(last)?;
        Ok(())
    }

    /// Returns the file of the last test in `touched`, which must not be empty.
    fn last_file(touched: &[Touched<A>]) -> &Path<A>
        requires { touched.now ≢ [] }
        ensures { (front : List (List ℕ × List ℕ)) (file test : List ℕ) → touched_data touched.now ≡ front ++ (file, test) ∷ [] → result.now.items ≡ file }
    {
        let Some(last) = touched.last() else {
            unreachable!();
        };
        &last.file
    }
}

/// Commits the staged values of the tests in `touched` and of their files' indexes, and empties `touched`.
fn commit_staged<A: Allocator + Copy>(
    files: &mut BTreeMap<Path<A>, Boxed<File<A>, A>, A>,
    touched: &mut Vec<Touched<A>, A>,
)
    requires { AreSettledBut (λ name. name.items) (touched_data touched.old.items) files.old.entries }
    ensures committed { files_committed (λ name. name.items) files.new.entries ≡ files_staged (λ name. name.items) files.old.entries }
    ensures staged { files_staged (λ name. name.items) files.new.entries ≡ files_staged (λ name. name.items) files.old.entries }
    ensures none { touched.new.items ≡ [] }
    ensures settled { AreSettledBut (λ name. name.items) [] files.new.entries }
{
    while let Some(last) = touched.pop() {
        if let Some(file) = files.get_mut(&last.file) {
            file.get_mut().commit(last.test.as_slice());
        }
    }
}

/// Stages `items` for the test `test` of `file`. Returns the file's staged totals before and after the call. Adds the file if the
/// store doesn't have it.
fn stage_in_files<A: Allocator + Copy>(
    files: &mut BTreeMap<Path<A>, Boxed<File<A>, A>, A>,
    alloc: A,
    file: &Path<A>,
    test: &[u8],
    items: &PackedItems<'_>,
) -> Result<(Totals, Totals), Refuse<A>>
    requires { HasRoomAmong (rows_of_items file.now.items test.now items.now) (files_staged (λ name. name.items) files.old.entries) }
    ensures committed { KeepsState (files_committed (λ name. name.items) files.old.entries) (files_committed (λ name. name.items) files.new.entries) }
    ensures ok { OnOk result (AddsTo (rows_of_items file.now.items test.now items.now) (files_staged (λ name. name.items) files.old.entries) (files_staged (λ name. name.items) files.new.entries)) }
    ensures totals { IfOk result (λ t. IsExchange t.0 t.1 (totals_in (files_staged (λ name. name.items) files.old.entries)) (totals_in (files_staged (λ name. name.items) files.new.entries))) }
    ensures clash { IfErr result (λ e. ClashesAmong (rows_of_items file.now.items test.now items.now) (files_staged (λ name. name.items) files.old.entries) (refuse_data e)) }
    ensures settled { (touched : List (List ℕ × List ℕ)) → AreSettledBut (λ name. name.items) touched files.old.entries → AreSettledBut (λ name. name.items) (touched ++ (file.now.items, test.now) ∷ []) files.new.entries }
{
    let name = file.as_slice();
    if let Some(found) = files.get_mut(file) {
        return found.get_mut().stage_section(alloc, name, test, items);
    }
    stage_in_new_file(files, alloc, name, test, items)
}

/// Adds `file`, which the store must not have yet, and stages `items` for its test `test`. Returns the file's staged totals before
/// and after the call.
fn stage_in_new_file<A: Allocator + Copy>(
    files: &mut BTreeMap<Path<A>, Boxed<File<A>, A>, A>,
    alloc: A,
    file: &[u8],
    test: &[u8],
    items: &PackedItems<'_>,
) -> Result<(Totals, Totals), Refuse<A>>
    requires room { HasRoomAmong (rows_of_items file.now test.now items.now) (files_staged (λ name. name.items) files.old.entries) }
    requires new { lookup (is_at (λ other. slice_cmp nat_cmp file.now other.items)) files.old.entries ≡ None }
    ensures committed { KeepsState (files_committed (λ name. name.items) files.old.entries) (files_committed (λ name. name.items) files.new.entries) }
    ensures ok { OnOk result (AddsTo (rows_of_items file.now test.now items.now) (files_staged (λ name. name.items) files.old.entries) (files_staged (λ name. name.items) files.new.entries)) }
    ensures totals { IfOk result (λ t. IsExchange t.0 t.1 (totals_in (files_staged (λ name. name.items) files.old.entries)) (totals_in (files_staged (λ name. name.items) files.new.entries))) }
    ensures clash { IfErr result (λ e. ClashesAmong (rows_of_items file.now test.now items.now) (files_staged (λ name. name.items) files.old.entries) (refuse_data e)) }
    ensures settled { (touched : List (List ℕ × List ℕ)) → AreSettledBut (λ name. name.items) touched files.old.entries → AreSettledBut (λ name. name.items) (touched ++ (file.now, test.now) ∷ []) files.new.entries }
{
    let mut made = Boxed::new(alloc, File::new())?;
    let totals = made.get_mut().stage_section(alloc, file, test, items)?;
    files.insert(Path::from_slice(alloc, file)?, made)?;
    Ok(totals)
}

/// The merged counts of at most 1,048,576 submissions: for each file and each test of the file, the value of every line, function
/// and branch. Dropping or renaming a test changes the test's points in all submissions. Contracts see the committed values as
/// sections, the number of submissions, the committed files, and the files and totals after the next commit.
#[derive(Drop)]
pub struct Store<A: Allocator = Global> {
    files: BTreeMap<Path<A>, Boxed<File<A>, A>, A>,
    touched: Vec<Touched<A>, A>,
    totals: Totals,
    totals_after: Totals,
    members: u64,
}

impl<A: Allocator> Model for Store<A> {
    ghost use Rattle.covstore.specs.Store.{StoreData};
    ghost use Rattle.covstore.specs.StoreView.{AreSettledBut, IsStore, files_staged, files_committed, touched_data};
    ghost use Rattle.covstore.specs.State.{sections_of};

    ghost Value = { StoreData };

    ghost view = { λ s. record { sections = sections_of (files_committed (λ name. name.items) s.files.entries); members = s.members; committed = files_committed (λ name. name.items) s.files.entries; staged = files_staged (λ name. name.items) s.files.entries; after = s.totals_after } };

    ghost invariant = { λ s. IsStore s.members s.totals (files_committed (λ name. name.items) s.files.entries) × AreSettledBut (λ name. name.items) (touched_data s.touched.items) s.files.entries };
}

impl<A: Allocator + Copy> Store<A> {
    ghost use Rattle.std.specs.Prelude.{◌≡◌, ◌≢◌, ◌<◌, ℕ, List, ◌++◌, [], ◌∷◌, map, IfOk, IfErr, None, OnOk, OnErr, unwrap_or};
    ghost use Rattle.std.specs.Str.{bytes_eq};
    ghost use Rattle.std.specs.List.{flat_map, list_any};
    ghost use Rattle.covdata.specs.Row.{SubmissionData, rows_of, rows_of_sect};
    ghost use Rattle.covpacked.specs.PackedSects.{packed_sect_data};
    ghost use Rattle.covtable.specs.Content.{content_at};
    ghost use Rattle.covtable.specs.Files.{files_with_totals};
    ghost use Rattle.covstore.specs.Store.{AddsRows, ClashesWith, HasRoomForRows, IsPlanOf, SameContent, SameCommitted, StandsFor};
    ghost use Rattle.covtable.specs.Shown.{max_members};
    ghost use Rattle.covtable.specs.Refuse.{IsRefusedAt};
    ghost use Rattle.covstore.specs.StoreSection.{rows_of_items};
    ghost use Rattle.covstore.specs.StoreKept.{IsKept};
    ghost use Rattle.covtable.specs.RefuseView.{refuse_data};
    ghost use Rattle.covtable.specs.Renamed.{renamed};
    ghost use Rattle.covstore.specs.Renaming.{Copies, HasRoomToCopy, IsMoving, IsRenamingOf, names_with};
    ghost use Rattle.covstore.specs.State.{sections_of, totals_in};
    ghost use Rattle.covtable.specs.Table.{Table, all_rows, clash_at};
    ghost use Rattle.covtable.specs.Totals.{AreTotals, own_sections, totals_of};
    ghost use Rattle.covtable.specs.Without.{sections_of_test, without_test};

    /// Returns an empty store. Never allocates.
    pub fn new(alloc: A) -> Store<A>
        ensures { StandsFor result [] }
    {
        Store {
            files: BTreeMap::new(alloc),
            touched: Vec::new(alloc),
            totals: Totals::none(),
            totals_after: Totals::none(),
            members: 0,
        }
    }

    /// Prepares to add `submission`, and returns a plan for `commit`. The content of the store doesn't change. By the contract of
    /// `Ok`, no checksum of the submission clashes, the plan has the totals that the store will have after `commit`, and the plan
    /// belongs to the store as this call leaves it.
    ///
    /// # Errors
    ///
    /// `Clash` with the first checksum of the submission that differs from the checksum that the store, or an earlier record of the
    /// submission, has for the same line. `Memory` if an allocation failed, even if the submission also clashes. A submission
    /// without items always succeeds, since it allocates nothing.
    pub fn prepare(&mut self, alloc: A, submission: &Submission<A>) -> Result<Plan, Refuse<A>>
        requires { self.old.members < max_members }
        ensures content { SameContent self.old self.new }
        ensures planned { IfOk result (λ plan. IsPlanOf self.new submission.now plan) }
        ensures after { IfOk result (λ plan. (table : Table) → StandsFor self.old table → plan.after ≡ totals_of (content_at (table ++ rows_of submission.now ∷ []))) }
        ensures agrees { IfOk result (λ _. (table : Table) → StandsFor self.old table → clash_at table submission.now ≡ None) }
        ensures refused { IfErr result (λ e. (table : Table) → StandsFor self.old table → IsRefusedAt table submission.now (refuse_data e)) }
        ensures some { OnErr result (rows_of submission.now ≢ []) }
    {
        if submission.items() == 0 {
            // `pack` might allocate, so a submission without items isn't packed.
            let nothing = PackedSubmission::of_lawful(PackedSects::new(alloc), 0);
            return self.prepare_packed(alloc, &nothing);
        }
        let packed = pack(alloc, submission)?;
        self.prepare_packed(alloc, &packed)
    }

    /// Like [`prepare`](Store::prepare), for a packed submission.
    ///
    /// # Errors
    ///
    /// As [`prepare`](Store::prepare).
    pub fn prepare_packed(
        &mut self,
        alloc: A,
        submission: &PackedSubmission<A>,
    ) -> Result<Plan, Refuse<A>>
        requires { self.old.members < max_members }
        ensures content { SameContent self.old self.new }
        ensures planned { IfOk result (λ plan. IsPlanOf self.new submission.now plan) }
        ensures after { IfOk result (λ plan. (table : Table) → StandsFor self.old table → plan.after ≡ totals_of (content_at (table ++ rows_of submission.now ∷ []))) }
        ensures agrees { IfOk result (λ _. (table : Table) → StandsFor self.old table → clash_at table submission.now ≡ None) }
        ensures refused { IfErr result (λ e. (table : Table) → StandsFor self.old table → IsRefusedAt table submission.now (refuse_data e)) }
        ensures some { OnErr result (rows_of submission.now ≢ []) }
    {
        // Proof only: the contract of `kept` bounds the number of committed rows.
        self.kept();
        // A plan or renaming that was never committed may have left staged values.
        self.rollback();
        let added = self.add_all(alloc, submission.sects());
        match added {
            Ok(()) => Ok(Plan::new(self.after())),
            Err(refusal) => {
                self.rollback();
                Err(refusal)
            }
        }
    }

    /// Adds the submission of `plan`. The store must be as `prepare` left it. Never allocates.
    pub fn commit(&mut self, plan: Plan)
        requires { (s : SubmissionData) × IsPlanOf self.old s plan }
        ensures stands { (s : SubmissionData) (table : Table) → IsPlanOf self.old s plan → StandsFor self.old table → StandsFor self.new (table ++ rows_of s ∷ []) }
    {
        commit_staged(&mut self.files, &mut self.touched);
        self.totals = plan.after();
        self.totals_after = self.totals;
        self.members += 1;
    }

    /// Prepares to rename the test `old` to `new`, and returns a renaming for `commit_rename`. The content of the store doesn't
    /// change. If another test is named `new`, the commit will merge both tests. If no file has points of `old`, or if both names
    /// are equal, the commit will change nothing. The call looks `old` up in each file, and stages all points that the commit will
    /// move. By the contract of `Ok`, the renaming has the number of sections of `old`, and belongs to the store as this call
    /// leaves it.
    ///
    /// # Errors
    ///
    /// `Memory` if an allocation failed. A rename that does nothing always succeeds, since it allocates nothing.
    pub fn prepare_rename(
        &mut self,
        alloc: A,
        old: &[u8],
        new: &[u8],
    ) -> Result<Renaming<A>, Memory>
        ensures content { SameContent self.old self.new }
        ensures planned { IfOk result (λ renaming. IsRenamingOf self.new old.now new.now renaming) }
        ensures sections { IfOk result (λ renaming. (table : Table) → StandsFor self.old table → renaming.sections ≡ sections_of_test old.now table) }
        ensures apart { OnErr result (old.now ≢ new.now) }
        ensures some { OnErr result ((table : Table) → StandsFor self.old table → sections_of_test old.now table ≢ 0) }
    {
        // A plan or renaming that was never committed may have left staged values.
        self.rollback();
        if old == new {
            return Ok(Renaming::none(count_sections(&self.files, old)));
        }
        let names = names_with(&self.files, alloc, old)?;
        if names.is_empty() {
            return Ok(Renaming::none(0));
        }
        let leaves = Vec::from_slice(alloc, old)?;
        match self.copy_all(alloc, names.as_slice(), old, new) {
            Ok(()) => Ok(Renaming::of(names.len() as u64, leaves)),
            Err(refused) => {
                self.rollback();
                Err(refused)
            }
        }
    }

    /// Performs the prepared rename. The store must be as `prepare_rename` left it. The values of a point that both tests have are
    /// added up. The totals don't change. Never allocates.
    pub fn commit_rename(&mut self, renaming: Renaming<A>)
        requires { (old new : List ℕ) × IsRenamingOf self.old old new renaming }
        ensures stands { (old new : List ℕ) (table : Table) → IsRenamingOf self.old old new renaming → StandsFor self.old table → StandsFor self.new (renamed old new table) }
    {
        if let Some(old) = renaming.leaves() {
            commit_staged(&mut self.files, &mut self.touched);
            drop_from_files(&mut self.files, old);
        }
    }

    /// Returns the committed totals. Proofs use the contract: the committed files are the state of the rows of some table.
    fn kept(&self) -> Totals
        ensures { IsKept self.now result }
    {
        self.totals
    }

    /// Returns the staged totals, which are the totals after the next commit.
    fn after(&self) -> Totals
        ensures { result ≡ self.now.after }
    {
        self.totals_after
    }

    /// Discards the staged values. Never allocates.
    fn rollback(&mut self)
        ensures sections { self.new.sections ≡ self.old.sections }
        ensures members { self.new.members ≡ self.old.members }
        ensures committed { self.new.committed ≡ self.old.committed }
        ensures staged { self.new.staged ≡ self.old.committed }
        ensures after { self.new.after ≡ totals_in self.old.committed }
    {
        while let Some(touched) = self.touched.pop() {
            if let Some(file) = self.files.get_mut(&touched.file) {
                file.get_mut().rollback(touched.test.as_slice());
            }
        }
        self.totals_after = self.totals;
    }

    /// Stages the sections in order, up to the first error.
    fn add_all(&mut self, alloc: A, sects: PackedSectsIter<'_>) -> Result<(), Refuse<A>>
        requires { HasRoomForRows (flat_map rows_of_sect sects) self.old }
        ensures committed { SameCommitted self.old self.new }
        ensures ok { OnOk result (AddsRows (flat_map rows_of_sect sects.entry) self.old self.new) }
        ensures clash { IfErr result (λ e. ClashesWith (flat_map rows_of_sect sects.entry) self.old (refuse_data e)) }
        ensures some { OnErr result (flat_map rows_of_sect sects.entry ≢ []) }
    {
        for sect in sects {
            self.add_section(alloc, &sect)?;
        }
        Ok(())
    }

    /// Stages the items of a section. Never allocates for a section without items.
    fn add_section(&mut self, alloc: A, sect: &PackedSect<'_>) -> Result<(), Refuse<A>>
        requires { HasRoomForRows (rows_of_sect (packed_sect_data sect.now)) self.old }
        ensures committed { SameCommitted self.old self.new }
        ensures ok { OnOk result (AddsRows (rows_of_sect (packed_sect_data sect.now)) self.old self.new) }
        ensures clash { IfErr result (λ e. ClashesWith (rows_of_sect (packed_sect_data sect.now)) self.old (refuse_data e)) }
        ensures some { OnErr result (rows_of_sect (packed_sect_data sect.now) ≢ []) }
    {
        if sect.items.is_empty() {
            return Ok(());
        }
        self.stage_items(alloc, sect.file, sect.test, &sect.items)
    }

    /// Stages `items` for the test `test` of `file`, and appends this test to the list of tests with staged values.
    fn stage_items(
        &mut self,
        alloc: A,
        file: &[u8],
        test: &[u8],
        items: &PackedItems<'_>,
    ) -> Result<(), Refuse<A>>
        requires { HasRoomForRows (rows_of_items file.now test.now items.now) self.old }
        ensures committed { SameCommitted self.old self.new }
        ensures ok { OnOk result (AddsRows (rows_of_items file.now test.now items.now) self.old self.new) }
        ensures clash { IfErr result (λ e. ClashesWith (rows_of_items file.now test.now items.now) self.old (refuse_data e)) }
    {
        Touched::push(&mut self.touched, alloc, file, test)?;
        let path = Touched::last_file(self.touched.as_slice());
        let totals = stage_in_files(&mut self.files, alloc, path, test, items)?;
        self.totals_after = self.totals_after.exchanged(totals.0, totals.1);
        Ok(())
    }

    /// Adds the points of the test `old` to the test `new`, staged, in each file of `names`. `names` must be the files with points of
    /// `old`.
    fn copy_all(
        &mut self,
        alloc: A,
        names: &[Vec<u8, A>],
        old: &[u8],
        new: &[u8],
    ) -> Result<(), Memory>
        requires names { map (λ name. name.items) names.now ≡ names_with old.now self.old.committed }
        requires apart { old.now ≢ new.now }
        requires still { self.old.staged ≡ self.old.committed }
        ensures committed { SameCommitted self.old self.new }
        ensures ok { OnOk result (IsMoving self.new old.now new.now old.now) }
    {
        // Proof only: the contract of `kept` bounds the number of committed rows.
        self.kept();
        for name in names {
            self.copy_file(alloc, name.as_slice(), old, new)?;
        }
        Ok(())
    }

    /// Adds the points of the test `old` to the test `new` in `file`, staged, and appends `new` to the list of tests with staged
    /// values. The file must have points of `old`.
    fn copy_file(&mut self, alloc: A, file: &[u8], old: &[u8], new: &[u8]) -> Result<(), Memory>
        requires apart { old.now ≢ new.now }
        requires room { HasRoomToCopy file.now old.now self.old }
        ensures committed { SameCommitted self.old self.new }
        ensures ok { OnOk result (Copies file.now old.now new.now self.old.staged self.new.staged) }
    {
        Touched::push(&mut self.touched, alloc, file, new)?;
        let path = Touched::last_file(self.touched.as_slice());
        let Some(opened) = self.files.get_mut(path) else {
            unreachable!();
        };
        opened.get_mut().copy_test(alloc, old, new)
    }

    /// Whether the store has a section of this test. Looks the test up in one file after another, up to the first file in which the
    /// test has points. Never allocates.
    pub fn has_test(&self, test: &[u8]) -> bool
        ensures value { result ≡ list_any (λ s. bytes_eq s.key.test test.now) self.now.sections }
        ensures rows { (table : Table) → StandsFor self.now table → result ≡ list_any (λ row. bytes_eq row.test test.now) (all_rows table) }
    {
        self.files.values().any(|file| file.get().has_test(test))
    }

    /// Returns the number of sections of the test, and the totals that the store would have after `drop_test`. Never allocates.
    pub fn after_drop(&self, test: &[u8]) -> (u64, Totals)
        ensures sections { (table : Table) → StandsFor self.now table → result.0 ≡ sections_of_test test.now table }
        ensures totals { (table : Table) → StandsFor self.now table → result.1 ≡ totals_of (content_at (without_test test.now table)) }
        ensures bounds { AreTotals result.1 }
    {
        count_without(&self.files, test)
    }

    /// Drops a test with its points. Other tests keep their points. Returns the number of sections that the dropped test had. Never
    /// allocates.
    pub fn drop_test(&mut self, test: &[u8]) -> u64
        ensures sections { (table : Table) → StandsFor self.old table → result ≡ sections_of_test test.now table }
        ensures stands { (table : Table) → StandsFor self.old table → StandsFor self.new (without_test test.now table) }
    {
        let (sections, totals) = self.after_drop(test);
        self.drop_leaving(test, totals);
        sections
    }

    /// Drops a test as `drop_test` does. `totals` must be those that `after_drop` returns. Never allocates.
    pub fn drop_leaving(&mut self, test: &[u8], totals: Totals)
        requires { (table : Table) → StandsFor self.old table → totals ≡ totals_of (content_at (without_test test.now table)) }
        ensures { (table : Table) → StandsFor self.old table → StandsFor self.new (without_test test.now table) }
    {
        // A plan or renaming that was never committed may have left staged values.
        self.rollback();
        drop_from_files(&mut self.files, test);
        self.totals = totals;
        self.totals_after = totals;
    }

    /// The totals over all files and tests. Never allocates.
    pub fn totals(&self) -> Totals
        ensures value { result ≡ totals_of self.now.sections }
        ensures bounds { AreTotals result }
    {
        self.totals
    }

    /// Returns an iterator over the files that have points, ascending by path, each with its totals over all tests. Never
    /// allocates.
    pub fn files(&self) -> Files<'_, A>
        ensures { result ≡ files_with_totals self.now.sections }
    {
        Files::of(self.files.iter())
    }

    /// Returns an iterator over the sections of `file`, ascending by test, or `None` if no submission has the file.
    pub(crate) fn file_sections(
        &self,
        alloc: A,
        file: &[u8],
    ) -> Result<Option<FileSections<'_, A>>, Memory>
        ensures { IfOk result (λ sections. unwrap_or sections [] ≡ own_sections file.now self.now.sections) }
    {
        let path = Path::from_slice(alloc, file)?;
        match self.files.get_key_value(&path) {
            Some((name, found)) => Ok(Some(found.get().sections(name.as_slice()))),
            None => Ok(None),
        }
    }

    /// Returns an iterator over the sections, ascending by file and then by test. A section is a test of a file, with at least one
    /// point. Never allocates.
    pub fn sections(&self) -> Sections<'_, A>
        ensures { result ≡ self.now.sections }
    {
        Sections::of(self.files.iter())
    }
}
