//! Gives submissions their new names.

ghost use Rattle.std.specs.Prelude.{◌≡◌, ◌<◌, length, map, IfOk, OnOk};
ghost use Rattle.covpaths.specs.Names.{marked, named, used_after};
ghost use Rattle.covpaths.specs.Paths.{first_mapped};
ghost use Rattle.covpaths.specs.Steps.{file_in, mapped_sect, mapped_set, tested_sect};

use crate::names::NewNames;
use crate::used::UsedRules;
use covdata::Memory;
use covpacked::{PackedSects, PackedSubmission};
use std::alloc::Global;

/// Gives the sections of `submission` their new names, and marks in `used` the rules that are applied. Copies no item.
pub fn rename(
    alloc: Global,
    names: &NewNames<'_>,
    submission: PackedSubmission,
    used: &mut UsedRules,
) -> Result<PackedSubmission, Memory>
    ensures renamed { IfOk result (λ after. after ≡ named names.now submission) }
    ensures used { OnOk result (used.new ≡ used_after names.now.rules used.old submission.sects) }
{
    let odd = submission.odd();
    let test = names.test();
    let mut sects = submission.into_sects();
    map_files(alloc, names, &mut sects, used)?;
    if let Some(test) = test {
        set_tests(&mut sects, test)?;
    }
    Ok(PackedSubmission::of_lawful(sects, odd))
}

/// Gives each closed section the path that the rules give its source file.
fn map_files(
    alloc: Global,
    names: &NewNames<'_>,
    sects: &mut PackedSects,
    used: &mut UsedRules,
) -> Result<(), Memory>
    ensures mapped { OnOk result (sects.new.sects ≡ map (mapped_sect names.now.rules) sects.old.sects) }
    ensures used { OnOk result (used.new ≡ used_after names.now.rules used.old sects.old.sects) }
{
    for index in 0..sects.closed_sects() {
        map_file(alloc, names, sects, index, used)?;
    }
    Ok(())
}

/// Gives the section at `index` the path that the first rule that applies gives its source file, if one does.
fn map_file(
    alloc: Global,
    names: &NewNames<'_>,
    sects: &mut PackedSects,
    index: usize,
    used: &mut UsedRules,
) -> Result<(), Memory>
    requires { index < length sects.old.sects }
    ensures mapped { OnOk result (sects.new.sects ≡ mapped_set index (first_mapped names.now.rules (file_in index sects.old.sects)) sects.old.sects) }
    ensures used { OnOk result (used.new ≡ marked used.old (first_mapped names.now.rules (file_in index sects.old.sects))) }
{
    let Some(file) = sects.file_at(index) else {
        unreachable!();
    };
    match names.map(alloc, file)? {
        Some(mapped) => {
            used.mark(mapped.rule);
            sects.set_file(index, mapped.path.get())
        }
        None => Ok(()),
    }
}

/// Gives each closed section this test.
fn set_tests(sects: &mut PackedSects, test: &[u8]) -> Result<(), Memory>
    ensures { OnOk result (sects.new.sects ≡ map (tested_sect test.now) sects.old.sects) }
{
    for index in 0..sects.closed_sects() {
        sects.set_test(index, test)?;
    }
    Ok(())
}
