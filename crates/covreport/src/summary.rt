//! Summaries of totals, as lcov(1) prints them with `--summary`.

ghost use Rattle.std.specs.Prelude.{◌≡◌, ◌<◌, ◌≤◌, ◌++◌, ◌/◌, ◌%◌, IfOk, OnOk, codes, decimal, filter};
ghost use Rattle.covtable.specs.declared.totals.Totals.{Totals};
ghost use Rattle.covtable.specs.Totals.{AreTotals, totals_of};
ghost use Rattle.covtable.specs.TotalsExchanged.{IsAmong, together};
ghost use Rattle.covreport.specs.Choice.{is_chosen};
ghost use Rattle.covreport.specs.ChoiceView.{choice_data};
ghost use Rattle.covreport.specs.Others.{others};
ghost use Rattle.covreport.specs.Summary.{summary_of, summary_line, value_text, tenths_of, noun as noun_of, rounded as rounded_of};

use crate::choice::Choice;
use crate::table::Table;
use covdata::{Bytes, Memory};
use covtable::{TableFiles, Totals};
use std::alloc::Allocator;

/// The totals of all tests in the chosen files. Never allocates.
pub fn chosen_totals<A: Allocator, T: Table<A>>(store: &T, choice: &Choice<A>) -> Totals
    ensures value { result ≡ totals_of (filter (λ s. is_chosen (choice_data choice.now) s.key.file) (T.shown store.now).sections) }
    ensures bounds { AreTotals result }
{
    store.chosen_totals(choice)
}

/// Subtracts the totals of each file that isn't chosen from the totals of the whole. Never allocates.
pub fn without_others<'s, A: Allocator, I: TableFiles<'s>>(
    mut files: I,
    choice: &Choice<A>,
    whole: Totals,
) -> Totals
    requires { (own : Totals) × (whole ≡ together own (others (is_chosen (choice_data choice.now)) (I.left files))) }
    ensures { (own : Totals) → whole ≡ together own (others (is_chosen (choice_data choice.now)) (I.left files)) → result ≡ own }
{
    let mut totals = whole;
    while let Some(file) = files.next_file() {
        if !choice.takes(file.path) {
            totals = without(totals, file.totals);
        }
    }
    totals
}

/// Subtracts the totals of a part from the totals of the whole.
fn without(whole: Totals, part: Totals) -> Totals
    requires { IsAmong part whole }
    ensures { together result part ≡ whole }
{
    Totals {
        lf: whole.lf - part.lf,
        lh: whole.lh - part.lh,
        ff: whole.ff - part.ff,
        fh: whole.fh - part.fh,
        bf: whole.bf - part.bf,
        bh: whole.bh - part.bh,
    }
}

/// The percentage of points hit, in tenths of a percent: 0 to 1000. Rounds to the nearest, halves up. But returns at most 999 if
/// any point isn't hit, and at least 1 if any point is hit. Never allocates.
pub fn tenths(hit: u64, found: u64) -> u32
    requires some { 0 < found }
    requires fewer { hit ≤ found }
    ensures { result ≡ tenths_of hit found }
{
    let nearest = rounded(hit, found);
    let not_all = if hit < found {
        nearest.min(999)
    } else {
        nearest
    };
    if hit > 0 { not_all.max(1) } else { not_all }
}

/// The percentage of points hit, in tenths of a percent, rounded to the nearest, halves up.
fn rounded(hit: u64, found: u64) -> u32
    requires some { 0 < found }
    requires fewer { hit ≤ found }
    ensures { result ≡ rounded_of hit found }
{
    let hit = u128::from(hit);
    let found = u128::from(found);
    ((2000 * hit + found) / (2 * found)) as u32
}

/// Returns the summary: a heading, and one line each for lines, functions and branches.
pub fn summary_text<A: Allocator>(alloc: A, totals: &Totals) -> Result<Bytes<A>, Memory>
    requires { AreTotals totals.now }
    ensures { IfOk result (λ t. t ≡ summary_of totals.now) }
{
    let mut text = Bytes::new(alloc);
    text.append(b"Summary coverage rate:\n")?;
    let lines = Words {
        label: b"lines......: ",
        one: b"line",
        many: b"lines",
    };
    put_summary(&lines, totals.lh, totals.lf, &mut text)?;
    let functions = Words {
        label: b"functions..: ",
        one: b"function",
        many: b"functions",
    };
    put_summary(&functions, totals.fh, totals.ff, &mut text)?;
    let branches = Words {
        label: b"branches...: ",
        one: b"branch",
        many: b"branches",
    };
    put_summary(&branches, totals.bh, totals.bf, &mut text)?;
    Ok(text)
}

/// A summary line's label, and its noun in singular and plural.
#[derive(Clone, Copy)]
struct Words<'a> {
    label: &'a [u8],
    one: &'a [u8],
    many: &'a [u8],
}

/// Appends the summary line for one kind of coverage points.
fn put_summary<A: Allocator>(
    words: &Words<'_>,
    hit: u64,
    found: u64,
    text: &mut Bytes<A>,
) -> Result<(), Memory>
    requires { hit ≤ found }
    ensures { OnOk result
        (text.new ≡ text.old ++ summary_line words.now.label.now (value_text words.now.one.now words.now.many.now hit found)) }
{
    text.append(b"  ")?;
    text.append(words.label)?;
    put_value(words, hit, found, text)?;
    text.append(b"\n")
}

/// Appends the percentage of points hit, and how many points are hit and found. Appends `no data found` if no points are found.
fn put_value<A: Allocator>(
    words: &Words<'_>,
    hit: u64,
    found: u64,
    text: &mut Bytes<A>,
) -> Result<(), Memory>
    requires { hit ≤ found }
    ensures { OnOk result (text.new ≡ text.old ++ value_text words.now.one.now words.now.many.now hit found) }
{
    if found == 0 {
        text.append(b"no data found")?;
        return Ok(());
    }
    put_tenths(tenths(hit, found), text)?;
    text.append(b"% (")?;
    put_parts(words, hit, found, text)
}

/// Appends how many points are hit and found, then the noun and the closing parenthesis.
fn put_parts<A: Allocator>(
    words: &Words<'_>,
    hit: u64,
    found: u64,
    text: &mut Bytes<A>,
) -> Result<(), Memory>
    ensures { OnOk result
        (text.new ≡ text.old ++ (decimal hit ++ (codes " of " ++ (decimal found ++ (codes " " ++ (noun_of words.now.one.now words.now.many.now found ++ codes ")")))))) }
{
    text.append_number(hit)?;
    text.append(b" of ")?;
    text.append_number(found)?;
    text.append(b" ")?;
    text.append(noun(words, found))?;
    text.append(b")")
}

/// The noun for `found` points: the singular for one point, otherwise the plural.
fn noun<'a>(words: &Words<'a>, found: u64) -> &'a [u8]
    ensures { result.now ≡ noun_of words.now.one.now words.now.many.now found }
{
    if found == 1 { words.one } else { words.many }
}

/// Appends tenths of a percent as a percentage with one decimal place, without a percent sign.
pub fn put_tenths<A: Allocator>(tenths: u32, text: &mut Bytes<A>) -> Result<(), Memory>
    ensures { OnOk result (text.new ≡ text.old ++ (decimal (tenths / 10) ++ (codes "." ++ decimal (tenths % 10)))) }
{
    text.append_number(u64::from(tenths / 10))?;
    text.append(b".")?;
    text.append_number(u64::from(tenths % 10))
}
