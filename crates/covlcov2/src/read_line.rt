//! Parses one line of a tracefile of LCOV 2. Records that LCOV 2 changed or added are parsed here, all others by covline.

ghost use Rattle.std.specs.Prelude.{◌≡◌, ℕ, List, Option, false, codes, option_map, Err, MatchResult, IfOk, IfErr};
ghost use Rattle.covdata.specs.declared.trace_line.LineFault.{LineFault};
ghost use Rattle.covline.specs.Reading.{number_of};
ghost use Rattle.covlcov2.specs.Spells.{Lcov2Data, lcov2_data, Lcov2Spells, HasLcov2Fault, is_mark};
ghost use Rattle.covlcov2.specs.Reading.{GivesLcov2, name_in, end_of, start_fields, leader_fields, leader_of, alias_fields, alias_of, marks_from, last_cut, branch_name, edge_of, edge_end, edge_rest, edge_fields, read_of_lcov2, fit_any, fit_any_count};

use crate::line::Lcov2Line;
use covdata::{LineFault, TraceLine};
use covline::fields::{
    Number, read_any, read_count, read_field, read_number, read_taken, read_whole, split_comma,
};
use covline::strip_key;
use memchr::memrchr;

/// The name in the text after a start line. Skips an end line that is followed by a name.
fn name_in(text: &[u8]) -> &[u8]
    ensures { result.now ≡ name_in text.now }
{
    match read_field(text) {
        Some((_, name @ [_, ..])) => name,
        _ => text,
    }
}

/// Parses the fields after `FN:`.
fn start_record(fields: &[u8]) -> Result<Lcov2Line<'_>, LineFault>
    ensures { GivesLcov2 result (start_fields fields.now) }
{
    let Some((line, rest)) = read_field(fields) else {
        return Err(LineFault::BadLine);
    };
    let name = name_in(rest);
    if name.is_empty() {
        return Err(LineFault::BadLine);
    }
    let line = line.fit()?;
    Ok(Lcov2Line::Plain(TraceLine::FuncStart { line, name }))
}

/// Parses the optional end line in the text after a start line. Returns `Some(None)` if the text is empty, and `None` if the text
/// has another form.
fn read_end(text: &[u8]) -> Option<Option<Number>>
    ensures { result ≡ end_of text.now }
{
    match text {
        [] => Some(None),
        [b',', end @ ..] => Some(Some(read_whole(end)?)),
        _ => None,
    }
}

/// The record of an index's start line. Fails if a number doesn't fit into 64 bits.
fn fit_leader<'a>(index: Number, line: Number) -> Result<Lcov2Line<'a>, LineFault>
    ensures { GivesLcov2 result (leader_of index line) }
{
    let index = index.fit()?;
    let line = line.fit()?;
    Ok(Lcov2Line::Leader { index, line })
}

/// Parses the fields after `FNL:`.
fn leader_record(fields: &[u8]) -> Result<Lcov2Line<'_>, LineFault>
    ensures { GivesLcov2 result (leader_fields fields.now) }
{
    let Some((index, rest)) = read_field(fields) else {
        return Err(LineFault::BadLine);
    };
    let Some((line, rest)) = read_number(rest) else {
        return Err(LineFault::BadLine);
    };
    match read_end(rest) {
        None => Err(LineFault::BadLine),
        Some(_) => fit_leader(index, line),
    }
}

/// The record of a function's count. Fails if `index` doesn't fit into 64 bits, or `count` into 128 bits.
fn fit_alias(index: Number, count: Number, name: &[u8]) -> Result<Lcov2Line<'_>, LineFault>
    ensures { GivesLcov2 result (alias_of index count name.now) }
{
    let index = index.fit()?;
    let count = count.fit_count()?;
    Ok(Lcov2Line::Alias { index, count, name })
}

/// Parses the fields after `FNA:`.
fn alias_record(fields: &[u8]) -> Result<Lcov2Line<'_>, LineFault>
    ensures { GivesLcov2 result (alias_fields fields.now) }
{
    let Some((index, rest)) = read_field(fields) else {
        return Err(LineFault::BadLine);
    };
    let Some((count, rest)) = read_count(rest) else {
        return Err(LineFault::BadLine);
    };
    let Some((count, name @ [_, ..])) = split_comma(count, rest) else {
        return Err(LineFault::BadLine);
    };
    fit_alias(index, count, name)
}

/// Skips the marks at the front of the text. Returns whether `U` is among the marks, and what follows them.
fn skip_marks(text: &[u8]) -> (bool, &[u8])
    ensures excluded { result.0 ≡ (marks_from false text.now).0 }
    ensures rest { result.1.now ≡ (marks_from false text.now).1 }
{
    let mut is_excluded = false;
    let mut rest = text;
    while let [mark, after @ ..] = rest {
        if !is_mark(*mark) {
            break;
        }
        is_excluded = is_excluded || *mark == b'U';
        rest = after;
    }
    (is_excluded, rest)
}

/// Whether the byte is a mark: `e` (exception), `f` (fallthrough) or `U` (excluded).
fn is_mark(byte: u8) -> bool
    ensures { result ≡ is_mark byte }
{
    byte == b'e' || byte == b'f' || byte == b'U'
}

/// Splits the text at its last comma. Returns `None` if there is no comma.
fn cut_last(text: &[u8]) -> Option<(&[u8], &[u8])>
    ensures { option_map (λ cut. (cut.0.now, cut.1.now)) result ≡ last_cut text.now }
{
    match memrchr(b',', text) {
        Some(at) => Some((&text[..at], &text[at + 1..])),
        None => None,
    }
}

/// Parses a branch's name. Returns its number, `Some(None)` for an expression, or `None` for an empty text.
fn read_branch_name(text: &[u8]) -> Option<Option<Number>>
    ensures { result ≡ branch_name text.now }
{
    if text.is_empty() {
        return None;
    }
    Some(read_whole(text))
}

/// Converts an optional number to 64 bits. Fails if the number doesn't fit.
fn fit_any(number: Option<Number>) -> Result<Option<u64>, LineFault>
    ensures { result ≡ fit_any number }
{
    match number {
        Some(number) => Ok(Some(number.fit()?)),
        None => Ok(None),
    }
}

/// Converts an optional count to 128 bits. Fails if the count doesn't fit.
fn fit_any_count(count: Option<Number>) -> Result<Option<u128>, LineFault>
    ensures { result ≡ fit_any_count count }
{
    match count {
        Some(count) => Ok(Some(count.fit_count()?)),
        None => Ok(None),
    }
}

/// The record of a branch. Fails if `taken` doesn't fit into 128 bits, or another number into 64 bits.
fn fit_edge<'a>(
    is_excluded: bool,
    line: Number,
    block: Number,
    branch: Option<Number>,
    taken: Option<Number>,
) -> Result<Lcov2Line<'a>, LineFault>
    ensures { GivesLcov2 result (edge_of is_excluded line block branch taken) }
{
    let line = line.fit()?;
    let block = block.fit()?;
    let number = fit_any(branch)?;
    let taken = fit_any_count(taken)?;
    Ok(Lcov2Line::Edge {
        is_excluded,
        line,
        block,
        number,
        taken,
    })
}

/// Parses the last two fields of a branch: its name, and how often the branch was taken.
fn read_edge_end<'a>(
    is_excluded: bool,
    line: Number,
    block: Number,
    name: &[u8],
    taken: &[u8],
) -> Result<Lcov2Line<'a>, LineFault>
    ensures { GivesLcov2 result (edge_end is_excluded line block (name.now, taken.now)) }
{
    let Some(branch) = read_branch_name(name) else {
        return Err(LineFault::BadLine);
    };
    match read_taken(taken) {
        None => Err(LineFault::BadLine),
        Some(taken) => fit_edge(is_excluded, line, block, branch, taken),
    }
}

/// Parses a branch. `rest` is what follows the branch's source line and marks.
fn read_edge_rest<'a>(
    is_excluded: bool,
    line: Number,
    rest: &[u8],
) -> Result<Lcov2Line<'a>, LineFault>
    ensures { GivesLcov2 result (edge_rest is_excluded line rest.now) }
{
    let Some((block, rest)) = read_field(rest) else {
        return Err(LineFault::BadLine);
    };
    match cut_last(rest) {
        None => Err(LineFault::BadLine),
        Some((name, taken)) => read_edge_end(is_excluded, line, block, name, taken),
    }
}

/// Parses the fields after `BRDA:`.
fn edge_record(fields: &[u8]) -> Result<Lcov2Line<'_>, LineFault>
    ensures { GivesLcov2 result (edge_fields fields.now) }
{
    let Some((line, rest)) = read_field(fields) else {
        return Err(LineFault::BadLine);
    };
    let (is_excluded, rest) = skip_marks(rest);
    read_edge_rest(is_excluded, line, rest)
}

/// Parses a line. First tries the keys that LCOV 2 changed or added.
#[tactic(auto, unfolding(crate::specs::Reading::read_of_lcov2))]
fn read_any_lcov2(line: &[u8]) -> Result<Lcov2Line<'_>, LineFault>
    ensures { GivesLcov2 result (read_of_lcov2 line.now) }
{
    if let Some(fields) = strip_key(line, b"BRDA:") {
        return edge_record(fields);
    }
    if let Some(fields) = strip_key(line, b"FN:") {
        return start_record(fields);
    }
    if let Some(fields) = strip_key(line, b"FNL:") {
        return leader_record(fields);
    }
    if let Some(fields) = strip_key(line, b"FNA:") {
        return alias_record(fields);
    }
    match read_any(line) {
        Ok(says) => Ok(Lcov2Line::Plain(says)),
        Err(fault) => Err(fault),
    }
}

/// Parses one line of a tracefile of LCOV 2, without the line feed and the carriage returns at its end. The possible errors are
/// those of covline's `read_line`.
pub fn read_lcov2_line(line: &[u8]) -> Result<Lcov2Line<'_>, LineFault>
    ensures ok { IfOk result (λ t. Lcov2Spells line.now (lcov2_data t)) }
    ensures err { IfErr result (λ f. HasLcov2Fault line.now f) }
    ensures only { (says : Lcov2Data) → Lcov2Spells line.now says → MatchResult result (λ t. lcov2_data t ≡ says) (λ f. ⊥) }
    ensures only_fault { (fault : LineFault) → HasLcov2Fault line.now fault → result ≡ Err fault }
{
    read_any_lcov2(line)
}
