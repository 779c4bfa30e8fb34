//! Prints one line of a tracefile.

ghost use Rattle.std.specs.Prelude.{◌≡◌, ◌++◌, ◌∷◌, [], OnOk, OnErr, IsOk, ◌≤◌, ℕ, List, decimal, length, option_map};
ghost use Rattle.covdata.specs.Delimiters.{line_feed, comma};
ghost use Rattle.covline.specs.Lines.{lines_of};
ghost use Rattle.covdata.specs.Records.{Branch, Line, Skip, Total, line_data};
ghost use Rattle.covline.specs.Spells.{Spells};
ghost use Rattle.covdata.specs.Printed.{line_text, printed, IsReadable};

use covdata::{BranchPoint, Bytes, Memory, RecordBuffer, TotalKind, TraceLine};
use std::alloc::Allocator;

/// Appends the record to `text`, as a line with a line feed. Leaves `text` unchanged on `Memory`. Appends nothing for `Skip`, and
/// then never fails.
pub fn put_line<A: Allocator>(line: &TraceLine<'_>, text: &mut Bytes<A>) -> Result<(), Memory>
    ensures ok { OnOk result (text.new ≡ text.old ++ printed (line_data line.now)) }
    ensures err { OnErr result (text.new ≡ text.old) }
    ensures skip { line_data line.now ≡ Skip → IsOk result }
    ensures spells { IsReadable (line_data line.now)
        → (lines_of (printed (line_data line.now)) ≡ line_text (line_data line.now) ∷ [])
        × Spells (line_text (line_data line.now)) (line_data line.now) }
{
    let before = text.len();
    let put = append_record(line, text);
    if put.is_err() {
        text.truncate(before);
    }
    put
}

/// Appends the record to `text`, as a line with a line feed. `append_record`, `append_text`, `append_named` and `append_line_count`
/// may leave part of the line in `text` on `Memory`.
fn append_record<A: Allocator>(line: &TraceLine<'_>, text: &mut Bytes<A>) -> Result<(), Memory>
    ensures ok { OnOk result (text.new ≡ text.old ++ printed (line_data line.now)) }
    ensures err { OnErr result ((more : List ℕ) × (text.new ≡ text.old ++ more)) }
    ensures skip { line_data line.now ≡ Skip → IsOk result }
{
    match *line {
        TraceLine::Test(name) => append_text(b"TN:", name, text),
        TraceLine::Path(path) => append_text(b"SF:", path, text),
        TraceLine::FuncStart { line, name } => append_named(b"FN:", u128::from(line), name, text),
        TraceLine::FuncCount { count, name } => append_named(b"FNDA:", count, name, text),
        TraceLine::Branch {
            line,
            block,
            branch,
            taken,
        } => {
            let branch = BranchPoint {
                line,
                block,
                branch,
            };
            append_branch(branch, taken, text)
        }
        TraceLine::Line {
            line,
            count,
            checksum,
        } => append_line_count(line, count, checksum, text),
        TraceLine::Total { kind, value } => append_total(kind, value, text),
        TraceLine::End => append_text(b"end_of_record", b"", text),
        TraceLine::Skip => Ok(()),
    }
}

/// Appends `key`, `field` and a line feed to `text`.
fn append_text<A: Allocator>(key: &[u8], field: &[u8], text: &mut Bytes<A>) -> Result<(), Memory>
    ensures ok { OnOk result (text.new ≡ text.old ++ (key.now ++ field.now ++ line_feed ∷ [])) }
    ensures err { OnErr result ((more : List ℕ) × (text.new ≡ text.old ++ more)) }
{
    text.append(key)?;
    text.append(field)?;
    text.append(b"\n")
}

/// Appends a function's record: `key`, `number`, a comma and `name`.
fn append_named<A: Allocator>(
    key: &[u8],
    number: u128,
    name: &[u8],
    text: &mut Bytes<A>,
) -> Result<(), Memory>
    requires { length key.now ≤ 5 }
    ensures ok { OnOk result
        (text.new ≡ text.old ++ (key.now ++ decimal number ++ comma ∷ name.now ++ line_feed ∷ [])) }
    ensures err { OnErr result ((more : List ℕ) × (text.new ≡ text.old ++ more)) }
{
    let mut front = RecordBuffer::new();
    front.write_named(key, number);
    append_text(front.get(), name, text)
}

/// Appends the record of a branch.
fn append_branch<A: Allocator>(
    branch: BranchPoint,
    taken: Option<u128>,
    text: &mut Bytes<A>,
) -> Result<(), Memory>
    ensures ok { OnOk result
        (text.new ≡ text.old ++ printed (Branch branch.line branch.block branch.branch taken)) }
    ensures err { OnErr result (text.new ≡ text.old) }
{
    let mut record = RecordBuffer::new();
    record.write_branch(branch, taken);
    text.append(record.get())
}

/// Appends the record of an instrumented line.
fn append_line_count<A: Allocator>(
    line: u64,
    count: u128,
    checksum: Option<&[u8]>,
    text: &mut Bytes<A>,
) -> Result<(), Memory>
    ensures ok { OnOk result
        (text.new ≡ text.old ++ printed (Line line count (option_map (λ c. c.now) checksum.entry))) }
    ensures err { OnErr result ((more : List ℕ) × (text.new ≡ text.old ++ more)) }
{
    let mut record = RecordBuffer::new();
    match checksum {
        Some(checksum) => {
            record.write_line_count(line, count, b',');
            append_text(record.get(), checksum, text)
        }
        None => {
            record.write_line_count(line, count, b'\n');
            text.append(record.get())
        }
    }
}

/// Appends the record of a total.
fn append_total<A: Allocator>(
    kind: TotalKind,
    value: u64,
    text: &mut Bytes<A>,
) -> Result<(), Memory>
    ensures ok { OnOk result (text.new ≡ text.old ++ printed (Total kind value)) }
    ensures err { OnErr result (text.new ≡ text.old) }
{
    let mut record = RecordBuffer::new();
    record.write_total(kind, value);
    text.append(record.get())
}
