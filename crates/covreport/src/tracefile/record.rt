//! The records of a tracefile. Each function prints one record.

ghost use Rattle.std.specs.Prelude.{◌≡◌, ◌++◌, ◌∷◌, [], ◌≤◌, decimal, length};
ghost use Rattle.covdata.specs.Delimiters.{line_feed, comma};
ghost use Rattle.covdata.specs.Printed.{printed};
ghost use Rattle.covdata.specs.Records.{Test, Path, Total, End};
ghost use Rattle.covreport.specs.FunctionView.{printed_function};
ghost use Rattle.covreport.specs.Report.{branch_record, call_record, line_record, start_record};
ghost use Rattle.covtable.specs.ValuesView.{branch_data, line_data};

use super::functions::PrintedFunction;
use crate::printer::Printer;
use covdata::{BranchPoint, RecordBuffer, TotalKind};
use covtable::{BranchValue, LineValue};

/// Prints a `TN` record: the name of a test.
pub(super) fn put_test<P: Printer>(name: &[u8], out: &mut P)
    ensures { P.text out.new ≡ P.text out.old ++ printed (Test name.now) }
{
    out.put(b"TN:");
    out.put(name);
    out.put(b"\n");
}

/// Prints an `SF` record: the path of a file.
pub(super) fn put_path<P: Printer>(path: &[u8], out: &mut P)
    ensures { P.text out.new ≡ P.text out.old ++ printed (Path path.now) }
{
    out.put(b"SF:");
    out.put(path);
    out.put(b"\n");
}

/// Prints an `FN` record: the start line and the name of a function.
pub(super) fn put_start<P: Printer>(function: &PrintedFunction<'_>, out: &mut P)
    ensures { P.text out.new ≡ P.text out.old ++ printed (start_record (printed_function function.now)) }
{
    put_named(b"FN:", u128::from(function.line), function.name, out);
}

/// Prints an `FNDA` record: the count and the name of a function.
pub(super) fn put_call<P: Printer>(function: &PrintedFunction<'_>, out: &mut P)
    ensures { P.text out.new ≡ P.text out.old ++ printed (call_record (printed_function function.now)) }
{
    put_named(b"FNDA:", function.count, function.name, out);
}

/// Prints a function's record: `key`, `number`, a comma and `name`.
fn put_named<P: Printer>(key: &[u8], number: u128, name: &[u8], out: &mut P)
    requires { length key.now ≤ 5 }
    ensures { P.text out.new ≡ P.text out.old ++ (key.now ++ decimal number ++ comma ∷ name.now ++ line_feed ∷ []) }
{
    let mut front = RecordBuffer::new();
    front.write_named(key, number);
    out.put(front.get());
    out.put(name);
    out.put(b"\n");
}

/// Prints a `BRDA` record: a branch, and how often it was taken. `record` is a buffer, whose content is replaced.
pub(super) fn put_branch<P: Printer>(branch: &BranchValue, record: &mut RecordBuffer, out: &mut P)
    ensures { P.text out.new ≡ P.text out.old ++ printed (branch_record (branch_data branch.now)) }
{
    let point = BranchPoint {
        line: branch.line,
        block: branch.block,
        branch: branch.branch,
    };
    record.write_branch(point, branch.taken);
    out.put(record.get());
}

/// Prints a `DA` record: a line, its count, and its checksum if it has one. `record` is a buffer, whose content is replaced.
pub(super) fn put_count<P: Printer>(line: &LineValue<'_>, record: &mut RecordBuffer, out: &mut P)
    ensures { P.text out.new ≡ P.text out.old ++ printed (line_record (line_data line.now)) }
{
    match line.checksum {
        Some(checksum) => {
            record.write_line_count(line.line, line.count, b',');
            out.put(record.get());
            out.put(checksum);
            out.put(b"\n");
        }
        None => {
            record.write_line_count(line.line, line.count, b'\n');
            out.put(record.get());
        }
    }
}

/// Prints the record of a total.
pub(super) fn put_total<P: Printer>(kind: TotalKind, value: u64, out: &mut P)
    ensures { P.text out.new ≡ P.text out.old ++ printed (Total kind value) }
{
    let mut record = RecordBuffer::new();
    record.write_total(kind, value);
    out.put(record.get());
}

/// Prints the record that ends a section.
pub(super) fn put_end<P: Printer>(out: &mut P)
    ensures { P.text out.new ≡ P.text out.old ++ printed End }
{
    out.put(b"end_of_record\n");
}
