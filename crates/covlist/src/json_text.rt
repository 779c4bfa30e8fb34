//! Prints files with their totals, or only totals, as JSON.

ghost use Rattle.std.specs.Prelude.{◌≡◌, ◌++◌, IfOk, OnOk, codes, if◌then◌else◌};
ghost use Rattle.hex.specs.Hex.{encode_lower};
ghost use Rattle.json.specs.Print.{quoted};
ghost use Rattle.covtable.specs.ValuesView.{file_totals_data};
ghost use Rattle.covreport.specs.ChoiceView.{choice_data};
ghost use Rattle.covlist.specs.Chosen.{chosen_files, totals_of_chosen};
ghost use Rattle.covlist.specs.Json.{file_object, hexadecimal_name, list_json_of, members, name_member, objects, points, string_name, summary_json_of};

use covdata::{Bytes, Memory};
use covreport::{Choice, Table, chosen_totals};
use covtable::{FileTotals, Totals};
use json::Writer;
use std::alloc::Allocator;

/// Returns the chosen files with their totals as one JSON object (RFC 8259). The object is `{"files":[..],"total":{..}}`. `files`
/// has an object for each chosen file, ascending by path, each on its own line. `total` has the totals of the chosen files. Lines,
/// functions and branches each have totals such as `{"found":7,"hit":6}`. A file's object has the path under `file`, or in
/// lower-case hexadecimal under `file_hex` if the path isn't UTF-8.
///
/// # Errors
///
/// `Memory` if an allocation failed.
pub fn list_json<A: Allocator + Copy, T: Table<A>>(
    alloc: A,
    store: &T,
    choice: &Choice<A>,
) -> Result<Bytes<A>, Memory>
    ensures { IfOk result (λ t. t ≡ list_json_of (chosen_files (choice_data choice.now) (T.shown store.now).sections) (totals_of_chosen (choice_data choice.now) (T.shown store.now).sections)) }
{
    let mut text = Bytes::new(alloc);
    text.append(b"{\"files\":[")?;
    put_objects(alloc, store, choice, &mut text)?;
    text.append(b"\n],\"total\":{")?;
    put_members(&chosen_totals(store, choice), &mut text)?;
    text.append(b"}}\n")?;
    Ok(text)
}

/// Returns totals as one line of JSON (RFC 8259): how many lines, functions and branches are found and hit.
///
/// # Errors
///
/// `Memory` if an allocation failed.
pub fn summary_json<A: Allocator>(alloc: A, totals: &Totals) -> Result<Bytes<A>, Memory>
    ensures { IfOk result (λ t. t ≡ summary_json_of totals.now) }
{
    let mut text = Bytes::new(alloc);
    text.append(b"{")?;
    put_members(totals, &mut text)?;
    text.append(b"}\n")?;
    Ok(text)
}

/// Appends the JSON objects of the chosen files.
fn put_objects<A: Allocator + Copy, T: Table<A>>(
    alloc: A,
    store: &T,
    choice: &Choice<A>,
    text: &mut Bytes<A>,
) -> Result<(), Memory>
    ensures { OnOk result (text.new ≡ text.old ++ objects (chosen_files (choice_data choice.now) (T.shown store.now).sections)) }
{
    let mut is_first = true;
    let files = store.files(alloc)?;
    for file in files {
        if choice.takes(file.path) {
            put_object(alloc, file, is_first, text)?;
            is_first = false;
        }
    }
    Ok(())
}

/// Appends the object of a file on a new line, after a comma unless the file is the first.
fn put_object<A: Allocator>(
    alloc: A,
    file: FileTotals<'_>,
    is_first: bool,
    text: &mut Bytes<A>,
) -> Result<(), Memory>
    ensures { OnOk result (text.new ≡ text.old ++ ((if is_first then codes "\n" else codes ",\n") ++ file_object (file_totals_data file.entry))) }
{
    text.append(if is_first { b"\n" } else { b",\n" })?;
    text.append(b"{")?;
    put_name(alloc, file.path, text)?;
    text.append(b",")?;
    put_members(&file.totals, text)?;
    text.append(b"}")
}

/// Appends the member that names a file: `file` or `file_hex`.
fn put_name<A: Allocator>(alloc: A, path: &[u8], text: &mut Bytes<A>) -> Result<(), Memory>
    ensures { OnOk result (text.new ≡ text.old ++ name_member path.now) }
{
    match std::str::from_utf8(path) {
        Ok(name) => put_string_name(alloc, name, text),
        Err(_not_text) => put_hexadecimal_name(alloc, path, text),
    }
}

/// Appends the member `file`, which names a file by a string.
fn put_string_name<A: Allocator>(alloc: A, name: &str, text: &mut Bytes<A>) -> Result<(), Memory>
    ensures { OnOk result (text.new ≡ text.old ++ string_name name.now) }
{
    text.append(b"\"file\":")?;
    put_string(alloc, name, text)
}

/// Appends `name` as a JSON string.
fn put_string<A: Allocator>(alloc: A, name: &str, text: &mut Bytes<A>) -> Result<(), Memory>
    ensures { OnOk result (text.new ≡ text.old ++ quoted name.now) }
{
    let mut writer = Writer::new(Vec::new(alloc));
    writer.string(name)?;
    text.append(writer.into_inner().as_slice())
}

/// Appends the member `file_hex`, which names a file by its path in hexadecimal.
fn put_hexadecimal_name<A: Allocator>(
    alloc: A,
    path: &[u8],
    text: &mut Bytes<A>,
) -> Result<(), Memory>
    ensures { OnOk result (text.new ≡ text.old ++ hexadecimal_name path.now) }
{
    text.append(b"\"file_hex\":\"")?;
    put_hexadecimal(alloc, path, text)?;
    text.append(b"\"")
}

/// Appends bytes in lower-case hexadecimal.
fn put_hexadecimal<A: Allocator>(alloc: A, bytes: &[u8], text: &mut Bytes<A>) -> Result<(), Memory>
    ensures { OnOk result (text.new ≡ text.old ++ encode_lower bytes.now) }
{
    let digits = hex::encode(alloc, bytes)?;
    text.append(digits.as_bytes())
}

/// Appends the totals as the members `lines`, `functions` and `branches`.
fn put_members<A: Allocator>(totals: &Totals, text: &mut Bytes<A>) -> Result<(), Memory>
    ensures { OnOk result (text.new ≡ text.old ++ members totals.now) }
{
    text.append(b"\"lines\":")?;
    put_points(totals.lh, totals.lf, text)?;
    text.append(b",\"functions\":")?;
    put_points(totals.fh, totals.ff, text)?;
    text.append(b",\"branches\":")?;
    put_points(totals.bh, totals.bf, text)
}

/// Appends a JSON object with the numbers of points found and hit.
fn put_points<A: Allocator>(hit: u64, found: u64, text: &mut Bytes<A>) -> Result<(), Memory>
    ensures { OnOk result (text.new ≡ text.old ++ points hit found) }
{
    text.append(b"{\"found\":")?;
    text.append_number(found)?;
    text.append(b",\"hit\":")?;
    text.append_number(hit)?;
    text.append(b"}")
}
