//! Pages of sections.

ghost use Rattle.covtable.specs.Totals.{AreTotals};

use super::collected::Collected;
use super::made;
use covdata::{Memory, Submission};
use covhtml::{Points, PointsTable, Row, SectionPoints, SourcePage, TestTotals};
use covread::{ReadFault, read_trace};
use covstore::Store;
use covtable::{BranchValue, LineValue, Totals};
use std::alloc::Global;
use std::process::Abort;
use std::test::*;

/// A tracefile with branches of lines without a count: before all lines, between two lines, and in one line with a count.
const TRACE: &[u8] = b"\
TN:t
SF:a.c
FN:3,f
FNDA:2,f
BRDA:1,0,0,1
BRDA:1,0,1,-
BRDA:3,0,0,0
BRDA:4,1,0,5
DA:2,0
DA:3,2
DA:7,1
end_of_record
";

/// The page of its section, with a source of two lines.
const PAGE: &[u8] = b"\
<!doctype html>
<html lang=\"en\">
<head>
<meta charset=\"utf-8\">
<meta name=\"viewport\" content=\"width=device-width, initial-scale=1\">
<title>a.c</title>
<link rel=\"stylesheet\" href=\"style.css\">
</head>
<body>
<nav><a href=\"index.html\">All files</a></nav>
<h1>a.c</h1>
<div class=\"cards\">
<p>Lines <b>66.7%</b> 2 of 3 <meter aria-hidden=\"true\" max=\"1000\" low=\"750\" high=\"900\" optimum=\"1000\" value=\"667\"></meter></p>
<p>Functions <b>100.0%</b> 1 of 1 <meter aria-hidden=\"true\" max=\"1000\" low=\"750\" high=\"900\" optimum=\"1000\" value=\"1000\"></meter></p>
<p>Branches <b>50.0%</b> 2 of 4 <meter aria-hidden=\"true\" max=\"1000\" low=\"750\" high=\"900\" optimum=\"1000\" value=\"500\"></meter></p>
</div>
<details>
<summary>Functions</summary>
<table class=\"functions\">
<thead><tr><th scope=\"col\">Function<th scope=\"col\">Line<th scope=\"col\">Count</thead>
<tbody>
<tr><td>f<td><a href=\"#L3\">3</a><td>2
</tbody>
</table>
</details>
<p>Not run: first line <a href=\"#L2\">2</a>, last line <a href=\"#L2\">2</a></p>
<table class=\"lines\">
<thead><tr><th scope=\"col\">Line<th scope=\"col\">Count<th scope=\"col\">Branches<th scope=\"col\">Source</thead>
<tbody>
<tr id=\"L1\" class=\"p\"><td><a href=\"#L1\">1</a><td><td title=\"taken 1 -\">1/2<td>if
<tr id=\"L2\" class=\"n\"><td><a href=\"#L2\">2</a><td>0<td><td>not
<tr id=\"L3\" class=\"p\"><td><a href=\"#L3\">3</a><td>2<td title=\"taken 0\">0/1<td>
<tr id=\"L4\"><td><a href=\"#L4\">4</a><td><td title=\"taken 5\">1/1<td>
<tr id=\"L7\" class=\"y\"><td><a href=\"#L7\">7</a><td>1<td><td>
</tbody>
</table>
</body>
</html>
";

/// Calls `read_trace` without its contract.
fn read(alloc: Global, text: &[u8]) -> Result<Submission, ReadFault> {
    read_trace(alloc, text)
}

/// A store that has only the submission `given`.
fn stored(rt: &(impl Abort + AllocGlobal), given: &Submission) -> Store {
    let mut store = Store::new(rt.alloc());
    match store.prepare(rt.alloc(), given) {
        Ok(plan) => store.commit(plan),
        Err(_refused) => panic!(rt; "refused with ample memory"),
    }
    store
}

/// Calls `sections_of` without its contract.
fn sections<'s>(
    alloc: Global,
    store: &'s Store,
    file: &[u8],
) -> Result<Vec<SectionPoints<'s, Global>>, Memory> {
    store.sections_of(alloc, file)
}

/// Calls `tests_of` without its contract.
fn tests<'s>(
    alloc: Global,
    sections: &[SectionPoints<'s, Global>],
) -> Result<Vec<TestTotals<'s>>, Memory> {
    covhtml::tests_of(alloc, sections)
}

/// Calls `joined` without its contract.
fn points<'s>(
    alloc: Global,
    sections: Vec<SectionPoints<'s, Global>>,
) -> Result<Points<'s, Global>, Memory> {
    covhtml::joined(alloc, sections)
}

/// Calls `rows_of` without its contract.
fn rows<'b>(
    alloc: Global,
    lines: &[LineValue<'_>],
    branches: &'b [BranchValue],
) -> Result<Vec<Row<'b>>, Memory> {
    covhtml::rows_of(alloc, lines, branches)
}

/// Prints the page of the file `path`, which has these totals.
fn printed(rt: &(impl Abort + AllocGlobal), store: &Store, path: &[u8], totals: Totals) -> Collected
    requires { AreTotals totals }
{
    let alloc = rt.alloc();
    let sections = made(rt, sections(alloc, store, path));
    let tests = made(rt, tests(alloc, sections.as_slice()));
    let points = made(rt, points(alloc, sections));
    let rows = made(
        rt,
        rows(alloc, points.lines.as_slice(), points.branches.as_slice()),
    );
    let page = SourcePage {
        path,
        totals,
        functions: points.functions.as_slice(),
        tests: tests.as_slice(),
        rows: rows.as_slice(),
        source: b"if\nnot",
    };
    let mut printer = Collected::new(alloc);
    covhtml::put_source_page(&page, &mut printer);
    printer
}

#[test]
fn a_section_with_all_kinds_of_points(rt: HostRuntime) {
    let given = made(&rt, read(rt.alloc(), TRACE));
    let store = stored(&rt, &given);
    let totals = Totals {
        lf: 3,
        lh: 2,
        ff: 1,
        fh: 1,
        bf: 4,
        bh: 2,
    };
    printed(&rt, &store, b"a.c", totals).check(&rt, PAGE);
}

/// A file in two tests, beside another file. Both tests have line 2, function `g` and branch 0 of line 2.
const TESTS: &[u8] = b"\
TN:one
SF:a.c
FN:4,g
FNDA:1,g
BRDA:2,0,0,-
BRDA:2,0,1,3
DA:1,0
DA:2,5
end_of_record
TN:two
SF:a.c
FN:3,g
FN:1,h
FNDA:2,g
FNDA:0,h
BRDA:2,0,0,4
DA:2,100000
DA:3,0
end_of_record
TN:two
SF:b.c
DA:1,9
end_of_record
";

/// The rows of its functions, tests and lines: the counts of both tests, and the least start line of `g`.
const SUMS: [&[u8]; 3] = [
    b"<tr><td>g<td><a href=\"#L3\">3</a><td>3\n<tr><td>h<td><a href=\"#L1\">1</a><td>0\n",
    b"<tr><th scope=\"row\">one<td><meter aria-hidden=\"true\" max=\"1000\" low=\"750\" high=\"900\" optimum=\"1000\" value=\"500\"></meter><td>50.0%<td>1/2<td>100.0%<td>1/1<td>50.0%<td>1/2
<tr><th scope=\"row\">two<td><meter aria-hidden=\"true\" max=\"1000\" low=\"750\" high=\"900\" optimum=\"1000\" value=\"500\"></meter><td>50.0%<td>1/2<td>50.0%<td>1/2<td>100.0%<td>1/1
",
    b"<tr id=\"L1\" class=\"n\"><td><a href=\"#L1\">1</a><td>0 <a href=\"#L3\" title=\"next line not run\">&darr;3</a><td><td>if
<tr id=\"L2\" class=\"y\"><td><a href=\"#L2\">2</a><td title=\"100005\">1.0e5<td title=\"taken 4 3\">2/2<td>not
<tr id=\"L3\" class=\"n\"><td><a href=\"#L3\">3</a><td>0<td><td>
",
];

#[test]
fn tests_of_a_file_are_added_up(rt: HostRuntime) {
    let given = made(&rt, read(rt.alloc(), TESTS));
    let store = stored(&rt, &given);
    let totals = Totals {
        lf: 3,
        lh: 1,
        ff: 2,
        fh: 1,
        bf: 2,
        bh: 2,
    };
    let page = printed(&rt, &store, b"a.c", totals);
    for rows in SUMS {
        page.check_part(&rt, rows);
    }
}

#[test]
fn a_file_without_points_has_no_sections(rt: HostRuntime) {
    let given = made(&rt, read(rt.alloc(), TESTS));
    let store = stored(&rt, &given);
    let sections = made(&rt, sections(rt.alloc(), &store, b"c.c"));
    assert!(rt; sections.is_empty());
}
