//! Pages of source files.

use super::collected::Collected;
use covhtml::{Row, SourcePage};
use covtable::{BranchValue, FunctionValue, Totals};
use std::alloc::Global;
use std::test::*;

/// Prints a page.
fn printed(alloc: Global, page: &SourcePage<'_>) -> Collected {
    let mut printer = Collected::new(alloc);
    covhtml::put_source_page(page, &mut printer);
    printer
}

/// The branches of line 4: one was taken 3 times, the block of the other was never executed.
const BRANCHES: &[BranchValue] = &[
    BranchValue {
        line: 4,
        block: 0,
        branch: 0,
        taken: Some(3),
    },
    BranchValue {
        line: 4,
        block: 0,
        branch: 1,
        taken: None,
    },
];

/// A page with each kind of row: a line that was run, one that was never run, one without points, one with a branch that was never
/// taken, and one that the source doesn't have.
const SMALL: &[u8] = b"\
<!doctype html>
<html lang=\"en\">
<head>
<meta charset=\"utf-8\">
<meta name=\"viewport\" content=\"width=device-width, initial-scale=1\">
<title>src/a.c</title>
<link rel=\"stylesheet\" href=\"style.css\">
</head>
<body>
<nav><a href=\"index.html\">All files</a></nav>
<h1>src/a.c</h1>
<div class=\"cards\">
<p>Lines <b>75.0%</b> 3 of 4 <meter aria-hidden=\"true\" max=\"1000\" low=\"750\" high=\"900\" optimum=\"1000\" value=\"750\"></meter></p>
<p>Functions <b>100.0%</b> 1 of 1 <meter aria-hidden=\"true\" max=\"1000\" low=\"750\" high=\"900\" optimum=\"1000\" value=\"1000\"></meter></p>
<p>Branches <b>50.0%</b> 1 of 2 <meter aria-hidden=\"true\" max=\"1000\" low=\"750\" high=\"900\" optimum=\"1000\" value=\"500\"></meter></p>
</div>
<details>
<summary>Functions</summary>
<table class=\"functions\">
<thead><tr><th scope=\"col\">Function<th scope=\"col\">Line<th scope=\"col\">Count</thead>
<tbody>
<tr><td>f&lt;int&gt;<td><a href=\"#L1\">1</a><td title=\"123456\">1.2e5
</tbody>
</table>
</details>
<p>Not run: first line <a href=\"#L2\">2</a>, last line <a href=\"#L2\">2</a></p>
<table class=\"lines\">
<thead><tr><th scope=\"col\">Line<th scope=\"col\">Count<th scope=\"col\">Branches<th scope=\"col\">Source</thead>
<tbody>
<tr id=\"L1\" class=\"y\"><td><a href=\"#L1\">1</a><td>99999<td><td>int f() {
<tr id=\"L2\" class=\"n\"><td><a href=\"#L2\">2</a><td>0<td><td>\tif (a &lt; b)
<tr id=\"L3\"><td><a href=\"#L3\">3</a><td><td><td>
<tr id=\"L4\" class=\"p\"><td><a href=\"#L4\">4</a><td>1<td title=\"taken 3 -\">1/2<td>}
<tr id=\"L9\" class=\"y\"><td><a href=\"#L9\">9</a><td title=\"340282366920938463463374607431768211455\">3.4e38<td><td>
</tbody>
</table>
</body>
</html>
";

#[test]
fn each_kind_of_row(rt: HostRuntime) {
    let functions = [FunctionValue {
        line: 1,
        name: b"f<int>",
        count: 123_456,
    }];
    let rows = [
        row_of(1, Some(99_999), &[]),
        row_of(2, Some(0), &[]),
        row_of(4, Some(1), BRANCHES),
        row_of(9, Some(u128::MAX), &[]),
    ];
    let page = SourcePage {
        path: b"src/a.c",
        totals: Totals {
            lf: 4,
            lh: 3,
            ff: 1,
            fh: 1,
            bf: 2,
            bh: 1,
        },
        functions: &functions,
        tests: &[],
        rows: &rows,
        source: b"int f() {\n\tif (a < b)\r\n\n}\n",
    };
    printed(rt.alloc(), &page).check(&rt, SMALL);
}

/// A row of a page.
fn row_of<'a>(number: u64, count: Option<u128>, branches: &'a [BranchValue]) -> Row<'a> {
    Row {
        number,
        count,
        branches,
    }
}

/// A page of a source file that isn't there.
const WITHOUT_SOURCE: &[u8] = b"\
<!doctype html>
<html lang=\"en\">
<head>
<meta charset=\"utf-8\">
<meta name=\"viewport\" content=\"width=device-width, initial-scale=1\">
<title>&lt;b&gt;</title>
<link rel=\"stylesheet\" href=\"style.css\">
</head>
<body>
<nav><a href=\"index.html\">All files</a></nav>
<h1>&lt;b&gt;</h1>
<div class=\"cards\">
<p>Lines <b>33.3%</b> 1 of 3 <meter aria-hidden=\"true\" max=\"1000\" low=\"750\" high=\"900\" optimum=\"1000\" value=\"333\"></meter></p>
<p>Functions <b>-</b> 0 of 0 </p>
<p>Branches <b>0.0%</b> 0 of 1 <meter aria-hidden=\"true\" max=\"1000\" low=\"750\" high=\"900\" optimum=\"1000\" value=\"0\"></meter></p>
</div>
<p>Not run: first line <a href=\"#L2\">2</a>, last line <a href=\"#L5\">5</a></p>
<table class=\"lines\">
<thead><tr><th scope=\"col\">Line<th scope=\"col\">Count<th scope=\"col\">Branches<th scope=\"col\">Source</thead>
<tbody>
<tr id=\"L0\" class=\"y\"><td><a href=\"#L0\">0</a><td title=\"100000\">1.0e5<td><td>
<tr id=\"L2\" class=\"n\"><td><a href=\"#L2\">2</a><td>0 <a href=\"#L5\" title=\"next line not run\">&darr;5</a><td><td>
<tr id=\"L3\" class=\"p\"><td><a href=\"#L3\">3</a><td><td title=\"taken -\">0/1<td>
<tr id=\"L5\" class=\"n\"><td><a href=\"#L5\">5</a><td>0<td><td>
</tbody>
</table>
</body>
</html>
";

#[test]
fn a_source_that_is_not_there(rt: HostRuntime) {
    let branch = [BranchValue {
        line: 3,
        block: 0,
        branch: 0,
        taken: None,
    }];
    let rows = [
        row_of(0, Some(100_000), &[]),
        row_of(2, Some(0), &[]),
        row_of(3, None, &branch),
        row_of(5, Some(0), &[]),
    ];
    let page = SourcePage {
        path: b"<b>",
        totals: Totals {
            lf: 3,
            lh: 1,
            ff: 0,
            fh: 0,
            bf: 1,
            bh: 0,
        },
        functions: &[],
        tests: &[],
        rows: &rows,
        source: b"",
    };
    printed(rt.alloc(), &page).check(&rt, WITHOUT_SOURCE);
}
