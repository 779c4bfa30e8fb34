//! Indexes of source files.

use super::collected::Collected;
use covhtml::{Directory, IndexPage, IndexedFile};
use covtable::Totals;
use std::alloc::Global;
use std::test::*;

/// Prints an index.
fn printed(alloc: Global, page: &IndexPage<'_>) -> Collected {
    let mut printer = Collected::new(alloc);
    covhtml::put_index_page(page, &mut printer);
    printer
}

/// The date of the index.
const DATE: &[u8] = b"2026-11-30";

/// An index with a date, and two directories. The path of the last file ends with a slash.
const TWO_DIRECTORIES: &[u8] = b"\
<!doctype html>
<html lang=\"en\">
<head>
<meta charset=\"utf-8\">
<meta name=\"viewport\" content=\"width=device-width, initial-scale=1\">
<title>R&amp;D</title>
<link rel=\"stylesheet\" href=\"style.css\">
</head>
<body>
<h1>R&amp;D</h1>
<p>2026-11-30</p>
<div class=\"cards\">
<p>Lines <b>75.0%</b> 3 of 4 <meter aria-hidden=\"true\" max=\"1000\" low=\"750\" high=\"900\" optimum=\"1000\" value=\"750\"></meter></p>
<p>Functions <b>0.0%</b> 0 of 1 <meter aria-hidden=\"true\" max=\"1000\" low=\"750\" high=\"900\" optimum=\"1000\" value=\"0\"></meter></p>
<p>Branches <b>-</b> 0 of 0 </p>
</div>
<details open>
<summary>. 50.0%</summary>
<table class=\"files\">
<thead><tr><th scope=\"col\">File<th scope=\"col\" colspan=\"3\">Lines<th scope=\"col\" colspan=\"2\">Functions<th scope=\"col\" colspan=\"2\">Branches</thead>
<tbody>
<tr><th scope=\"row\"><a href=\"file-a.c.html\">a.c</a><td><meter aria-hidden=\"true\" max=\"1000\" low=\"750\" high=\"900\" optimum=\"1000\" value=\"500\"></meter><td>50.0%<td>1/2<td>0.0%<td>0/1<td>-<td>0/0
<tr class=\"t\"><th scope=\"row\">Total<td><meter aria-hidden=\"true\" max=\"1000\" low=\"750\" high=\"900\" optimum=\"1000\" value=\"500\"></meter><td>50.0%<td>1/2<td>0.0%<td>0/1<td>-<td>0/0
</tbody>
</table>
</details>
<details open>
<summary>lib/x 100.0%</summary>
<table class=\"files\">
<thead><tr><th scope=\"col\">File<th scope=\"col\" colspan=\"3\">Lines<th scope=\"col\" colspan=\"2\">Functions<th scope=\"col\" colspan=\"2\">Branches</thead>
<tbody>
<tr><th scope=\"row\"><a href=\"file-lib-x-~3cb.c.html\">&lt;b.c</a><td><meter aria-hidden=\"true\" max=\"1000\" low=\"750\" high=\"900\" optimum=\"1000\" value=\"1000\"></meter><td>100.0%<td>1/1<td>-<td>0/0<td>-<td>0/0
<tr><th scope=\"row\"><a href=\"file-lib-x-d-.html\">d/</a><td><meter aria-hidden=\"true\" max=\"1000\" low=\"750\" high=\"900\" optimum=\"1000\" value=\"1000\"></meter><td>100.0%<td>1/1<td>-<td>0/0<td>-<td>0/0
<tr class=\"t\"><th scope=\"row\">Total<td><meter aria-hidden=\"true\" max=\"1000\" low=\"750\" high=\"900\" optimum=\"1000\" value=\"1000\"></meter><td>100.0%<td>2/2<td>-<td>0/0<td>-<td>0/0
</tbody>
</table>
</details>
</body>
</html>
";

#[test]
fn two_directories(rt: HostRuntime) {
    let half = Totals {
        lf: 2,
        lh: 1,
        ff: 1,
        fh: 0,
        bf: 0,
        bh: 0,
    };
    let whole = Totals {
        lf: 1,
        lh: 1,
        ff: 0,
        fh: 0,
        bf: 0,
        bh: 0,
    };
    let both = Totals {
        lf: 2,
        lh: 2,
        ff: 0,
        fh: 0,
        bf: 0,
        bh: 0,
    };
    let first = [IndexedFile {
        page: b"file-a.c.html",
        path: b"a.c",
        totals: half,
    }];
    let second = [
        IndexedFile {
            page: b"file-lib-x-~3cb.c.html",
            path: b"lib/x/<b.c",
            totals: whole,
        },
        IndexedFile {
            page: b"file-lib-x-d-.html",
            path: b"lib/x/d/",
            totals: whole,
        },
    ];
    let directories = [
        Directory {
            path: b".",
            totals: half,
            files: &first,
        },
        Directory {
            path: b"lib/x",
            totals: both,
            files: &second,
        },
    ];
    let page = IndexPage {
        title: b"R&D",
        date: Some(DATE),
        totals: Totals {
            lf: 4,
            lh: 3,
            ff: 1,
            fh: 0,
            bf: 0,
            bh: 0,
        },
        directories: &directories,
    };
    printed(rt.alloc(), &page).check(&rt, TWO_DIRECTORIES);
}
