//! Fixed pieces of the pages' markup. Definitions name them by their constants.

/// The beginning of a page, up to the title of its window.
pub(crate) const HEAD: &[u8] = b"<!doctype html>
<html lang=\"en\">
<head>
<meta charset=\"utf-8\">
<meta name=\"viewport\" content=\"width=device-width, initial-scale=1\">
<title>";

/// What follows the title of the window, up to the body.
pub(crate) const BODY: &[u8] = b"</title>
<link rel=\"stylesheet\" href=\"style.css\">
</head>
<body>
";

/// The end of a page.
pub(crate) const FOOT: &[u8] = b"</body>\n</html>\n";

/// A link from a source file's page to the index.
pub(crate) const BACK: &[u8] = b"<nav><a href=\"index.html\">All files</a></nav>\n";

/// The beginning of a bar, up to its value. A bar shows tenths of a percent. The rate beside it says the same as a text.
pub(crate) const METER: &[u8] =
    b"<meter aria-hidden=\"true\" max=\"1000\" low=\"750\" high=\"900\" optimum=\"1000\" value=\"";

/// The beginning of a directory, up to its name.
pub(crate) const DIRECTORY: &[u8] = b"<details open>\n<summary>";

/// What follows a directory's name and rate, up to the rows of its files.
pub(crate) const FILES: &[u8] = b"</summary>
<table class=\"files\">
<thead><tr><th scope=\"col\">File<th scope=\"col\" colspan=\"3\">Lines<th scope=\"col\" colspan=\"2\">Functions<th scope=\"col\" colspan=\"2\">Branches</thead>
<tbody>
";

/// The beginning of a table of files, up to its rows.
pub(crate) const FILE_TABLE: &[u8] = b"<table class=\"files\">
<thead><tr><th scope=\"col\">File<th scope=\"col\" colspan=\"3\">Lines<th scope=\"col\" colspan=\"2\">Functions<th scope=\"col\" colspan=\"2\">Branches</thead>
<tbody>
";

/// The beginning of a table of directories, up to its rows.
pub(crate) const DIRECTORIES: &[u8] = b"<table class=\"files\">
<thead><tr><th scope=\"col\">Directory<th scope=\"col\" colspan=\"3\">Lines<th scope=\"col\" colspan=\"2\">Functions<th scope=\"col\" colspan=\"2\">Branches</thead>
<tbody>
";

/// The beginning of the table of functions, up to its rows.
pub(crate) const FUNCTIONS: &[u8] = b"<details>
<summary>Functions</summary>
<table class=\"functions\">
<thead><tr><th scope=\"col\">Function<th scope=\"col\">Line<th scope=\"col\">Count</thead>
<tbody>
";

/// The beginning of the table of tests, up to its rows.
pub(crate) const TESTS: &[u8] = b"<details>
<summary>Tests</summary>
<table class=\"files\">
<thead><tr><th scope=\"col\">Test<th scope=\"col\" colspan=\"3\">Lines<th scope=\"col\" colspan=\"2\">Functions<th scope=\"col\" colspan=\"2\">Branches</thead>
<tbody>
";

/// The beginning of the table of lines, up to its rows.
pub(crate) const LINES: &[u8] = b"<table class=\"lines\">
<thead><tr><th scope=\"col\">Line<th scope=\"col\">Count<th scope=\"col\">Branches<th scope=\"col\">Source</thead>
<tbody>
";

/// The end of a table.
pub(crate) const TABLE_END: &[u8] = b"</tbody>\n</table>\n";
