//! The style sheet of the pages.

/// The text of `style.css`, which lies beside the pages. It follows the reader's choice of light or dark colors, and loads nothing.
/// Every color that has a meaning stands beside a number or a text with the same meaning.
pub const STYLE: &[u8] = b"\
:root { color-scheme: light dark; --text: #1b2128; --dim: #565f6b; --line: #d5dae1; --back: #fff; --run: #e2f3e8; --missed: #fbe3e0; --part: #fbf0cf; --edge: #b3261e; }
@media (prefers-color-scheme: dark) {
:root { --text: #e3e7ec; --dim: #a1aab6; --line: #39414c; --back: #14181d; --run: #14301f; --missed: #421a17; --part: #382d0c; --edge: #ff8a80; }
}
body { margin: 0 auto; max-width: 80rem; padding: 1rem; background: var(--back); color: var(--text); font: 1rem/1.45 system-ui, sans-serif; }
h1 { font-size: 1.25rem; overflow-wrap: anywhere; }
a { color: inherit; }
a:focus-visible, summary:focus-visible { outline: .15rem solid var(--edge); }
meter { width: 6rem; height: .8rem; vertical-align: middle; }
.cards { display: flex; flex-wrap: wrap; gap: .75rem; margin: 1rem 0; }
.cards p { margin: 0; border: 1px solid var(--line); border-radius: .4rem; padding: .5rem .8rem; }
summary { cursor: pointer; font-weight: 600; overflow-wrap: anywhere; padding: .4rem 0; }
table { border-collapse: collapse; width: 100%; }
thead th { color: var(--dim); text-align: right; }
.files th, .files td, .functions th, .functions td { border-bottom: 1px solid var(--line); padding: .25rem .5rem; text-align: right; white-space: nowrap; }
.files th:first-child, .functions th:first-child, .functions td:first-child { width: 100%; min-width: 9rem; text-align: left; font-weight: 400; white-space: normal; overflow-wrap: anywhere; }
.files td { min-width: 4rem; }
.files tr.t > * { font-weight: 600; }
.lines { font: .85rem/1.5 ui-monospace, monospace; tab-size: 4; }
.lines th, .lines td { padding: 0 .6rem; vertical-align: top; }
.lines td:nth-child(-n+3) { color: var(--dim); text-align: right; white-space: nowrap; user-select: none; }
.lines th:last-child { text-align: left; }
.lines td:last-child { width: 100%; white-space: pre-wrap; overflow-wrap: anywhere; }
.lines td:first-child a { text-decoration: none; }
tr.y td { background: var(--run); }
tr.n td { background: var(--missed); }
tr.p td { background: var(--part); }
tr.n td:nth-child(2) { border-left: .25rem solid var(--edge); font-weight: 700; color: var(--text); }
tr.p td:nth-child(3) { border-left: .25rem solid var(--edge); font-weight: 700; color: var(--text); }
tr:target td { border-bottom: .15rem solid var(--edge); border-top: .15rem solid var(--edge); }
@media (max-width: 40rem) {
body { padding: .5rem; }
.files, .functions { display: block; overflow-x: auto; }
.files meter { display: none; }
.lines td, .lines th { padding: 0 .25rem; }
}
@media print {
body { max-width: none; padding: 0; }
tr { break-inside: avoid; print-color-adjust: exact; }
nav { display: none; }
}
";
