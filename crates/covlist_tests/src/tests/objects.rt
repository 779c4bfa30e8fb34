//! Files and totals as JSON.

use super::forms::{Form, check_text};
use super::tables::TWO_FILES;
use std::test::*;

pub(super) const JSON_OF_TWO: &[u8] = b"\
{\"files\":[
{\"file\":\"src/a.c\",\"lines\":{\"found\":7,\"hit\":6},\"functions\":{\"found\":1,\"hit\":1},\"branches\":{\"found\":0,\"hit\":0}},
{\"file\":\"src/b.c\",\"lines\":{\"found\":12,\"hit\":0},\"functions\":{\"found\":2,\"hit\":0},\"branches\":{\"found\":4,\"hit\":1}}
],\"total\":{\"lines\":{\"found\":19,\"hit\":6},\"functions\":{\"found\":3,\"hit\":1},\"branches\":{\"found\":4,\"hit\":1}}}
";

pub(super) const SUMMARY_OF_TWO: &[u8] = b"\
{\"lines\":{\"found\":19,\"hit\":6},\"functions\":{\"found\":3,\"hit\":1},\"branches\":{\"found\":4,\"hit\":1}}
";

const JSON_OF_ONE: &[u8] = b"\
{\"files\":[
{\"file\":\"src/b.c\",\"lines\":{\"found\":12,\"hit\":0},\"functions\":{\"found\":2,\"hit\":0},\"branches\":{\"found\":4,\"hit\":1}}
],\"total\":{\"lines\":{\"found\":12,\"hit\":0},\"functions\":{\"found\":2,\"hit\":0},\"branches\":{\"found\":4,\"hit\":1}}}
";

const JSON_OF_NONE: &[u8] = b"\
{\"files\":[
],\"total\":{\"lines\":{\"found\":0,\"hit\":0},\"functions\":{\"found\":0,\"hit\":0},\"branches\":{\"found\":0,\"hit\":0}}}
";

/// The expected JSON of a file whose name has a quotation mark, a backslash, an escape byte and a letter that isn't ASCII.
const ESCAPES: &[u8] = b"\
{\"files\":[
{\"file\":\"a\\\"\\\\\\u001b\xc3\xa9.c\",\"lines\":{\"found\":1,\"hit\":1},\"functions\":{\"found\":0,\"hit\":0},\"branches\":{\"found\":0,\"hit\":0}}
],\"total\":{\"lines\":{\"found\":1,\"hit\":1},\"functions\":{\"found\":0,\"hit\":0},\"branches\":{\"found\":0,\"hit\":0}}}
";

/// The expected JSON of a file whose name isn't UTF-8.
const NO_TEXT: &[u8] = b"\
{\"files\":[
{\"file_hex\":\"ff092e63\",\"lines\":{\"found\":1,\"hit\":1},\"functions\":{\"found\":0,\"hit\":0},\"branches\":{\"found\":0,\"hit\":0}}
],\"total\":{\"lines\":{\"found\":1,\"hit\":1},\"functions\":{\"found\":0,\"hit\":0},\"branches\":{\"found\":0,\"hit\":0}}}
";

/// Tracefiles, patterns, and the expected JSON of the matching files.
const OBJECTS: [(&[u8], &[u8], &[u8]); 5] = [
    (TWO_FILES, b"", JSON_OF_TWO),
    (TWO_FILES, b"*b.c", JSON_OF_ONE),
    (TWO_FILES, b"*.h", JSON_OF_NONE),
    (
        b"TN:t\nSF:a\"\\\x1b\xc3\xa9.c\nDA:1,1\nend_of_record\n",
        b"",
        ESCAPES,
    ),
    (b"TN:t\nSF:\xff\t.c\nDA:1,1\nend_of_record\n", b"", NO_TEXT),
];

#[test]
fn files(rt: HostRuntime) {
    for (tracefile, pattern, wanted) in OBJECTS {
        check_text(&rt, Form::Json, tracefile, pattern, wanted);
    }
}

#[test]
fn totals_alone(rt: HostRuntime) {
    check_text(&rt, Form::Summary, TWO_FILES, b"", SUMMARY_OF_TWO);
}
