//! Tests how many bytes of a block are whole sections.

use covpieces::whole_sections;
use std::process::Abort;
use std::test::*;

#[test]
fn whole_sections_of_blocks(rt: HostRuntime) {
    for (block, wanted) in BLOCKS {
        let given = whole_sections(block);
        assert!(rt; given == *wanted, "{block:?}: {given}");
    }
}

/// Blocks, each with the number of bytes of its whole sections.
const BLOCKS: &[(&[u8], usize)] = &[
    // An empty block, and blocks that end with a section.
    (b"", 0),
    (b"SF:x\nend_of_record\n", 19),
    (b"end_of_record\n", 14),
    (b"SF:x\nend_of_record\nSF:y\nend_of_record\n", 38),
    // Blocks with complete, cut-off or blank lines after the last section.
    (b"SF:x\nend_of_record\nTN:b\nSF:y\n", 19),
    (b"SF:x\nend_of_record\nSF:y\nend_of_record", 19),
    (b"SF:x\nend_of_record\n\n\n", 19),
    (b"\n\nend_of_record\nDA:1", 16),
    // Blocks in which no line ends a section.
    (b"end_of_record", 0),
    (b"TN:a\nSF:x\nDA:1,1\n", 0),
    (b"SF:x\n end_of_record\n", 0),
    (b"SF:x\nend_of_recor\n", 0),
    (b"\n", 0),
    // Sections whose last line has carriage returns, or more bytes after `end_of_record`.
    (b"SF:x\r\nend_of_record\r\n", 21),
    (b"SF:x\nend_of_records of x\nSF:y\n", 25),
];
