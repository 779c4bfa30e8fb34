//! Compares operations and answers, and copies of them.

use super::words::{answer_of, op_of};
use super::wrappers::{copied_answer, copied_op, is_same_answer, is_same_op};
use std::process::Abort;
use std::test::*;

/// Pairs of operations, and whether they are equal. Submitting a packed submission equals submitting it unpacked. A submission
/// differs from one with another byte, number or kind, and other operations differ likewise.
const OPERATIONS: &[(&[u8], &[u8], bool)] = &[
    (b"submit DA:1,2", b"submit DA:1,3", false),
    (b"submit DA:1,2,k", b"submit DA:1,2,l", false),
    (b"submit FN:3,f;FNDA:2,f", b"submit FN:3,g;FNDA:2,g", false),
    (b"submit BRDA:1,0,0,4", b"submit BRDA:1,0,0,-", false),
    (b"submit DA:1,2;DA:2,2", b"submit DA:1,2;DA:3,2", false),
    (b"packed DA:1,2", b"packed DA:1,3", false),
    (b"packed DA:1,2", b"submit DA:1,3", false),
    (b"packed DA:1,2", b"drop t", false),
    (b"drop t", b"drop u", false),
    (b"rename t u", b"rename u u", false),
    (b"rename t u", b"rename t v", false),
    (b"rename t u", b"drop t", false),
    (b"extract /a|/b", b"extract /a|/c", false),
    (b"remove /a|/b", b"remove /a|/c", false),
    (b"extract /a", b"remove /a", false),
    (b"report", b"summary", false),
    (b"submit DA:1,2;DA:2,0", b"packed DA:1,2;DA:2,0", true),
    (b"submit DA:1,2,k", b"packed DA:1,2,k", true),
    (b"submit FN:3,f;FNDA:2,f", b"packed FN:3,f;FNDA:2,f", true),
    (b"submit BRDA:1,0,0,4", b"packed BRDA:1,0,0,4", true),
    (b"submit BRDA:1,0,0,-", b"packed BRDA:1,0,0,-", true),
];

/// Whether the first operation equals a copy of the other.
fn are_same_ops(rt: &(impl Abort + AllocGlobal), one: &[u8], other: &[u8]) -> Result<bool, Fail> {
    let one = op_of(rt.alloc(), one)?;
    let other = op_of(rt.alloc(), other)?;
    Ok(is_same_op(&one, &copied_op(rt, &other)))
}

/// Each operation equals another one made from the same text. Each pair is compared both ways.
#[test]
fn operations(rt: HostRuntime) -> Result<(), Fail> {
    for (one, other, are_same) in OPERATIONS {
        assert!(rt; are_same_ops(&rt, one, one)?, "{one:?}");
        assert!(rt; are_same_ops(&rt, one, other)? == *are_same, "{one:?}");
        assert!(rt; are_same_ops(&rt, other, one)? == *are_same, "{other:?}");
    }
    Ok(())
}

/// Answers that all differ. Some differ in one number or byte, others only in their kind.
const ANSWERS: &[&[u8]] = &[
    b"a120", b"a220", b"a110", b"a121", b"d2", b"d0", b"r2", b"r3", b"r0", b"n", b"c1kl", b"c2kl",
    b"c1ll", b"c1kk", b"text", b"next",
];

/// Whether the first answer equals a copy of the other.
fn are_same_answers(rt: &(impl Abort + AllocGlobal), one: &[u8], other: &[u8]) -> bool {
    is_same_answer(
        &answer_of(rt, one),
        &copied_answer(rt, &answer_of(rt, other)),
    )
}

/// Each answer equals another one made from the same words, and differs from all others.
#[test]
fn answers(rt: HostRuntime) {
    for one in ANSWERS {
        for other in ANSWERS {
            assert!(rt;
                are_same_answers(&rt, one, other) == (one == other),
                "{one:?} {other:?}"
            );
        }
    }
}
