//! Drops plans and makes them again, and reports clashes.

ghost use Rattle.std.specs.Prelude.{◌<◌};
ghost use Rattle.covstore.specs.Store.{SameContent};
ghost use Rattle.covtable.specs.Shown.{max_members};

use super::held::{NOTHING, check_held, has_test, store_of};
use super::wrappers::{read, read_packed};
use covdata::{Memory, Submission};
use covpacked::PackedSubmission;
use covstore::{Refuse, Store, Totals};
use std::process::Abort;
use std::test::*;

const ALL: &[u8] =
    b"TN:t\nSF:/a.c\nFN:9,f\nFN:3,g\nFNDA:1,f\nFNDA:0,g\nBRDA:5,6,7,-\nBRDA:5,6,8,2\nDA:1,2,k\nDA:2,0\nend_of_record\n\
    TN:v\nSF:/b.c\nend_of_record\n";

/// The content of the store after `ALL`.
const HELD: &[u8] =
    b"TN:t\nSF:/a.c\nFN:9,f\nFNDA:1,f\nFN:3,g\nFNDA:0,g\nBRDA:5,6,7,-\nBRDA:5,6,8,2\nDA:1,2,k\nDA:2,0\n";

const OF_ALL: Totals = Totals {
    lf: 2,
    lh: 1,
    ff: 2,
    fh: 1,
    bf: 2,
    bh: 1,
};

/// Prepares the submission and drops the plan. Returns the totals that the store would have.
fn drop_plan(rt: &(impl Abort + AllocGlobal), store: &mut Store, given: &Submission) -> Totals
    requires { store.old.members < max_members }
    ensures { SameContent store.old store.new }
{
    match store.prepare(rt.alloc(), given) {
        Ok(plan) => plan.after(),
        Err(_refuse) => panic!(rt; "refused"),
    }
}

/// Adds the submission.
fn keep_plan(rt: &(impl Abort + AllocGlobal), store: &mut Store, given: &Submission)
    requires { store.old.members < max_members }
{
    match store.prepare(rt.alloc(), given) {
        Ok(plan) => store.commit(plan),
        Err(_refuse) => panic!(rt; "refused"),
    }
}

/// A dropped plan leaves nothing visible, and the same submission can be prepared again. A section without items adds no test.
#[test]
fn a_plan_that_is_made_again(rt: HostRuntime) -> Result<(), Fail> {
    let given = read(rt.alloc(), ALL)?;
    let mut store = Store::new(rt.alloc());
    assert!(rt; drop_plan(&rt, &mut store, &given) == OF_ALL);
    check_held(&rt, &store, b"", NOTHING);
    assert!(rt; !has_test(&store, b"t"));
    keep_plan(&rt, &mut store, &given);
    check_held(&rt, &store, HELD, OF_ALL);
    assert!(rt; has_test(&store, b"t") && !has_test(&store, b"/a.c") && !has_test(&store, b"v"));
    Ok(())
}

/// Like `drop_plan`, for a packed submission.
fn drop_packed_plan(
    rt: &(impl Abort + AllocGlobal),
    store: &mut Store,
    given: &PackedSubmission,
) -> Totals
    requires { store.old.members < max_members }
    ensures { SameContent store.old store.new }
{
    match store.prepare_packed(rt.alloc(), given) {
        Ok(plan) => plan.after(),
        Err(_refuse) => panic!(rt; "refused"),
    }
}

/// Adds the packed submission.
fn keep_packed_plan(rt: &(impl Abort + AllocGlobal), store: &mut Store, given: &PackedSubmission)
    requires { store.old.members < max_members }
{
    match store.prepare_packed(rt.alloc(), given) {
        Ok(plan) => store.commit(plan),
        Err(_refuse) => panic!(rt; "refused"),
    }
}

/// The totals of two lines, of which `hit` are hit.
fn two_lines(hit: u64) -> Totals {
    Totals {
        lf: 2,
        lh: hit,
        ..NOTHING
    }
}

/// Prepares a packed submission twice. The first plan is dropped and leaves nothing visible.
#[test]
fn a_packed_submission(rt: HostRuntime) -> Result<(), Fail> {
    let given = read_packed(
        rt.alloc(),
        b"TN:t\nSF:/a.c\nDA:1,2\nDA:2,0\nend_of_record\n",
    )?;
    let mut store = store_of(&rt, b"TN:u\nSF:/a.c\nDA:1,0\nDA:2,5\nend_of_record\n")?;
    assert!(rt; drop_packed_plan(&rt, &mut store, &given) == two_lines(2));
    check_held(
        &rt,
        &store,
        b"TN:u\nSF:/a.c\nDA:1,0\nDA:2,5\n",
        two_lines(1),
    );
    keep_packed_plan(&rt, &mut store, &given);
    let wanted = b"TN:t\nSF:/a.c\nDA:1,2\nDA:2,0\nTN:u\nSF:/a.c\nDA:1,0\nDA:2,5\n";
    check_held(&rt, &store, wanted, two_lines(2));
    Ok(())
}

/// Whether this is a clash at line 1 of `/a.c`, of the checksums `x` and `y`.
fn is_clash(refuse: &Refuse) -> bool {
    match refuse {
        Refuse::Clash {
            file,
            line,
            held,
            given,
        } => {
            let is_same = file.get() == b"/a.c".as_slice() && held.get() == b"x".as_slice();
            is_same && *line == 1 && given.get() == b"y".as_slice()
        },
        Refuse::Memory => false,
    }
}

/// Whether an empty store rejects the submission by this clash.
fn clashes(rt: &impl AllocGlobal, given: &Submission) -> bool {
    let mut store = Store::new(rt.alloc());
    match store.prepare(rt.alloc(), given) {
        Ok(_plan) => false,
        Err(refuse) => is_clash(&refuse),
    }
}

/// Whether an empty store rejects the packed submission by this clash.
fn clashes_packed(rt: &impl AllocGlobal, given: &PackedSubmission) -> bool {
    let mut store = Store::new(rt.alloc());
    match store.prepare_packed(rt.alloc(), given) {
        Ok(_plan) => false,
        Err(refuse) => is_clash(&refuse),
    }
}

/// A clash is reported with its file, its line and both checksums, and never as `Memory`.
#[test]
fn a_clash(rt: HostRuntime) -> Result<(), Fail> {
    let text = b"TN:t\nSF:/a.c\nDA:1,1,x\nend_of_record\nTN:u\nSF:/a.c\nDA:1,0,y\nend_of_record\n";
    assert!(rt; clashes(&rt, &read(rt.alloc(), text)?));
    assert!(rt; clashes_packed(&rt, &read_packed(rt.alloc(), text)?));
    Ok(())
}

#[test]
fn number_of_a_refusal(rt: HostRuntime) {
    let memory: Refuse = Refuse::from(Memory);
    assert_eq!(rt; memory.number(), 2);
}
