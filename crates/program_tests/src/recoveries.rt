// `recover`: batches that were stopped are completed.
use crate::machine::{
    Change, KERNEL, KERNEL_SLOT, LIBS_SLOT, NEW_DIGEST, are_same, change, is_new, is_old, is_whole,
    machine, reorder, stopped,
};
use crate::runs::{answer, named};
use kl_base::Slot;
use kl_install::SlotEnd;
use kl_jobs::{Cause, JobFault, recover_all};
use kl_mem::{Fuse, MemStore};
use std::alloc::Global;
use std::test::Fail;

/// What the files are behind a recovery: all three old, all three new, or new where the crash has carried out the one change that wasn't settled.
#[derive(Clone, Copy)]
enum End {
    Old,
    Carried,
    New,
}

/// The calls of the kernel's job. With each: the changes that aren't settled behind it, and what the files are after a stop there and a recovery.
const CALLS: [(&str, u8, End); 33] = [
    ("nothing", 0, End::Old),
    ("size of the kernel's slot", 0, End::Old),
    ("size of the record", 0, End::Old),
    ("read of the record", 0, End::Old),
    ("size of the kernel", 0, End::Old),
    ("size of the kit text", 0, End::Old),
    ("read of the kit text", 0, End::Old),
    ("size of k.o", 0, End::Old),
    ("read of k.o", 0, End::Old),
    ("size of a.o", 0, End::Old),
    ("read of a.o", 0, End::Old),
    ("settle", 0, End::Old),
    ("size of the kernel", 0, End::Old),
    ("create of the kernel's temporary", 1, End::Old),
    ("append to it", 2, End::Old),
    ("size of the record", 2, End::Old),
    ("read of the record", 2, End::Old),
    ("create of the record's temporary", 3, End::Old),
    ("append to it", 4, End::Old),
    ("size of the map", 4, End::Old),
    ("create of the map's temporary", 5, End::Old),
    ("append to it", 6, End::Old),
    ("create of the intent's temporary", 7, End::Old),
    ("append to it", 8, End::Old),
    ("settle", 0, End::Old),
    ("rename of the intent", 1, End::Carried),
    ("settle", 0, End::New),
    ("rename of the kernel", 1, End::New),
    ("rename of the record", 2, End::New),
    ("rename of the map", 3, End::New),
    ("settle", 0, End::New),
    ("remove of the intent", 1, End::New),
    ("settle", 0, End::New),
];

/// How many calls of the job stand before the one that gives the intent its name, behind how many that is settled, and how many it has.
const INTENT: u64 = 24;

const SETTLED: u64 = 26;

const ALL: u64 = 32;

/// Whether the files are to be new after a crash of that pick.
fn is_to_be_new(end: End, pick: u64) -> bool {
    match end {
        End::Old => false,
        End::Carried => pick % 2 == 1,
        End::New => true,
    }
}

/// Whether the three files are new after a recovery. They are never mixed, and nothing is pending then.
fn is_new_after(alloc: Global, store: &mut MemStore) -> Result<bool, Fail> {
    let (exit, _) = answer(alloc, &[b"recover"], store)?;
    if exit.status != 0 || store.get(&named(KERNEL_SLOT)?).is_some() {
        return Err(Fail::from("a recovery"));
    }
    if is_new(store)? {
        return Ok(true);
    }
    if !is_old(store)? {
        return Err(Fail::from("old or new files"));
    }
    Ok(false)
}

#[test]
fn recovers_after_each_stop(rt: HostRuntime) -> Result<(), Fail> {
    let alloc = rt.alloc();
    for calls in 0..CALLS.len() {
        let (call, pending, end) = CALLS[calls];
        let (store, exit) = stopped(alloc, calls as u64)?;
        let done = if calls as u64 == ALL { 0 } else { 4 };
        assert_eq!(rt; exit.status, done, "behind {call}");
        for pick in 0..4 * (u64::from(pending) + 1) {
            let mut image = store.crash(alloc, pick)?;
            assert!(rt; is_whole(&image)?, "behind {call}, pick {pick}");
            assert_eq!(rt;
                is_new_after(alloc, &mut image)?,
                is_to_be_new(end, pick),
                "behind {call}, pick {pick}"
            );
        }
    }
    Ok(())
}

#[test]
fn recovers_after_each_failure(rt: HostRuntime) -> Result<(), Fail> {
    let alloc = rt.alloc();
    // among them the first append of the commit, with its change made
    for call in 0..ALL {
        for happened in [false, true] {
            let mut store = machine(alloc)?;
            store.fail_at(call, happened)?;
            let (exit, out) = reorder(alloc, &mut store)?;
            assert_eq!(rt; (exit.status, exit.batches), (4, 0), "call {call}");
            assert_eq!(rt; out.bytes(), b"relink: store fault\n".as_slice());
            assert_eq!(rt;
                is_new_after(alloc, &mut store)?,
                call > INTENT || (call == INTENT && happened),
                "call {call}, {happened}"
            );
        }
    }
    Ok(())
}

/// The longest recovery has fewer calls. It has at most three changes that aren't settled, none of which appends.
const RECOVERY: u64 = 32;

/// A recovery of the image is stopped behind so many calls, and made again after each crash: the files are new. Whether it came to its end.
fn recovers_again(alloc: Global, image: MemStore, calls: u64) -> Result<bool, Fail> {
    let mut fuse = Fuse::new(image, calls);
    let (exit, _) = answer(alloc, &[b"recover"], &mut fuse)?;
    let store = fuse.into_inner();
    for pick in 0..4 {
        let mut image = store.crash(alloc, pick)?;
        if !is_new_after(alloc, &mut image)? {
            return Err(Fail::from("new files"));
        }
    }
    Ok(exit.status == 0)
}

#[test]
fn recovers_after_stopped_recovery(rt: HostRuntime) -> Result<(), Fail> {
    let alloc = rt.alloc();
    // the intent alone is in its place; the kernel too; all three files
    for (calls, pick) in [(SETTLED, 0), (SETTLED + 1, 1), (SETTLED + 4, 0)] {
        let (store, _) = stopped(alloc, calls)?;
        let mut ended = false;
        for more in 0..RECOVERY {
            ended = recovers_again(alloc, store.crash(alloc, pick)?, more)?;
            if ended {
                break;
            }
        }
        assert!(rt; ended, "behind {calls} calls");
    }
    Ok(())
}

/// The digest of another kernel, by `sha256sum`.
const OTHER_DIGEST: [u8; 32] = [
    0x19, 0x1d, 0x31, 0x34, 0x42, 0x02, 0x1a, 0x3d, 0x7a, 0xd1, 0x3e, 0xbb, 0x66, 0x27, 0xc4, 0xf2,
    0xe3, 0x38, 0x6f, 0xb7, 0x1d, 0x55, 0xc4, 0x08, 0xc4, 0x02, 0xc3, 0xf9, 0x74, 0xd6, 0xbe, 0x5e,
];

const OTHER_KERNEL: &[u8] = b"other kernel\n";

/// An intent of the libraries' job, for a library without a byte, and the library's temporary.
const LIBS_INTENT: &[u8] = b"relink intent 1
batch libs
entry /usr/lib/libk.so.1 - e3b0c44298fc1c149afbf4c8996fb92427ae41e4649b934ca495991b7852b855
end
";

const LIBRARY: &[u8] = b"/usr/lib/libk.so.1.relink";

/// What stands in the slots, with the calls of the kernel's job that were made and what was changed then, and the status, the cause, the slots
/// that are completed and the lines.
type Row = (u64, &'static [Change], u8, Cause, u32, &'static [u8]);

const ENDS: [Row; 7] = [
    (
        0,
        &[],
        0,
        Cause::Done,
        0,
        b"kernel nothing pending\nlibs nothing pending\n",
    ),
    (
        SETTLED,
        &[],
        0,
        Cause::Done,
        1,
        b"kernel completed 3\nlibs nothing pending\n",
    ),
    (
        SETTLED,
        &[(LIBS_SLOT, Some(LIBS_INTENT)), (LIBRARY, Some(b""))],
        0,
        Cause::Done,
        2,
        b"kernel completed 3\nlibs completed 1\n",
    ),
    (
        SETTLED,
        &[(KERNEL, Some(OTHER_KERNEL))],
        16,
        Cause::Foreign {
            slot: Slot::Kernel,
            entry: 0,
            target: Some(OTHER_DIGEST),
            temp: Some(NEW_DIGEST),
        },
        0,
        b"kernel foreign entry 0\nlibs nothing pending\n",
    ),
    (
        SETTLED,
        &[(LIBS_SLOT, Some(b"x"))],
        17,
        Cause::Intent {
            slot: Slot::Libs,
            line: 1,
        },
        1,
        b"kernel completed 3\nlibs bad intent line 1\n",
    ),
    (
        0,
        &[(KERNEL_SLOT, Some(LIBS_INTENT))],
        17,
        Cause::Intent {
            slot: Slot::Kernel,
            line: 2,
        },
        0,
        b"kernel bad intent line 2\nlibs nothing pending\n",
    ),
    (
        0,
        &[(KERNEL_SLOT, Some(b"x")), (LIBS_SLOT, Some(b"x"))],
        17,
        Cause::Intent {
            slot: Slot::Kernel,
            line: 1,
        },
        0,
        b"kernel bad intent line 1\nlibs bad intent line 1\n",
    ),
];

/// The machine behind so many calls of the kernel's job, with these changes.
fn left(alloc: Global, calls: u64, changes: &[Change]) -> Result<MemStore, Fail> {
    let (store, _) = stopped(alloc, calls)?;
    let mut image = store.crash(alloc, 0)?;
    change(&mut image, changes)?;
    Ok(image)
}

#[test]
fn tells_how_each_slot_ends(rt: HostRuntime) -> Result<(), Fail> {
    let alloc = rt.alloc();
    for (calls, changes, status, cause, batches, lines) in ENDS {
        let mut store = left(alloc, calls, changes)?;
        let (exit, out) = answer(alloc, &[b"recover"], &mut store)?;
        assert_eq!(rt; (exit.status, exit.batches), (status, batches), "{lines:?}");
        assert!(rt; exit.cause == cause, "{lines:?}");
        assert_eq!(rt; out.bytes(), lines);
        let done = if batches == 0 {
            are_same(&store, &left(alloc, calls, changes)?)?
        } else {
            is_new(&store)?
        };
        assert!(rt; done, "{lines:?}");
    }
    Ok(())
}

// The call without its contract, so that a test proves no more than that it runs.
fn recover_slots(alloc: Global, store: &mut MemStore) -> Result<[SlotEnd; 2], JobFault> {
    recover_all(alloc, store)
}

#[test]
fn finds_memory_for_both_slots(rt: HostRuntime) -> Result<(), Fail> {
    let alloc = rt.alloc();
    let mut store = machine(alloc)?;
    let nothing = [SlotEnd::Nothing, SlotEnd::Nothing];
    assert_eq!(rt; recover_slots(alloc, &mut store), Ok(nothing));
    Ok(())
}
