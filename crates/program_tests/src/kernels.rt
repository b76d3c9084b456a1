// `reorder_kernel`: the kernel is linked anew, and takes its place with its record and its map.
use crate::machine::{
    Change, DIGITS, DRAWN, KERNEL, KERNEL_SLOT, KIT_TEXT, RECORD, SEED, are_same, change, is_new,
    machine,
};
use crate::runs::answer_with;
use kl_base::Slot;
use kl_digest::RecordFault;
use kl_jobs::{Cause, KitCause, RecordCause};
use kl_mem::MemStore;
use std::alloc::Global;
use std::test::Fail;

const LINE: &[u8] =
    b"/bsd relinked pieces 2 fields 1 bytes 13568 sha256 30491bbe064d582601e1de679ec88df3f5fadebeded5b61931490086165d148b\n";

/// Whether the three files are new, in every image that a crash may leave too, where no change is pending.
fn is_stable(alloc: Global, store: &MemStore) -> Result<bool, Fail> {
    for pick in 0..4 {
        if !is_new(&store.crash(alloc, pick)?)? {
            return Ok(false);
        }
    }
    is_new(store)
}

const WORDS: &[&[u8]] = &[b"reorder_kernel"];

const SEEDED: &[&[u8]] = &[b"reorder_kernel", b"--seed", DIGITS];

#[test]
fn installs_the_linked_kernel(rt: HostRuntime) -> Result<(), Fail> {
    let alloc = rt.alloc();
    // a seed; a block; a block, and a sink that takes nothing
    let rows: [(&[&[u8]], &[[u8; 32]], u64, u8, Cause, &[u8]); 3] = [
        (SEEDED, &[], u64::MAX, 0, Cause::Done, LINE),
        (WORDS, &[SEED], u64::MAX, 0, Cause::Done, LINE),
        (WORDS, &[SEED], 0, 6, Cause::Sink, b""),
    ];
    for (words, blocks, writes, status, cause, line) in rows {
        let mut store = machine(alloc)?;
        // the second time over the kernel that the first one left
        for _ in 0..2 {
            let (exit, out) = answer_with(alloc, words, &mut store, blocks, writes)?;
            assert_eq!(rt; (exit.status, exit.batches), (status, 1));
            assert!(rt; exit.cause == cause);
            assert_eq!(rt; out.bytes(), line);
            assert!(rt; is_stable(alloc, &store)?);
        }
    }
    Ok(())
}

/// The digest of no byte, and a digest whose last digit is another one.
const EMPTY_DIGEST: [u8; 32] = [
    0xe3, 0xb0, 0xc4, 0x42, 0x98, 0xfc, 0x1c, 0x14, 0x9a, 0xfb, 0xf4, 0xc8, 0x99, 0x6f, 0xb9, 0x24,
    0x27, 0xae, 0x41, 0xe4, 0x64, 0x9b, 0x93, 0x4c, 0xa4, 0x95, 0x99, 0x1b, 0x78, 0x52, 0xb8, 0x55,
];

const OTHER_DIGEST: [u8; 32] = [
    0xe3, 0xb0, 0xc4, 0x42, 0x98, 0xfc, 0x1c, 0x14, 0x9a, 0xfb, 0xf4, 0xc8, 0x99, 0x6f, 0xb9, 0x24,
    0x27, 0xae, 0x41, 0xe4, 0x64, 0x9b, 0x93, 0x4c, 0xa4, 0x95, 0x99, 0x1b, 0x78, 0x52, 0xb8, 0x54,
];

const OTHER_RECORD: &[u8] =
    b"SHA256 (/bsd) = E3B0C44298FC1C149AFBF4C8996FB92427AE41E4649B934CA495991B7852B854";

const MISMATCH: &[u8] =
    b"relink: /bsd does not match: recorded e3b0c44298fc1c149afbf4c8996fb92427ae41e4649b934ca495991b7852b854 found e3b0c44298fc1c149afbf4c8996fb92427ae41e4649b934ca495991b7852b855\n";

const NO_KERNEL: &[u8] =
    b"relink: /bsd does not match: recorded e3b0c44298fc1c149afbf4c8996fb92427ae41e4649b934ca495991b7852b855 found absent\n";

/// A record without its last digit, and one with a letter in the place of its first.
const SHORT_RECORD: &[u8] =
    b"SHA256 (/bsd) = E3B0C44298FC1C149AFBF4C8996FB92427AE41E4649B934CA495991B7852B85";

const LETTER_RECORD: &[u8] =
    b"SHA256 (/bsd) = G3B0C44298FC1C149AFBF4C8996FB92427AE41E4649B934CA495991B7852B855";

const LONG_RECORD: &[u8] = &[b' '; 4097];

const LIBRARY: &[u8] = b"kind library\noutput /usr/lib/libk.so.1\nobject absent.o\n";

/// A refusal: what is changed of the machine, and the status, the cause and the line.
type Refusal = (&'static [Change], u8, Cause, &'static [u8]);

/// What refuses the kernel's job where the source of random bytes has no block left. Where two stand, the first of them is told.
const REFUSALS: [Refusal; 9] = [
    (
        &[(KERNEL_SLOT, Some(b"")), (RECORD, None)],
        15,
        Cause::Pending { slot: Slot::Kernel },
        b"relink: intent pending /var/db/relink.kernel.intent\n",
    ),
    (
        &[(RECORD, None), (KERNEL, None)],
        11,
        Cause::Record(RecordCause::Absent),
        b"relink: record absent\n",
    ),
    (
        &[(RECORD, Some(SHORT_RECORD))],
        11,
        Cause::Record(RecordCause::Flaw(RecordFault::Length { found: 79 })),
        b"relink: record flaw 1\n",
    ),
    (
        &[(RECORD, Some(LONG_RECORD))],
        11,
        Cause::Record(RecordCause::Flaw(RecordFault::Length { found: 4097 })),
        b"relink: record flaw 1\n",
    ),
    (
        &[(RECORD, Some(LETTER_RECORD))],
        11,
        Cause::Record(RecordCause::Flaw(RecordFault::Digit { place: 16 })),
        b"relink: record flaw 3\n",
    ),
    (
        &[(RECORD, Some(OTHER_RECORD)), (KIT_TEXT, None)],
        10,
        Cause::Mismatch {
            recorded: OTHER_DIGEST,
            found: Some(EMPTY_DIGEST),
        },
        MISMATCH,
    ),
    (
        &[(KERNEL, None)],
        10,
        Cause::Mismatch {
            recorded: EMPTY_DIGEST,
            found: None,
        },
        NO_KERNEL,
    ),
    (
        &[(KIT_TEXT, Some(LIBRARY))],
        12,
        Cause::Kit(KitCause::Kind),
        b"relink: wrong kind\n",
    ),
    (
        &[(DRAWN, None)],
        5,
        Cause::Entropy,
        b"relink: entropy fault\n",
    ),
];

/// A machine with these changes.
fn changed(alloc: Global, changes: &[Change]) -> Result<MemStore, Fail> {
    let mut store = machine(alloc)?;
    change(&mut store, changes)?;
    Ok(store)
}

#[test]
fn refuses_before_the_link(rt: HostRuntime) -> Result<(), Fail> {
    let alloc = rt.alloc();
    for (changes, status, cause, line) in REFUSALS {
        let before = changed(alloc, changes)?;
        // a sink that fails changes nothing of a refusal
        for (writes, written) in [(u64::MAX, line), (0, b"".as_slice())] {
            let mut store = changed(alloc, changes)?;
            let (exit, out) = answer_with(alloc, WORDS, &mut store, &[], writes)?;
            assert_eq!(rt; (exit.status, exit.batches), (status, 0), "{line:?}");
            assert!(rt; exit.cause == cause, "{line:?}");
            assert_eq!(rt; out.bytes(), written);
            assert!(rt; are_same(&store, &before)?, "{line:?}");
        }
    }
    Ok(())
}
