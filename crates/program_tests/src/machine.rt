// A machine whose kernel is linked anew: its files, and what they are before and behind that.
use crate::runs::{CALL, OBJECT, answer_with, named};
use kl_base::Name;
use kl_cli::Exit;
use kl_mem::{Fuse, MemStore, VecSink};
use kl_store::{Store, write_whole};
use sha2::{Digest, Sha256};
use std::alloc::Global;
use std::test::Fail;

pub(crate) const KERNEL: &[u8] = b"/bsd";

pub(crate) const RECORD: &[u8] = b"/var/db/kernel.SHA256";

const MAP: &[u8] = b"/var/db/kernel.map";

pub(crate) const KERNEL_SLOT: &[u8] = b"/var/db/relink.kernel.intent";

pub(crate) const LIBS_SLOT: &[u8] = b"/var/db/relink.libs.intent";

pub(crate) const KIT_TEXT: &[u8] = b"/usr/share/relink/kernel/link.conf";

const HEAD: &[u8] = b"/usr/share/relink/kernel/k.o";

pub(crate) const DRAWN: &[u8] = b"/usr/share/relink/kernel/a.o";

/// Each name that the commands of the kernel may change, and those of its kit.
const NAMES: [&[u8]; 13] = [
    KERNEL,
    RECORD,
    MAP,
    KERNEL_SLOT,
    LIBS_SLOT,
    KIT_TEXT,
    HEAD,
    DRAWN,
    b"/bsd.relink",
    b"/var/db/kernel.SHA256.relink",
    b"/var/db/kernel.map.relink",
    b"/var/db/relink.kernel.intent.relink",
    b"/var/db/relink.libs.intent.relink",
];

const KIT: &[u8] = b"kind kernel\noutput /bsd\nentry start\nhead k.o\nobject a.o\n";

/// The record of a kernel without a byte, by `sha256sum`, as another program may write it.
const OLD_RECORD: &[u8] =
    b"SHA256 (/bsd) = E3B0C44298FC1C149AFBF4C8996FB92427AE41E4649B934CA495991B7852B855";

/// A seed that draws small gaps for `/bsd`, by `examples/order/order.py` 0x270, 0x700, 0x500 and 0x10a10 bytes, and the digits of it.
pub(crate) const SEED: [u8; 32] = [
    0, 0, 0, 0, 0, 0, 0, 0, 0, 0, 0, 0, 0, 0, 0, 0, 0, 0, 0, 0, 0, 0, 0, 0, 0, 0, 0, 0, 0, 0, 0xa4,
    0xa4,
];

pub(crate) const DIGITS: &[u8] =
    b"000000000000000000000000000000000000000000000000000000000000a4a4";

/// The digest of the kit's image under that seed, which a script put together from the gABI.
pub(crate) const NEW_DIGEST: [u8; 32] = [
    0x30, 0x49, 0x1b, 0xbe, 0x06, 0x4d, 0x58, 0x26, 0x01, 0xe1, 0xde, 0x67, 0x9e, 0xc8, 0x8d, 0xf3,
    0xf5, 0xfa, 0xde, 0xbe, 0xde, 0xd5, 0xb6, 0x19, 0x31, 0x49, 0x00, 0x86, 0x16, 0x5d, 0x14, 0x8b,
];

const NEW_RECORD: &[u8] =
    b"SHA256 (/bsd) = 30491bbe064d582601e1de679ec88df3f5fadebeded5b61931490086165d148b\n";

const NEW_MAP: &[u8] = b"relink map 1
output /bsd
seed 000000000000000000000000000000000000000000000000000000000000a4a4
base 0xffffffff81000000
area text 0xffffffff81000000 0xffffffff81000285
area rodata 0xffffffff81001000 0xffffffff81001700
area data 0xffffffff81002000 0xffffffff81002500
area bss 0xffffffff81003000 0xffffffff81013a10
area init 0xffffffff81000285 0xffffffff81000285
area fini 0xffffffff81000285 0xffffffff81000285
area stubs 0xffffffff81000285 0xffffffff81000285
area eh_frame 0xffffffff81001700 0xffffffff81001700
area tables 0xffffffff81001700 0xffffffff81001700
area ctors 0xffffffff81002500 0xffffffff81002500
area dtors 0xffffffff81002500 0xffffffff81002500
area init_array 0xffffffff81002500 0xffffffff81002500
area fini_array 0xffffffff81002500 0xffffffff81002500
area got 0xffffffff81001700 0xffffffff81001700
area dynamic 0xffffffff81002500 0xffffffff81002500
piece 0 1 0xffffffff81000000 0x0000000000000003
piece 1 1 0xffffffff81000280 0x0000000000000005
gap text 0xffffffff81000010 0x0000000000000270
gap rodata 0xffffffff81001000 0x0000000000000700
gap data 0xffffffff81002000 0x0000000000000500
gap bss 0xffffffff81003000 0x0000000000010a10
end
";

/// A machine with a kernel without a byte, its record, and a kit of two objects.
pub(crate) fn machine(alloc: Global) -> Result<MemStore, Fail> {
    let mut store = MemStore::new(alloc);
    store.put(&named(KERNEL)?, b"")?;
    store.put(&named(RECORD)?, OLD_RECORD)?;
    store.put(&named(KIT_TEXT)?, KIT)?;
    store.put(&named(HEAD)?, &hex::decode(alloc, OBJECT)?)?;
    store.put(&named(DRAWN)?, &hex::decode(alloc, CALL)?)?;
    Ok(store)
}

/// A name, and the file that is put under it, or None where that is removed.
pub(crate) type Change = (&'static [u8], Option<&'static [u8]>);

/// Makes these changes.
pub(crate) fn change(store: &mut MemStore, changes: &[Change]) -> Result<(), Fail> {
    for (name, file) in changes {
        put(store, &named(name)?, *file)?;
    }
    Ok(())
}

fn put(store: &mut MemStore, name: &Name, file: Option<&[u8]>) -> Result<(), Fail> {
    match file {
        Some(bytes) => write_whole(store, name, bytes)?,
        None => {
            let _ = store.remove(name)?;
        }
    }
    Ok(())
}

/// Whether two stores have the same files.
pub(crate) fn are_same(one: &MemStore, other: &MemStore) -> Result<bool, Fail> {
    for name in NAMES {
        let name = named(name)?;
        if one.get(&name) != other.get(&name) {
            return Ok(false);
        }
    }
    Ok(true)
}

/// Of the kernel, its record and its map, whether each is as it was.
fn are_old(store: &MemStore) -> Result<[bool; 3], Fail> {
    Ok([
        store.get(&named(KERNEL)?) == Some(b"".as_slice()),
        store.get(&named(RECORD)?) == Some(OLD_RECORD),
        store.get(&named(MAP)?).is_none(),
    ])
}

/// Of the kernel, its record and its map, whether each is that of the link.
fn are_new(store: &MemStore) -> Result<[bool; 3], Fail> {
    let kernel = store.get(&named(KERNEL)?).ok_or("a kernel")?;
    Ok([
        Sha256::digest(kernel) == NEW_DIGEST,
        store.get(&named(RECORD)?) == Some(NEW_RECORD),
        store.get(&named(MAP)?) == Some(NEW_MAP),
    ])
}

/// Whether all three are as they were.
pub(crate) fn is_old(store: &MemStore) -> Result<bool, Fail> {
    Ok(are_old(store)? == [true; 3])
}

/// Whether all three are new.
pub(crate) fn is_new(store: &MemStore) -> Result<bool, Fail> {
    Ok(are_new(store)? == [true; 3])
}

/// Whether each of the three is wholly as it was or wholly new.
pub(crate) fn is_whole(store: &MemStore) -> Result<bool, Fail> {
    let [kernel, record, map] = are_old(store)?;
    Ok(are_new(store)? == [!kernel, !record, !map])
}

/// The answer to `reorder_kernel` over a store, with a source that gives `SEED` once, and what was written.
pub(crate) fn reorder<S: Store>(alloc: Global, store: &mut S) -> Result<(Exit, VecSink), Fail> {
    answer_with(alloc, &[b"reorder_kernel"], store, &[SEED], u64::MAX)
}

/// The machine behind so many calls of the kernel's job, and how that ended.
pub(crate) fn stopped(alloc: Global, calls: u64) -> Result<(MemStore, Exit), Fail> {
    let mut fuse = Fuse::new(machine(alloc)?, calls);
    let (exit, _) = reorder(alloc, &mut fuse)?;
    Ok((fuse.into_inner(), exit))
}
