ghost use Rattle.std.specs.Prelude.{◌≡◌, [], codes, true, None};
ghost use Rattle.kl_store.specs.Calls.{Holds};
ghost use Rattle.kl_intent.specs.IntentText.{is_target, slot_name};
ghost use Rattle.kl_install.specs.Installers.{staged, slot_of, is_ready};

use kl_base::{Name, Slot};
use kl_digest::sha256;
use kl_install::{Installer, SlotEnd};
use kl_intent::slot_name;
use kl_mem::{Fuse, MemStore};
use kl_store::{Failed, Store};
use std::alloc::Global;
use std::test::Fail;

fn name_a() -> Name
    ensures { result ≡ codes "/bsd" }
{
    Name::from_bytes(b"/bsd").unwrap()
}

fn name_b() -> Name
    ensures { result ≡ codes "/var/db/kernel.SHA256" }
{
    Name::from_bytes(b"/var/db/kernel.SHA256").unwrap()
}

fn name_c() -> Name
    ensures { result ≡ codes "/var/db/kernel.map" }
{
    Name::from_bytes(b"/var/db/kernel.map").unwrap()
}

/// Replaces three files as one batch.
fn replace_three<S: Store>(installer: &mut Installer, store: &mut S) -> Result<(), Failed>
    requires ready { is_ready installer.old ≡ true }
    requires none { staged installer.old ≡ [] }
    requires free { Holds (S.meaning store.old) (slot_name (slot_of installer.old)) (λ file. file ≡ None) }
{
    installer.stage(store, &name_a(), b"new a")?;
    installer.stage(store, &name_b(), b"new b")?;
    installer.stage(store, &name_c(), b"new c")?;
    installer.commit(store)
}

const OLD_A: &[u8] = b"old a";

const OLD_B: &[u8] = b"old b";

/// A store with the first two files as they were, and without the third.
fn old_store(alloc: Global) -> Result<MemStore, Fail> {
    let mut store = MemStore::new(alloc);
    store.put(&name_a(), OLD_A)?;
    store.put(&name_b(), OLD_B)?;
    Ok(store)
}

fn held<'a>(store: &'a MemStore) -> [Option<&'a [u8]>; 3] {
    [
        store.get(&name_a()),
        store.get(&name_b()),
        store.get(&name_c()),
    ]
}

/// Whether the files are all as they were, or all as they were staged.
fn is_old(store: &MemStore) -> bool {
    let old: [Option<&[u8]>; 3] = [Some(OLD_A), Some(OLD_B), None];
    held(store) == old
}

fn is_new(store: &MemStore) -> bool {
    let new: [Option<&[u8]>; 3] = [Some(b"new a"), Some(b"new b"), Some(b"new c")];
    held(store) == new
}

/// The store after the batch was stopped behind so many calls, and whether it was done.
fn stopped(alloc: Global, calls: u64) -> Result<(MemStore, bool), Fail> {
    let mut installer = Installer::new(alloc, Slot::Kernel)?;
    let store = old_store(alloc)?;
    if store.get(&slot_name(Slot::Kernel)).is_some() {
        return Err(Fail::from("a free slot"));
    }
    let mut fuse = Fuse::new(store, calls);
    let done = replace_three(&mut installer, &mut fuse).is_ok();
    Ok((fuse.into_inner(), done))
}

/// Whether the files are new after recovery of the store. They are never mixed, and the slot is free then.
fn is_new_after(installer: &mut Installer, store: &mut MemStore) -> Result<bool, Fail> {
    installer.recover(store)?;
    if !installer.is_ready() || store.get(&slot_name(Slot::Kernel)).is_some() {
        return Err(Fail::from("a free slot"));
    }
    match (is_old(store), is_new(store)) {
        (true, false) => Ok(false),
        (false, true) => Ok(true),
        _ => Err(Fail::from("old or new files")),
    }
}

/// The calls of a batch of these three files: 12 that stage them, and 11 that commit it, of which the
/// fourth gives the intent its name.
const CALLS: u64 = 23;

const INTENT: u64 = 15;

/// The changes that aren't settled behind so many calls, from none on. With n of them a crash has n + 1 picks
/// for those that it carries out, and for each four for the bytes that weren't settled.
const PENDING: [u8; 24] = [
    0, 0, 0, 0, 1, 2, 2, 2, 3, 4, 4, 5, 6, 7, 8, 0, 1, 0, 1, 2, 3, 0, 1, 0,
];

/// Whether the files are new after a stop behind so many calls, and the crash of that pick. The intent's
/// name is one change that isn't settled yet behind its call, so the pick decides then.
fn is_to_be_new(calls: u64, pick: u64) -> bool {
    if calls == INTENT + 1 {
        return pick % 2 == 1;
    }
    calls > INTENT
}

#[test]
fn recovers_after_each_stop(rt: HostRuntime) -> Result<(), Fail> {
    let alloc = rt.alloc();
    let mut installer = Installer::new(alloc, Slot::Kernel)?;
    for calls in 0..CALLS + 1 {
        let (store, done) = stopped(alloc, calls)?;
        assert_eq!(rt; done, calls == CALLS, "behind {calls} calls");
        for pick in 0..4 * (u64::from(PENDING[calls as usize]) + 1) {
            let mut image = store.crash(alloc, pick)?;
            assert_eq!(rt;
                is_new_after(&mut installer, &mut image)?,
                is_to_be_new(calls, pick),
                "behind {calls} calls, pick {pick}"
            );
        }
    }
    Ok(())
}

/// The longest recovery of a batch of three files has fewer calls. It has at most three changes that aren't settled, none
/// of which appends.
const RECOVERY: u64 = 24;

/// Recovery of the image is stopped behind so many calls, and then made again after each crash: the files are new
/// as they are to be. Whether it came to its end.
fn recovers_again(
    alloc: Global,
    installer: &mut Installer,
    image: MemStore,
    calls: u64,
    new: bool,
) -> Result<bool, Fail> {
    let mut fuse = Fuse::new(image, calls);
    let ended = installer.recover(&mut fuse).is_ok();
    let store = fuse.into_inner();
    for pick in 0..4 {
        let mut image = store.crash(alloc, pick)?;
        if is_new_after(installer, &mut image)? != new {
            return Err(Fail::from("files as they are to be"));
        }
    }
    Ok(ended)
}

#[test]
fn recovers_after_stopped_recovery(rt: HostRuntime) -> Result<(), Fail> {
    let alloc = rt.alloc();
    let mut installer = Installer::new(alloc, Slot::Kernel)?;
    for calls in INTENT..CALLS + 1 {
        let (store, _) = stopped(alloc, calls)?;
        for pick in 0..u64::from(PENDING[calls as usize]) + 1 {
            let new = is_to_be_new(calls, pick);
            let mut ended = false;
            for more in 0..RECOVERY {
                let image = store.crash(alloc, pick)?;
                ended = recovers_again(alloc, &mut installer, image, more, new)?;
                if ended {
                    break;
                }
            }
            assert!(rt; ended, "behind {calls} calls, pick {pick}");
        }
    }
    Ok(())
}

#[test]
fn recovers_after_each_failure(rt: HostRuntime) -> Result<(), Fail> {
    let alloc = rt.alloc();
    for call in 0..CALLS {
        for happened in [false, true] {
            let mut installer = Installer::new(alloc, Slot::Kernel)?;
            let mut store = old_store(alloc)?;
            store.fail_at(call, happened)?;
            assert!(rt; store.get(&slot_name(Slot::Kernel)).is_none());
            assert_eq!(rt; replace_three(&mut installer, &mut store), Err(Failed));
            assert!(rt; !installer.is_ready());
            let new = call > INTENT || (call == INTENT && happened);
            assert_eq!(rt;
                is_new_after(&mut installer, &mut store)?,
                new,
                "call {call}, {happened}"
            );
        }
    }
    Ok(())
}

#[test]
fn leaves_other_files_alone(rt: HostRuntime) -> Result<(), Fail> {
    let alloc = rt.alloc();
    let (store, _) = stopped(alloc, INTENT + 3)?;
    let mut image = store.crash(alloc, 1)?;
    image.put(&name_a(), b"other")?;
    let mut installer = Installer::new(alloc, Slot::Kernel)?;
    let foreign = SlotEnd::Foreign {
        entry: 0,
        target: Some(sha256(b"other")),
        temp: None,
    };
    assert_eq!(rt; installer.recover(&mut image), Ok(foreign));
    assert!(rt; !installer.is_ready());
    let left: [Option<&[u8]>; 3] = [Some(b"other"), Some(OLD_B), None];
    assert_eq!(rt; held(&image), left);
    assert!(rt; image.get(&slot_name(Slot::Kernel)).is_some());
    Ok(())
}

#[test]
fn tells_bad_intents(rt: HostRuntime) -> Result<(), Fail> {
    let alloc = rt.alloc();
    let (store, _) = stopped(alloc, INTENT + 2)?;
    let image = store.crash(alloc, 0)?;
    let intent = image.get(&slot_name(Slot::Kernel)).ok_or("an intent")?;
    let cases: [(&[u8], u32); 3] = [(b"", 1), (b"x", 1), (intent, 2)];
    for (text, line) in cases {
        let mut store = MemStore::new(alloc);
        store.put(&slot_name(Slot::Libs), text)?;
        let mut installer = Installer::new(alloc, Slot::Libs)?;
        assert_eq!(rt;
            installer.recover(&mut store),
            Ok(SlotEnd::BadIntent { line })
        );
        assert_eq!(rt; store.get(&slot_name(Slot::Libs)), Some(text));
    }
    let mut store = MemStore::new(alloc);
    store.put(&slot_name(Slot::Kernel), &vec![in alloc; b'x'; 4097]?)?;
    let mut installer = Installer::new(alloc, Slot::Kernel)?;
    assert_eq!(rt;
        installer.recover(&mut store),
        Ok(SlotEnd::BadIntent { line: 0 })
    );
    Ok(())
}
