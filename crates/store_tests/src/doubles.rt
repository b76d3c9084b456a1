ghost use Rattle.std.specs.Prelude.{◌≢◌};

use kl_base::Name;
use kl_mem::{Fuse, ListEntropy, MemStore, VecSink};
use kl_store::{Entropy, Failed, Sink, Store, WholeFault, read_whole};
use std::alloc::Global;
use std::test::Fail;

fn named(bytes: &[u8]) -> Result<Name, Fail> {
    Ok(Name::from_bytes(bytes)?)
}

fn holds(store: &MemStore, name: &Name, bytes: &[u8]) -> bool {
    match store.get(name) {
        Some(held) => held == bytes,
        None => false,
    }
}

#[test]
fn keeps_files(rt: HostRuntime) -> Result<(), Fail> {
    let (a, b) = (named(b"/kit/a")?, named(b"/kit/b.relink")?);
    let mut store = MemStore::new(rt.alloc());
    store.append(&a, b"one")?;
    store.append(&a, b" two")?;
    store.create(&b)?;
    store.settle()?;
    assert_eq!(rt; store.size(&a)?, Some(7));
    let mut buf = [b'.'; 6];
    assert_eq!(rt; store.read(&a, 4, &mut buf)?, 3);
    assert_eq!(rt; &buf, b"two...");
    assert_eq!(rt; store.read(&a, 9, &mut buf)?, 0);
    assert_ne!(rt; a, b);
    assert_eq!(rt; store.rename(&a, &b)?, true);
    assert_eq!(rt; store.rename(&a, &b)?, false);
    assert!(rt; holds(&store, &b, b"one two"));
    assert_eq!(rt; (store.remove(&b)?, store.remove(&b)?), (true, false));
    assert_eq!(rt; store.size(&b)?, None);
    assert_eq!(rt; store.starved(), 0);
    Ok(())
}

#[test]
fn fails_where_planned(rt: HostRuntime) -> Result<(), Fail> {
    let a = named(b"/a")?;
    let mut store = MemStore::new(rt.alloc());
    store.put(&a, b"old")?;
    store.fail_at(0, true)?;
    store.fail_at(0, false)?;
    store.fail_at(1, true)?;
    store.fail_at(3, true)?;
    assert_eq!(rt; store.append(&a, b"er"), Err(Failed));
    assert!(rt; holds(&store, &a, b"old"));
    assert_eq!(rt; store.append(&a, b"er"), Err(Failed));
    assert!(rt; holds(&store, &a, b"older"));
    assert_eq!(rt; store.remove(&a), Ok(true));
    assert_eq!(rt; store.size(&a), Err(Failed));
    Ok(())
}

type Held = Option<&'static [u8]>;

/// Whether the images that the picks name hold this under `/a` and `/b`.
fn has_images(store: &MemStore, alloc: Global, cases: &[(u64, Held, Held)]) -> Result<bool, Fail> {
    let (a, b) = (named(b"/a")?, named(b"/b")?);
    for (pick, at_a, at_b) in cases {
        let image = store.crash(alloc, *pick)?;
        if (image.get(&a), image.get(&b)) != (*at_a, *at_b) {
            return Ok(false);
        }
    }
    Ok(true)
}

#[test]
fn leaves_stable_files(rt: HostRuntime) -> Result<(), Fail> {
    let old: Held = Some(b"old");
    let mut store = MemStore::new(rt.alloc());
    store.put(&named(b"/a")?, b"old")?;
    assert!(rt; has_images(&store, rt.alloc(), &[(0, old, None), (3, old, None)])?);
    Ok(())
}

/// A store with a stable file under `/a`, in whose place three changes put a new one: it is created
/// under `/b`, gets its bytes, and is renamed.
fn with_a_replacement(alloc: Global) -> Result<MemStore, Fail> {
    let (a, b) = (named(b"/a")?, named(b"/b")?);
    if a == b {
        return Err(Fail::from("the names are one"));
    }
    let mut store = MemStore::new(alloc);
    store.put(&a, b"old")?;
    store.create(&b)?;
    store.append(&b, b"wxyz")?;
    store.rename(&b, &a)?;
    Ok(store)
}

#[test]
fn leaves_the_picked_image(rt: HostRuntime) -> Result<(), Fail> {
    let old: Held = Some(b"old");
    let store = with_a_replacement(rt.alloc())?;
    // Three changes are pending: the first pick mod 4 of them are carried out.
    let cases: [(u64, Held, Held); 12] = [
        (0, old, None),
        (12, old, None),
        (1, old, Some(b"")),
        (13, old, Some(b"")),
        (2, old, Some(b"")),
        (6, old, Some(b"wx")),
        (10, old, Some(b"wxyz")),
        (14, old, Some(b"\x88\x87\x86\x85")),
        (3, Some(b""), None),
        (7, Some(b"wx"), None),
        (11, Some(b"wxyz"), None),
        (15, Some(b"\x88\x87\x86\x85"), None),
    ];
    assert!(rt; has_images(&store, rt.alloc(), &cases)?);
    Ok(())
}

#[test]
fn leaves_settled_changes(rt: HostRuntime) -> Result<(), Fail> {
    let new: Held = Some(b"wxyz");
    let mut store = with_a_replacement(rt.alloc())?;
    store.settle()?;
    assert!(rt; has_images(&store, rt.alloc(), &[(0, new, None), (7, new, None)])?);
    Ok(())
}

#[test]
fn loses_bytes_of_a_file_that_grew(rt: HostRuntime) -> Result<(), Fail> {
    let new: Held = Some(b"wxyz");
    let mut store = with_a_replacement(rt.alloc())?;
    store.settle()?;
    store.append(&named(b"/a")?, b"!")?;
    // A file that was stable may lose its bytes too, once some are added to it.
    let cases: [(u64, Held, Held); 6] = [
        (0, Some(b""), None),
        (1, Some(b""), None),
        (2, Some(b"wx"), None),
        (3, Some(b"wx"), None),
        (4, new, None),
        (5, Some(b"wxyz!"), None),
    ];
    assert!(rt; has_images(&store, rt.alloc(), &cases)?);
    Ok(())
}

#[test]
fn passes_some_calls_on(rt: HostRuntime) -> Result<(), Fail> {
    let a = named(b"/a")?;
    let mut store = Fuse::new(MemStore::new(rt.alloc()), 2);
    assert_eq!(rt; store.append(&a, b"new"), Ok(()));
    assert_eq!(rt; store.size(&a), Ok(Some(3)));
    assert_eq!(rt; store.settle(), Err(Failed));
    assert_eq!(rt; store.remove(&a), Err(Failed));
    let inner = store.into_inner();
    assert!(rt; holds(&inner, &a, b"new"));
    assert!(rt;
        has_images(
            &inner,
            rt.alloc(),
            &[(0, None, None), (5, Some(b"new"), None)]
        )?
    );
    Ok(())
}

/// Makes each of the seven calls once.
fn call_each<S: Store>(store: &mut S, a: &Name, b: &Name) -> Result<(), Failed>
    requires { a.now ≢ b.now }
{
    store.create(a)?;
    store.append(a, b"new")?;
    store.size(a)?;
    store.read(a, 0, &mut [0; 3])?;
    store.rename(a, b)?;
    store.remove(b)?;
    store.settle()
}

#[test]
fn passes_each_call_on_once(rt: HostRuntime) -> Result<(), Fail> {
    let (a, b) = (named(b"/a")?, named(b"/b")?);
    assert_ne!(rt; a, b);
    // The inner store counts its calls: the eighth fails, which is the one after the seven.
    let mut inner = MemStore::new(rt.alloc());
    inner.fail_at(7, false)?;
    let mut store = Fuse::new(inner, 8);
    assert_eq!(rt; call_each(&mut store, &a, &b), Ok(()));
    assert_eq!(rt; store.settle(), Err(Failed));
    Ok(())
}

fn whole(alloc: Global, limit: u64, fails: u64) -> Result<Result<Vec<u8>, WholeFault>, Fail> {
    let name = named(b"/kit/k.o")?;
    let mut store = MemStore::new(alloc);
    store.put(&name, b"abc")?;
    store.fail_at(fails, false)?;
    Ok(read_whole(alloc, &mut store, &name, limit))
}

#[test]
fn reads_whole_files(rt: HostRuntime) -> Result<(), Fail> {
    assert_eq!(rt; whole(rt.alloc(), 3, 9)??.as_slice(), b"abc".as_slice());
    let cases = [
        (2, 9, WholeFault::TooLong { size: 3 }),
        (3, 0, WholeFault::Failed),
        (3, 1, WholeFault::Failed),
    ];
    for (limit, fails, fault) in cases {
        assert_eq!(rt;
            whole(rt.alloc(), limit, fails)?.err(),
            Some(fault),
            "at {limit}, {fails}"
        );
    }
    let mut empty = MemStore::new(rt.alloc());
    let missing = read_whole(rt.alloc(), &mut empty, &named(b"/a")?, 3);
    assert_eq!(rt; missing.err(), Some(WholeFault::Missing));
    Ok(())
}

fn drawn<E: Entropy>(entropy: &mut E) -> Result<[u8; 32], Failed> {
    let mut block = [0; 32];
    entropy.fill(&mut block)?;
    Ok(block)
}

fn said<S: Sink>(sink: &mut S) -> Result<(), Failed> {
    sink.write(b"Hello")
}

#[test]
fn gives_blocks_and_keeps_bytes(rt: HostRuntime) -> Result<(), Fail> {
    let mut entropy = ListEntropy::new(vec![in rt.alloc(); [1; 32], [2; 32]]?);
    assert_eq!(rt; drawn(&mut entropy), Ok([1; 32]));
    assert_eq!(rt; drawn(&mut entropy), Ok([2; 32]));
    assert_eq!(rt; drawn(&mut entropy), Err(Failed));
    let mut sink = VecSink::new(rt.alloc());
    sink.fail_from(1);
    said(&mut sink)?;
    assert_eq!(rt; said(&mut sink), Err(Failed));
    assert_eq!(rt; sink.bytes(), b"Hello".as_slice());
    assert_eq!(rt; sink.starved(), 0);
    Ok(())
}
