use kl_base::Name;
use kl_host::{HostEntropy, HostSink, HostStore};
use kl_store::{Entropy, Failed, Sink, Store, read_whole};
use std::fs;
use std::rt::Files;
use std::test::Fail;

// The calls without their contracts, so that a test proves no more than that it runs.
fn size<R: Files + Drop>(store: &mut HostStore<R>, name: &Name) -> Result<Option<u64>, Failed> {
    store.size(name)
}

fn read<R: Files + Drop>(
    store: &mut HostStore<R>,
    name: &Name,
    at: u64,
    buf: &mut [u8],
) -> Result<usize, Failed> {
    store.read(name, at, buf)
}

fn create<R: Files + Drop>(store: &mut HostStore<R>, name: &Name) -> Result<(), Failed> {
    store.create(name)
}

fn append<R: Files + Drop>(
    store: &mut HostStore<R>,
    name: &Name,
    bytes: &[u8],
) -> Result<(), Failed> {
    store.append(name, bytes)
}

// Two names that are one are no rename.
fn rename<R: Files + Drop>(
    store: &mut HostStore<R>,
    from: &Name,
    to: &Name,
) -> Result<bool, Failed> {
    if from == to {
        Ok(false)
    } else {
        store.rename(from, to)
    }
}

fn remove<R: Files + Drop>(store: &mut HostStore<R>, name: &Name) -> Result<bool, Failed> {
    store.remove(name)
}

fn settle<R: Files + Drop>(store: &mut HostStore<R>) -> Result<(), Failed> {
    store.settle()
}

fn named(bytes: &[u8]) -> Result<Name, Fail> {
    Ok(Name::from_bytes(bytes)?)
}

// The folder of the test and what a broken run may have left in it are removed.
fn cleared(rt: &HostRuntime) {
    let _ = fs::remove_dir_all(rt, "relink_host_test");
}

#[test]
fn keeps_files(rt: HostRuntime) -> Result<(), Fail> {
    cleared(&rt);
    let a = named(b"/relink_host_test/a/one")?;
    let b = named(b"/relink_host_test/b/c/two")?;
    let mut store = HostStore::new(&rt, rt.alloc());
    assert_eq!(rt;
        (size(&mut store, &a)?, remove(&mut store, &a)?),
        (None, false)
    );
    settle(&mut store)?;
    append(&mut store, &a, b"one")?;
    append(&mut store, &a, b" two")?;
    settle(&mut store)?;
    assert_eq!(rt;
        fs::read(&rt, "relink_host_test/a/one")?.as_slice(),
        b"one two".as_slice()
    );
    let mut buf = [b'.'; 6];
    assert_eq!(rt; (read(&mut store, &a, 4, &mut buf)?, &buf), (3, b"two..."));
    assert_eq!(rt; read(&mut store, &a, 7, &mut buf)?, 0);
    assert_eq!(rt;
        (rename(&mut store, &a, &b)?, size(&mut store, &a)?),
        (true, None)
    );
    assert_eq!(rt; rename(&mut store, &a, &b)?, false);
    assert_eq!(rt;
        read_whole(rt.alloc(), &mut store, &b, 7)?.as_slice(),
        b"one two".as_slice()
    );
    create(&mut store, &b)?;
    create(&mut store, &a)?;
    settle(&mut store)?;
    assert_eq!(rt;
        (size(&mut store, &a)?, size(&mut store, &b)?),
        (Some(0), Some(0))
    );
    assert_eq!(rt; remove(&mut store, &b)?, true);
    assert!(rt;
        size(&mut store, &named(b"/relink_host_test/a/one/x")?).is_err(),
        "a file as a folder"
    );
    assert!(rt;
        create(&mut store, &named(b"/relink_host_test/a")?).is_err(),
        "a folder as a file"
    );
    cleared(&rt);
    Ok(())
}

#[test]
fn moves_one_of_two_names(rt: HostRuntime) -> Result<(), Fail> {
    let _ = fs::remove_dir_all(&rt, "relink_host_links");
    let a = named(b"/relink_host_links/a")?;
    let b = named(b"/relink_host_links/b")?;
    let mut store = HostStore::new(&rt, rt.alloc());
    append(&mut store, &a, b"one")?;
    fs::hard_link(&rt, "relink_host_links/a", "relink_host_links/b")?;
    assert_eq!(rt; rename(&mut store, &a, &b)?, true);
    assert_eq!(rt;
        (size(&mut store, &a)?, size(&mut store, &b)?),
        (None, Some(3))
    );
    settle(&mut store)?;
    let _ = fs::remove_dir_all(&rt, "relink_host_links");
    Ok(())
}

#[test]
fn draws_and_writes(rt: HostRuntime) -> Result<(), Fail> {
    let (mut first, mut second) = ([0; 32], [0; 32]);
    let mut entropy = HostEntropy::new(&rt);
    entropy.fill(&mut first)?;
    entropy.fill(&mut second)?;
    assert_ne!(rt; first, second);
    HostSink::new(&rt).write(b"written\n")?;
    Ok(())
}
