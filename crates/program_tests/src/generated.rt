// Kits that are made in memory.
use crate::runs::answer_with;
use kl_cli::Exit;
use kl_jobs::Cause;
use kl_mem::{MemStore, VecSink};
use std::alloc::Global;
use std::test::Fail;

/// The answer to `generate`, over a store and a source that fail at each call, and what was written.
fn generate(alloc: Global, count: &[u8], writes: u64) -> Result<(Exit, VecSink), Fail> {
    let mut store = MemStore::new(alloc);
    store.fail_at(0, false)?;
    answer_with(alloc, &[b"generate", count], &mut store, &[], writes)
}

#[test]
fn makes_and_links(rt: HostRuntime) -> Result<(), Fail> {
    let alloc = rt.alloc();
    let rows: [(&[u8], &[u8]); 2] = [
        (b"1", b"generated 1 pieces 2 fields 2 bytes "),
        (b"200", b"generated 200 pieces 400 fields 400 bytes "),
    ];
    for (count, front) in rows {
        let (exit, out) = generate(alloc, count, u64::MAX)?;
        assert_eq!(rt; (exit.status, exit.cause), (0, Cause::Done));
        let line = out.bytes();
        assert!(rt; line.starts_with(front), "{line:?}");
        let (_, again) = generate(alloc, count, u64::MAX)?;
        assert_eq!(rt; line, again.bytes());
    }
    Ok(())
}

#[test]
fn tells_that_its_line_is_not_written(rt: HostRuntime) -> Result<(), Fail> {
    let (exit, out) = generate(rt.alloc(), b"1", 0)?;
    assert_eq!(rt;
        (exit.status, exit.cause, exit.batches),
        (6, Cause::Sink, 0)
    );
    assert_eq!(rt; out.bytes(), b"".as_slice());
    Ok(())
}
