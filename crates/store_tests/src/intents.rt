use kl_base::Slot;
use kl_intent::{print_intent, read_intent, slot_name};
use std::alloc::Global;
use std::test::Fail;

const HEAD: &[u8] = b"relink intent 1\nbatch kernel\n";

const KERNEL: &[u8] =
    b"entry /bsd 00000000000000000000000000000000000000000000000000000000000000ff \
abcdef0000000000000000000000000000000000000000000000000000000000\n";

const MAP: &[u8] = b"entry /var/db/kernel.map - \
abcdef0000000000000000000000000000000000000000000000000000000001\n";

const END: &[u8] = b"end\n";

// Lines of entries with a scratch name, digits of upper case, two spaces, and the name of a slot.
const SCRATCH: &[u8] =
    b"entry /bsd.relink - abcdef0000000000000000000000000000000000000000000000000000000000\n";

const UPPER: &[u8] =
    b"entry /bsd - ABCDEF0000000000000000000000000000000000000000000000000000000000\n";

const SPACES: &[u8] =
    b"entry  /bsd - abcdef0000000000000000000000000000000000000000000000000000000000\n";

const SLOT: &[u8] =
    b"entry /var/db/relink.libs.intent - abcdef0000000000000000000000000000000000000000000000000000000000\n";

/// The lines as one text.
fn text(alloc: Global, lines: &[&[u8]]) -> Result<Vec<u8>, Fail> {
    let mut text = Vec::new(alloc);
    for line in lines {
        text.extend_from_slice(line)?;
    }
    Ok(text)
}

#[test]
fn reads_and_prints(rt: HostRuntime) -> Result<(), Fail> {
    let text = text(rt.alloc(), &[HEAD, KERNEL, MAP, END])?;
    let intent = read_intent(&text).ok().ok_or("an intent")?;
    assert_eq!(rt; (intent.slot, intent.count), (Slot::Kernel, 2));
    assert_eq!(rt; intent.entries[0].target.bytes(), b"/bsd".as_slice());
    assert_eq!(rt; intent.entries[1].old, None);
    assert_eq!(rt; intent.entries[1].new[31], 1);
    let mut out = [0; 4096];
    let count = print_intent(&intent, &mut out);
    assert_eq!(rt; &out[..count], text.as_slice());
    assert_eq!(rt;
        slot_name(Slot::Libs).bytes(),
        b"/var/db/relink.libs.intent".as_slice()
    );
    Ok(())
}

/// The first line of a text of these lines that is outside the grammar.
fn wrong_line(alloc: Global, lines: &[&[u8]]) -> Result<Option<u32>, Fail> {
    let text = text(alloc, lines)?;
    match read_intent(&text) {
        Ok(_) => Ok(None),
        Err(fault) => Ok(Some(fault.line)),
    }
}

#[test]
fn tells_the_first_wrong_line(rt: HostRuntime) -> Result<(), Fail> {
    let alloc = rt.alloc();
    let long = vec![in alloc; b'\n'; 4097]?;
    assert_eq!(rt; wrong_line(alloc, &[&long])?, Some(0));
    assert_eq!(rt; wrong_line(alloc, &[])?, Some(1));
    assert_eq!(rt;
        wrong_line(alloc, &[b"relink intent 2\n", KERNEL, END])?,
        Some(1)
    );
    assert_eq!(rt;
        wrong_line(alloc, &[b"relink intent 1\n", KERNEL, END])?,
        Some(2)
    );
    assert_eq!(rt; wrong_line(alloc, &[HEAD, END])?, Some(3));
    assert_eq!(rt; wrong_line(alloc, &[HEAD, SCRATCH, END])?, Some(3));
    assert_eq!(rt; wrong_line(alloc, &[HEAD, UPPER, END])?, Some(3));
    assert_eq!(rt; wrong_line(alloc, &[HEAD, SPACES, END])?, Some(3));
    assert_eq!(rt; wrong_line(alloc, &[HEAD, SLOT, END])?, Some(3));
    assert_eq!(rt; wrong_line(alloc, &[HEAD, KERNEL, KERNEL, END])?, Some(4));
    assert_eq!(rt; wrong_line(alloc, &[HEAD, KERNEL])?, Some(4));
    assert_eq!(rt; wrong_line(alloc, &[HEAD, KERNEL, b"end"])?, Some(4));
    assert_eq!(rt; wrong_line(alloc, &[HEAD, KERNEL, END, b"x"])?, Some(5));
    assert_eq!(rt; wrong_line(alloc, &[HEAD, KERNEL, END, MAP])?, Some(5));
    Ok(())
}
