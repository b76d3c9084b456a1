use crate::kits::{kit_store, object, told};
use kl_ar::ArFault;
use kl_base::{Listed, Name};
use kl_elf::HeadFault;
use kl_jobs::{Cause, ObjectCause};
use kl_mem::MemStore;
use kl_model::{FieldAt, LinkFault, NameText};
use kl_rel::{ReadFault, ReadKind};
use std::alloc::Global;
use std::test::Fail;

/// A kit whose inputs are, in kit order, `a.o`, `b.o`, `d.o` and `c.o`.
const TEXT: &[u8] = b"\
# four objects
kind kernel
output /bsd
entry start
tail c.o
object b.o
head a.o

object d.o
edge etext text end
run .x data x_start x_end
";

/// The files of that kit: `a.o` and `b.o` are the same object, and `c.o` and `d.o` have these bytes.
fn files_with(alloc: Global, c: &[u8], d: &[u8]) -> Result<MemStore, Fail> {
    let object = object(alloc)?;
    let mut store = MemStore::new(alloc);
    store.put(&Name::from_bytes(b"/kit/link.conf")?, TEXT)?;
    store.put(&Name::from_bytes(b"/kit/a.o")?, &object)?;
    store.put(&Name::from_bytes(b"/kit/b.o")?, &object)?;
    store.put(&Name::from_bytes(b"/kit/c.o")?, c)?;
    store.put(&Name::from_bytes(b"/kit/d.o")?, d)?;
    Ok(store)
}

/// The files of that kit, each of them the same object.
fn files(alloc: Global) -> Result<MemStore, Fail> {
    let object = object(alloc)?;
    files_with(alloc, &object, &object)
}

fn named(alloc: Global, name: &[u8]) -> Result<NameText, Fail> {
    Ok(Listed::from_vec(Vec::from_slice(alloc, name)?))
}

#[test]
fn names_inputs_in_kit_order(rt: HostRuntime) -> Result<(), Fail> {
    let alloc = rt.alloc();
    let mut store = files(alloc)?;
    let machine = ReadFault {
        kind: ReadKind::Head(HeadFault::Machine),
        at: 18,
    };
    for (input, line, wanted) in [
        (
            0,
            7,
            "relink: /kit/a.o: not an x86-64 object (machine 62)\n",
        ),
        (
            1,
            6,
            "relink: /kit/b.o: not an x86-64 object (machine 62)\n",
        ),
        (
            2,
            9,
            "relink: /kit/d.o: not an x86-64 object (machine 62)\n",
        ),
        (
            3,
            5,
            "relink: /kit/c.o: not an x86-64 object (machine 62)\n",
        ),
    ] {
        let cause = Cause::Object {
            input,
            line,
            fault: ObjectCause::Elf(machine),
        };
        assert_eq!(rt; told(alloc, &cause, &mut store)?.as_str(), wanted);
    }
    let fault = LinkFault::Undefined {
        name: named(alloc, b"panic")?,
        from: FieldAt {
            input: 3,
            section: 2,
            index: 0,
        },
    };
    assert_eq!(rt;
        told(alloc, &Cause::Link(fault), &mut store)?.as_str(),
        "relink: undefined symbol 'panic', referenced by /kit/c.o, section .text, offset 0x1\n"
    );
    let fault = LinkFault::Doubled {
        name: named(alloc, b"start")?,
        first: (0, 5),
        second: (2, 5),
    };
    assert_eq!(rt;
        told(alloc, &Cause::Link(fault), &mut store)?.as_str(),
        "relink: 'start' is defined twice: by /kit/a.o, section .text, offset 0x0 (symbol 5) and by /kit/d.o, section .text, offset 0x0 (symbol 5)\n"
    );
    Ok(())
}

#[test]
fn names_lines_of_edges(rt: HostRuntime) -> Result<(), Fail> {
    let alloc = rt.alloc();
    let mut store = files(alloc)?;
    let rows: [(&[u8], &str); 3] = [
        (
            b"etext",
            "line 10: 'etext' is the symbol of an edge, and an object of the kit defines it too",
        ),
        (
            b"x_start",
            "line 11: 'x_start' is the symbol of an edge, and an object of the kit defines it too",
        ),
        (
            b"x_end",
            "line 11: 'x_end' is the symbol of an edge, and an object of the kit defines it too",
        ),
    ];
    for (name, wanted) in rows {
        let fault = LinkFault::EdgeClash {
            name: named(alloc, name)?,
        };
        let text = told(alloc, &Cause::Link(fault), &mut store)?;
        let part = text
            .strip_prefix("relink: /kit/link.conf: ")
            .and_then(|rest| rest.strip_suffix("\n"));
        assert_eq!(rt; part, Some(wanted));
    }
    Ok(())
}

/// An archive as `ar` writes it, of `OBJECT` under these two names.
fn archive(alloc: Global) -> Result<Vec<u8>, Fail> {
    let mut bytes = Vec::new(alloc);
    bytes.extend_from_slice(b"!<arch>\n")?;
    let names: [&[u8; 16]; 2] = [b"first.o/        ", b"second.o/       "];
    for name in names {
        bytes.extend_from_slice(name)?;
        bytes.extend_from_slice(b"0           0     0     644     856       `\n")?;
        bytes.extend_from_slice(&object(alloc)?)?;
    }
    Ok(bytes)
}

#[test]
fn names_members_of_archives(rt: HostRuntime) -> Result<(), Fail> {
    let alloc = rt.alloc();
    // in kit order `a.o`, `b.o`, two members of `d.o`, and `c.o`
    let mut store = files_with(alloc, &object(alloc)?, &archive(alloc)?)?;
    let machine = ReadFault {
        kind: ReadKind::Head(HeadFault::Machine),
        at: 18,
    };
    let cause = Cause::Object {
        input: 3,
        line: 9,
        fault: ObjectCause::Elf(machine),
    };
    assert_eq!(rt;
        told(alloc, &cause, &mut store)?.as_str(),
        "relink: /kit/d.o(second.o): not an x86-64 object (machine 62)\n"
    );
    let fault = LinkFault::Doubled {
        name: named(alloc, b"start")?,
        first: (2, 5),
        second: (4, 5),
    };
    assert_eq!(rt;
        told(alloc, &Cause::Link(fault), &mut store)?.as_str(),
        "relink: 'start' is defined twice: by /kit/d.o(first.o), section .text, offset 0x0 (symbol 5) and by /kit/c.o, section .text, offset 0x0 (symbol 5)\n"
    );
    // where a file before an input can't be counted any more its number is told, and no file
    let mut store = files_with(alloc, &object(alloc)?, b"!<arch>\nk.o/")?;
    let fault = LinkFault::Removed {
        from: FieldAt {
            input: 4,
            section: 2,
            index: 2,
        },
    };
    assert_eq!(rt;
        told(alloc, &Cause::Link(fault), &mut store)?.as_str(),
        "relink: relocation 2 of section 2 of input 4 leads to a section that isn't linked\n"
    );
    Ok(())
}

#[test]
fn tells_faults_of_archives(rt: HostRuntime) -> Result<(), Fail> {
    let alloc = rt.alloc();
    let mut store = files(alloc)?;
    let rows = [
        (
            ArFault::Magic,
            "no archive: it doesn't begin with '!<arch>'\n",
        ),
        (
            ArFault::Thin,
            "a thin archive, which only names its members: 'ar rcs' without 'T' makes one that holds them\n",
        ),
        (
            ArFault::Truncated { at: 8 },
            "the archive's member at 0x8 passes the end of the file, which may be cut short\n",
        ),
        (
            ArFault::Header { at: 66 },
            "the archive has no end of a member's header at 0x42: make it again with 'ar rcs'\n",
        ),
        (
            ArFault::SizeText { at: 56 },
            "the archive has no decimal size of a member at 0x38: make it again with 'ar rcs'\n",
        ),
        (
            ArFault::LongName { at: 8 },
            "the name of the archive's member at 0x8 isn't in the archive: make it again with 'ar rcs'\n",
        ),
    ];
    for (fault, wanted) in rows {
        let cause = Cause::Object {
            input: 2,
            line: 9,
            fault: ObjectCause::Ar(fault),
        };
        let text = told(alloc, &cause, &mut store)?;
        assert_eq!(rt; text.strip_prefix("relink: /kit/d.o: "), Some(wanted));
    }
    Ok(())
}
