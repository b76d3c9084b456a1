// Each fault of a kit text, with its line.
use crate::texts::fault;
use kl_kit::{KitFault, Needed};
use std::test::Fail;

// The text of a small kernel's kit without its last line, and of a library's.
const KERNEL: &[u8] = b"kind kernel\noutput /bsd\nentry start\n";

#[test]
fn tells_bytes_and_keywords(rt: HostRuntime) -> Result<(), Fail> {
    let alloc = rt.alloc();
    for (text, line) in [
        (b"kind kernel\n\0\n".as_slice(), 2),
        (b"kind kernel\r\n", 1),
        (b"# \x7f\nkind\n", 1),
        (b"kind kernel\n\noutput /b\x80sd", 3),
    ] {
        assert_eq!(rt; fault(alloc, text)?, KitFault::Byte { line });
    }
    for (text, line) in [
        (b"kinds kernel\n".as_slice(), 1),
        (
            b"kind kernel\n \t# said\nlibrary /usr/share/relink/libc /usr/lib/libc.so\n",
            3,
        ),
        (b"kind kernel\nKIND kernel", 2),
    ] {
        assert_eq!(rt; fault(alloc, text)?, KitFault::Keyword { line });
    }
    Ok(())
}

#[test]
fn tells_places_and_counts(rt: HostRuntime) -> Result<(), Fail> {
    let alloc = rt.alloc();
    for (text, line) in [
        (b"kind kernel\nkind kernel\n".as_slice(), 2),
        (b"output /bsd\nkind kernel\n", 1),
        (b"kind kernel\nsoname x\n", 2),
        (b"kind kernel\nneeded x\n", 2),
        (b"kind kernel\nexport x\n", 2),
        (b"kind kernel\nsymbolic\n", 2),
        (b"kind kernel\nundefined allow\n", 2),
        (b"kind library\nbase 0x1000\n", 2),
    ] {
        assert_eq!(rt; fault(alloc, text)?, KitFault::Misplaced { line });
    }
    for (text, line) in [
        (b"kind\n".as_slice(), 1),
        (b"kind kernel kernel\n", 1),
        (b"kind kernel\nrun .x text a\n", 2),
        (b"kind kernel\nedge a text start end\n", 2),
        (b"kind library\nsymbolic yes\n", 2),
    ] {
        assert_eq!(rt; fault(alloc, text)?, KitFault::Count { line });
    }
    Ok(())
}

#[test]
fn tells_values(rt: HostRuntime) -> Result<(), Fail> {
    let alloc = rt.alloc();
    for (text, line) in [
        (b"kind image\n".as_slice(), 1),
        (b"kind kernel\noutput /bsd.new\n", 2),
        (b"kind library\noutput usr/lib/libc.so\n", 2),
        (b"kind kernel\nbase 0x1001\n", 2),
        (b"kind kernel\nbase 1000\n", 2),
        (b"kind kernel\nbase 0x\n", 2),
        (b"kind kernel\nbase 0x00000000000001000\n", 2),
        (b"kind kernel\nbase 0xffffffffe0001000\n", 2),
        (b"kind kernel\nhead /locore.o\n", 2),
        (b"kind kernel\nhead ../locore.o\n", 2),
        (b"kind kernel\nhead link.conf\n", 2),
        (b"kind kernel\nobject a.relink\n", 2),
        (b"kind kernel\nrun .x code a b\n", 2),
        (b"kind kernel\nedge a stubs start\n", 2),
        (b"kind kernel\nedge a tables end\n", 2),
        (b"kind kernel\nedge a text begin\n", 2),
        (b"kind library\nundefined maybe\n", 2),
    ] {
        assert_eq!(rt; fault(alloc, text)?, KitFault::Value { line });
    }
    Ok(())
}

#[test]
fn tells_reserved_outputs(rt: HostRuntime) -> Result<(), Fail> {
    let alloc = rt.alloc();
    for text in [
        b"kind library\noutput /bsd\n".as_slice(),
        b"kind library\noutput /obsd\n",
        b"kind library\noutput /usr/share/relink/libc.so\n",
        b"kind library\noutput /var/db/libc.so\n",
        b"kind library\noutput /usr/lib/libc.so.relink\n",
        b"kind library\noutput /usr/lib/libc.map\n",
        b"kind library\noutput /usr/lib/linked\n",
    ] {
        assert_eq!(rt; fault(alloc, text)?, KitFault::Reserved { line: 2 });
    }
    Ok(())
}

#[test]
fn tells_what_comes_again(rt: HostRuntime) -> Result<(), Fail> {
    let alloc = rt.alloc();
    for (text, line) in [
        (b"kind kernel\noutput /bsd\noutput /bsd\n".as_slice(), 3),
        (b"kind kernel\nbase 0x1000\nbase 0x2000\n", 3),
        (b"kind kernel\nentry a\nentry b\n", 3),
        (b"kind kernel\nhead a.o\ntail a.o\n", 3),
        (
            b"kind kernel\nrun .x text a b\nrun .y text c d\nrun .x text e f\n",
            4,
        ),
        (b"kind kernel\nrun .x text a a\n", 2),
        (b"kind kernel\nrun .x text a b\nedge b data end\n", 3),
        (b"kind kernel\nedge a data end\nedge a text start\n", 3),
        (b"kind kernel\ndrop .x\ndrop .y\ndrop .x\n", 4),
        (b"kind library\nneeded a\nneeded a\n", 3),
        (b"kind library\nexport a\nexport a\n", 3),
        (b"kind library\nsoname a\nsoname b\n", 3),
        (b"kind library\nsymbolic\nsymbolic\n", 3),
        (b"kind library\nundefined allow\nundefined refuse\n", 3),
    ] {
        assert_eq!(rt; fault(alloc, text)?, KitFault::Twice { line });
    }
    Ok(())
}

#[test]
fn tells_what_is_missing(rt: HostRuntime) -> Result<(), Fail> {
    let alloc = rt.alloc();
    for (text, what) in [
        (b"".as_slice(), Needed::Kind),
        (b"\n# nothing\n \t\n", Needed::Kind),
        (b"kind library", Needed::Output),
        (b"kind kernel\nhead a.o\n", Needed::Output),
        (b"kind kernel\noutput /bsd\n", Needed::Entry),
        (KERNEL, Needed::Input),
        (b"kind library\noutput /usr/lib/libc.so\n", Needed::Input),
    ] {
        assert_eq!(rt; fault(alloc, text)?, KitFault::Missing { what });
    }
    Ok(())
}

// Faults that stand together in one line, each pair in its order, and in two lines.
#[test]
fn tells_the_first(rt: HostRuntime) -> Result<(), Fail> {
    let alloc = rt.alloc();
    let line = 2;
    for (text, first) in [
        (
            b"kind kernel\nkinds\0\n".as_slice(),
            KitFault::Byte { line },
        ),
        (b"kind kernel\nkind a b\n", KitFault::Misplaced { line }),
        (
            b"kind library\nbase 0x1 0x2\n",
            KitFault::Misplaced { line },
        ),
        (b"kind kernel\nrun .x code a\n", KitFault::Count { line }),
        (b"kind kernel\nrun .x code a a\n", KitFault::Value { line }),
        (b"kind kernel\nunknown\n\0\n", KitFault::Keyword { line }),
        (b"kind kernel\nentry\nbase 1\n", KitFault::Count { line }),
    ] {
        assert_eq!(rt; fault(alloc, text)?, first);
    }
    let text = b"kind library\noutput /usr/lib/libc.so\noutput /bsd\n";
    assert_eq!(rt; fault(alloc, text)?, KitFault::Reserved { line: 3 });
    Ok(())
}
