// Each fault of an archive, with its place.
use crate::archives::fault;
use crate::made::{BSD, GNU, THIN};
use kl_ar::ArFault;
use std::test::Fail;

#[test]
fn tells_what_is_no_archive(rt: HostRuntime) -> Result<(), Fail> {
    let alloc = rt.alloc();
    for bytes in [
        b"".as_slice(),
        b"!<arch>",
        b"!<arch> ",
        b"\x7fELF\x02\x01\x01\0",
    ] {
        assert_eq!(rt; fault(alloc, bytes)?, ArFault::Magic);
    }
    assert_eq!(rt; fault(alloc, THIN)?, ArFault::Thin);
    assert_eq!(rt; fault(alloc, b"!<thin>\n")?, ArFault::Thin);
    Ok(())
}

#[test]
fn tells_what_is_cut_off(rt: HostRuntime) -> Result<(), Fail> {
    let alloc = rt.alloc();
    for bytes in [
        b"!<arch>\na".as_slice(),
        b"!<arch>\na.o/            0           0     0     0       0         `",
        b"!<arch>\na.o/            0           0     0     0       3         `\nxy",
        b"!<arch>\na.o/            0           0     0     0       9999999999`\nxy",
    ] {
        assert_eq!(rt; fault(alloc, bytes)?, ArFault::Truncated { at: 8 });
    }
    // The last member of each, cut off by a byte.
    let (_, gnu) = GNU.split_last().ok_or("bytes")?;
    assert_eq!(rt; fault(alloc, gnu)?, ArFault::Truncated { at: 724 });
    let (_, bsd) = BSD.split_last().ok_or("bytes")?;
    assert_eq!(rt; fault(alloc, bsd)?, ArFault::Truncated { at: 168 });
    Ok(())
}

#[test]
fn tells_headers_and_sizes(rt: HostRuntime) -> Result<(), Fail> {
    let alloc = rt.alloc();
    for bytes in [
        b"!<arch>\na.o/            0           0     0     0       0         \n`".as_slice(),
        b"!<arch>\na.o/            0           0     0     0       12x        \n",
        // A size of 11 digits reaches into the end of the header.
        b"!<arch>\na.o/            0           0     0     0       00000000000\n",
    ] {
        assert_eq!(rt; fault(alloc, bytes)?, ArFault::Header { at: 66 });
    }
    for bytes in [
        b"!<arch>\na.o/            0           0     0     0       12x       `\n".as_slice(),
        b"!<arch>\na.o/            0           0     0     0                 `\n",
        b"!<arch>\na.o/            0           0     0     0        1        `\nx",
        b"!<arch>\na.o/            0           0     0     0       1 2       `\nx",
        b"!<arch>\na.o/            0           0     0     0       -1        `\n",
    ] {
        assert_eq!(rt; fault(alloc, bytes)?, ArFault::SizeText { at: 56 });
    }
    Ok(())
}

#[test]
fn tells_long_names(rt: HostRuntime) -> Result<(), Fail> {
    let alloc = rt.alloc();
    for bytes in [
        // no table before
        b"!<arch>\n/0              0           0     0     0       0         `\n".as_slice(),
        // no number
        b"!<arch>\n/x              0           0     0     0       0         `\n",
        b"!<arch>\n#1/             0           0     0     0       0         `\n",
        b"!<arch>\n#1/1x           0           0     0     0       2         `\nab",
        // a name longer than the data
        b"!<arch>\n#1/4            0           0     0     0       3         `\nabc\n",
    ] {
        assert_eq!(rt; fault(alloc, bytes)?, ArFault::LongName { at: 8 });
    }
    for (bytes, at) in [
        // past the table, and at its end
        (
            b"!<arch>\n//                                              3         `\na/\n\n\
/4              0           0     0     0       0         `\n"
                .as_slice(),
            72,
        ),
        (
            b"!<arch>\n//                                              3         `\na/\n\n\
/3              0           0     0     0       0         `\n",
            72,
        ),
        // no end in the table, though one stands behind it
        (
            b"!<arch>\n//                                              2         `\na/\
/0              0           0     0     0       2         `\n/\n",
            70,
        ),
    ] {
        assert_eq!(rt; fault(alloc, bytes)?, ArFault::LongName { at });
    }
    Ok(())
}
