// Members by their names and places.
use crate::archives::{Row, has_members};
use crate::made::{BSD, GNU};
use std::test::Fail;

#[test]
fn skips_the_index_and_the_table(rt: HostRuntime) -> Result<(), Fail> {
    let archive: &[u8] = b"!<arch>\n\
/               0           0     0     0       4         `\n1234\
//                                              14        `\nlong_name.o/\n\n\
/0              0           0     0     644     2         `\nab\
a.o/            0           0     0     644     3         `\nxyz\n";
    let rows = [
        Row {
            name: b"long_name.o",
            at: 132,
            start: 206,
            len: 2,
        },
        Row {
            name: b"a.o",
            at: 208,
            start: 268,
            len: 3,
        },
    ];
    assert!(rt; has_members(rt.alloc(), archive, &rows)?);
    assert!(rt; has_members(rt.alloc(), b"!<arch>\n", &[])?);
    Ok(())
}

#[test]
fn reads_what_ar_wrote(rt: HostRuntime) -> Result<(), Fail> {
    let rows = [
        Row {
            name: b"an_object_with_a_long_name.o",
            at: 138,
            start: 260,
            len: 400,
        },
        Row {
            name: b"a.txt",
            at: 660,
            start: 720,
            len: 3,
        },
        Row {
            name: b"a_member_with_a_long_name.txt",
            at: 168,
            start: 784,
            len: 4,
        },
    ];
    assert!(rt; has_members(rt.alloc(), GNU, &rows)?);
    let rows = [
        Row {
            name: b"a.txt",
            at: 148,
            start: 160,
            len: 8,
        },
        Row {
            name: b"a_longer_name_than_16.txt",
            at: 228,
            start: 256,
            len: 8,
        },
    ];
    assert!(rt; has_members(rt.alloc(), BSD, &rows)?);
    Ok(())
}

/// The last table before a member counts, a pad may have any value, and the last one may be missing.
#[test]
fn takes_the_last_table(rt: HostRuntime) -> Result<(), Fail> {
    let archive: &[u8] = b"!<arch>\n\
//                                              3         `\na/\nx\
/00             0           0     0     0       0         `\n\
//                                              3         `\nb/\n/\
/0              0           0     0     0       1         `\ny";
    let rows = [
        Row {
            name: b"a",
            at: 68,
            start: 132,
            len: 0,
        },
        Row {
            name: b"b",
            at: 192,
            start: 256,
            len: 1,
        },
    ];
    assert!(rt; has_members(rt.alloc(), archive, &rows)?);
    Ok(())
}

/// Names in the field itself, with a slash and without, and an index of each other name.
#[test]
fn reads_short_names(rt: HostRuntime) -> Result<(), Fail> {
    let archive: &[u8] = b"!<arch>\n\
/SYM64/         0           0     0     0       0         `\n\
__.SYMDEF       0           0     0     0       0         `\n\
__.SYMDEF SORTED0           0     0     0       0         `\n\
#1/20           0           0     0     0       21        `\n__.SYMDEF SORTED\0\0\0\0z \
a b/c/          0           0     0     0       0         `\n\
sixteen_letters_0           0     0     0       0         `\n\
#1/2            0           0     0     0       2         `\n\0\0";
    let rows = [
        Row {
            name: b"a b",
            at: 270,
            start: 330,
            len: 0,
        },
        Row {
            name: b"sixteen_letters_",
            at: 330,
            start: 390,
            len: 0,
        },
        Row {
            name: b"",
            at: 450,
            start: 452,
            len: 0,
        },
    ];
    assert!(rt; has_members(rt.alloc(), archive, &rows)?);
    Ok(())
}
