// Indexes of libraries, and each fault of one, with its line.
use crate::texts::{index, index_fault};
use itoa::Buffer;
use kl_kit::{KitFault, Needed};
use std::alloc::Global;
use std::test::Fail;

#[test]
fn reads_libraries(rt: HostRuntime) -> Result<(), Fail> {
    let text = b"# Two libraries.\nlibrary /usr/share/relink/libc /usr/lib/libc.so.97.0\n\n \t
\tlibrary\t/usr/share/relink/x/libm  /usr/lib/libm.so \n#";
    let index = index(rt.alloc(), text)?;
    let [libc, libm] = index.items() else {
        return Err("two libraries".into());
    };
    assert_eq!(rt; libc.dir.bytes(), b"/usr/share/relink/libc".as_slice());
    assert_eq!(rt; libc.output.bytes(), b"/usr/lib/libc.so.97.0".as_slice());
    assert_eq!(rt; libm.dir.bytes(), b"/usr/share/relink/x/libm".as_slice());
    assert_eq!(rt; libm.output.bytes(), b"/usr/lib/libm.so".as_slice());
    assert_eq!(rt; (libc.line, libm.line), (2, 5));
    Ok(())
}

#[test]
fn tells_forms(rt: HostRuntime) -> Result<(), Fail> {
    let alloc = rt.alloc();
    let line = 1;
    for (text, wanted) in [
        (
            b"library /usr/share/relink/a /usr/lib/a\r\n".as_slice(),
            KitFault::Byte { line },
        ),
        (b"# \x7f\nlibraries", KitFault::Byte { line }),
        (b"kind library\n", KitFault::Keyword { line }),
        (
            b"program /usr/share/relink/a /usr/bin/a\n",
            KitFault::Keyword { line },
        ),
        (b"library /usr/share/relink/a\n", KitFault::Count { line }),
        (b"library a /bsd c\n", KitFault::Count { line }),
        (
            b"library /usr/share/a /usr/lib/a\n",
            KitFault::Value { line },
        ),
        (
            b"library /usr/share/relink/ /usr/lib/a\n",
            KitFault::Value { line },
        ),
        (
            b"library /usr/share/relink/../a /usr/lib/a\n",
            KitFault::Value { line },
        ),
        (
            b"library usr/share/relink/a /bsd\n",
            KitFault::Value { line },
        ),
        (
            b"library /usr/share/relink/a usr/lib/a\n",
            KitFault::Value { line },
        ),
    ] {
        assert_eq!(rt; index_fault(alloc, text)?, wanted);
    }
    Ok(())
}

#[test]
fn tells_reserved_outputs(rt: HostRuntime) -> Result<(), Fail> {
    let alloc = rt.alloc();
    for output in [
        b"/usr/lib/linked\n".as_slice(),
        b"/bsd",
        b"/obsd",
        b"/usr/share/relink/a/b",
        b"/var/db/a",
        b"/usr/lib/a.relink",
        b"/usr/lib/a.map",
    ] {
        let text = line(alloc, b"a", output)?;
        assert_eq!(rt; index_fault(alloc, &text)?, KitFault::Reserved { line: 1 });
    }
    Ok(())
}

#[test]
fn tells_what_comes_again(rt: HostRuntime) -> Result<(), Fail> {
    let alloc = rt.alloc();
    for text in [
        b"library /usr/share/relink/a /usr/lib/a.so\nlibrary /usr/share/relink/b /usr/lib/a.so\n".as_slice(),
        b"library /usr/share/relink/a /usr/lib/a.so\nlibrary /usr/share/relink/a /usr/lib/b.so\n",
    ] {
        assert_eq!(rt; index_fault(alloc, text)?, KitFault::Twice { line: 2 });
    }
    let text = b"library /usr/share/relink/a /usr/lib/a.so\nlibrary /usr/share/relink/a /bsd\n";
    assert_eq!(rt; index_fault(alloc, text)?, KitFault::Reserved { line: 2 });
    Ok(())
}

#[test]
fn tells_that_nothing_is_said(rt: HostRuntime) -> Result<(), Fail> {
    let alloc = rt.alloc();
    let what = Needed::Library;
    for text in [b"".as_slice(), b"# None.\n\n# None yet."] {
        assert_eq!(rt; index_fault(alloc, text)?, KitFault::Missing { what });
    }
    Ok(())
}

// A folder's name of 127 bytes and an output's of 200, and one byte more.
#[test]
fn measures_names(rt: HostRuntime) -> Result<(), Fail> {
    let alloc = rt.alloc();
    let dir = vec![in alloc; b'a'; 109]?;
    let long_dir = vec![in alloc; b'a'; 110]?;
    let mut output = vec![in alloc; b'a'; 200]?;
    output[0] = b'/';
    let index = index(alloc, &line(alloc, &dir, &output)?)?;
    let [library] = index.items() else {
        return Err("one library".into());
    };
    assert_eq!(rt; library.dir.bytes().len(), 127);
    assert_eq!(rt; library.output.bytes().len(), 200);
    let long = line(alloc, &long_dir, &output)?;
    assert_eq!(rt; index_fault(alloc, &long)?, KitFault::Value { line: 1 });
    output.push(b'a')?;
    let long = line(alloc, &dir, &output)?;
    assert_eq!(rt; index_fault(alloc, &long)?, KitFault::Reserved { line: 1 });
    Ok(())
}

#[test]
fn counts_libraries(rt: HostRuntime) -> Result<(), Fail> {
    let alloc = rt.alloc();
    let mut text = Vec::new(alloc);
    for number in 0..64 {
        push_library(&mut text, number)?;
    }
    let full = index(alloc, &text)?;
    assert_eq!(rt; full.items().len(), 64);
    let mut again = Vec::from_slice(alloc, &text)?;
    push_library(&mut again, 63)?;
    assert_eq!(rt; index_fault(alloc, &again)?, KitFault::Twice { line: 65 });
    push_library(&mut text, 64)?;
    push_library(&mut text, 0)?;
    assert_eq!(rt; index_fault(alloc, &text)?, KitFault::Limit { line: 65 });
    Ok(())
}

/// The line of a library with a folder of this name.
fn line(alloc: Global, dir: &[u8], output: &[u8]) -> Result<Vec<u8>, Fail> {
    let mut text = Vec::new(alloc);
    text.extend_from_slice(b"library /usr/share/relink/")?;
    text.extend_from_slice(dir)?;
    text.push(b' ')?;
    text.extend_from_slice(output)?;
    Ok(text)
}

/// Adds the line of a library that is told from others by its number.
fn push_library(text: &mut Vec<u8>, number: u32) -> Result<(), Fail> {
    let mut buffer = Buffer::new();
    let digits = buffer.format(number).as_bytes();
    text.extend_from_slice(b"library /usr/share/relink/lib")?;
    text.extend_from_slice(digits)?;
    text.extend_from_slice(b" /usr/lib/lib")?;
    text.extend_from_slice(digits)?;
    text.extend_from_slice(b".so\n")?;
    Ok(())
}
