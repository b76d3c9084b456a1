use crate::kits::{KIT, kit_store, object, told};
use kl_base::KIT_TEXT_LIMIT;
use kl_jobs::{Cause, KitCause};
use kl_kit::{KitError, KitFault, Needed, read_kit};
use kl_mem::MemStore;
use std::alloc::Global;
use std::test::Fail;

/// The first fault of a text, as a cause.
fn cause_of(alloc: Global, text: &[u8]) -> Result<Cause, Fail> {
    if text.len() as u64 > KIT_TEXT_LIMIT {
        return Err("a text past the limit".into());
    }
    match read_kit(alloc, text) {
        Ok(_) => Err("a fault".into()),
        Err(KitError::Fault(fault)) => Ok(Cause::Kit(KitCause::Text(fault))),
        Err(KitError::NoMemory) => Err("memory".into()),
    }
}

/// What is told of the first fault of a kit text.
fn told_of_text(alloc: Global, text: &[u8]) -> Result<String, Fail> {
    let mut store = kit_store(alloc, text, &object(alloc)?)?;
    told(alloc, &cause_of(alloc, text)?, &mut store)
}

/// What is told of the text, behind its name.
fn text_part(text: &str) -> Option<&str> {
    text.strip_prefix("relink: /kit/link.conf: ")?
        .strip_suffix("\n")
}

#[test]
fn tells_bytes_and_directives(rt: HostRuntime) -> Result<(), Fail> {
    let alloc = rt.alloc();
    let rows: [(&[u8], &str); 8] = [
        (
            b"kind kernel\r\noutput /bsd\r\n",
            "line 1: it ends with CR LF: end each line with a newline (0a) alone",
        ),
        (
            b"kind kernel\r",
            "line 1: the byte 0x0d stands in it, and only printable characters of ASCII, spaces and tabs are read",
        ),
        (
            b"\xef\xbb\xbfkind kernel\n",
            "line 1: a byte order mark (ef bb bf) stands in it: save the text without one",
        ),
        (
            b"kind kernel\n# K\xc3\xbcche\n",
            "line 2: the byte 0xc3 stands in it, and only printable characters of ASCII, spaces and tabs are read",
        ),
        (
            b"kind kernel\n\nobjct l.o\n",
            "line 3: no such directive 'objct'",
        ),
        (b"Kind kernel\n", "line 1: no such directive 'Kind'"),
        (
            b"\tlibrary /kit /usr/lib/libc.so\n",
            "line 1: no such directive 'library'",
        ),
        (
            b"kind kernel\n\\ /bsd\n",
            "line 2: no such directive '\\x5c'",
        ),
    ];
    for (text, wanted) in rows {
        assert_eq!(rt; text_part(&told_of_text(alloc, text)?), Some(wanted));
    }
    Ok(())
}

#[test]
fn tells_places_and_counts(rt: HostRuntime) -> Result<(), Fail> {
    let alloc = rt.alloc();
    let rows: [(&[u8], &str); 9] = [
        (
            b"# mine\noutput /bsd\nkind kernel\n",
            "line 2: a kit begins with 'kind kernel' or 'kind library', and not with 'output'",
        ),
        (
            b"# mine\nkind kernel\n\nkind kernel\n",
            "line 4: 'kind' comes once, and stands in line 2 already",
        ),
        (
            b"kind kernel\nsoname libk.so\n",
            "line 2: 'soname' is a line of a library's kit, and this is a kernel's",
        ),
        (
            b"kind library\nbase 0x1000\n",
            "line 2: 'base' is a line of a kernel's kit, and this is a library's",
        ),
        (
            b"kind\n",
            "line 1: 'kind kernel|library' is wanted, and a word is missing",
        ),
        (
            b"kind kernel\nhead k.o l.o\n",
            "line 2: 'head FILE' is wanted, and 'l.o' is a word too many",
        ),
        (
            b"kind kernel\noutput /bsd   # mine\n",
            "line 2: 'output NAME' is wanted, and a comment stands in a line of its own",
        ),
        (
            b"kind kernel\nrun .text.init text __init_start\n",
            "line 2: 'run SECTION CLASS START END' is wanted, and a word is missing",
        ),
        (
            b"kind library\nsymbolic yes\n",
            "line 2: 'symbolic' is wanted, and 'yes' is a word too many",
        ),
    ];
    for (text, wanted) in rows {
        assert_eq!(rt; text_part(&told_of_text(alloc, text)?), Some(wanted));
    }
    Ok(())
}

#[test]
fn tells_words_that_are_no_file(rt: HostRuntime) -> Result<(), Fail> {
    let alloc = rt.alloc();
    let rows: [(&[u8], &str); 7] = [
        (
            b"kind kernel\nhead link.conf\n",
            "line 2: the file 'link.conf' is the kit text itself",
        ),
        (
            b"kind kernel\nobject a.relink\n",
            "line 2: the file 'a.relink' ends in .relink, as only files that relink writes do",
        ),
        (
            b"kind kernel\ntail /k.o\n",
            "line 2: the file '/k.o' begins with a slash: it is named below the kit's folder, as in 'head kernel.o'",
        ),
        (
            b"kind kernel\nhead ../k.o\n",
            "line 2: the file '../k.o' has a part '.' or '..': name it without",
        ),
        (
            b"kind kernel\nhead obj//k.o\n",
            "line 2: the file 'obj//k.o' has two slashes together",
        ),
        (
            b"kind kernel\nhead obj/\n",
            "line 2: the file 'obj/' ends with a slash: leave it out",
        ),
        (
            b"kind kernel\nhead aaaaaaaaaaaaaaaaaaaaaaaaaaaaaaaaaaaaaaaaaaaaaaaaaaaaaaaaaaaaaaaaaaaaaaaaaaaaaaaaaaaaaaaaaaaaaaaaaaaaaaaaaaaaaaaaaaaaaaaaaaaaaaaa\n",
            "line 2: the file 'aaaaaaaaaaaaaaaaaaaaaaaaaaaaaaaaaaaaaaaaaaaaaaaaaaaaaaaaaaaaaaaaaaaaaaaaaaaaaaaaaaaaaaaaaaaaaaaaaaaaaaaaaaaaaaaaaaaaaaaaaaaaaaaa' has 128 bytes, and at most 127 are taken",
        ),
    ];
    for (text, wanted) in rows {
        assert_eq!(rt; text_part(&told_of_text(alloc, text)?), Some(wanted));
    }
    Ok(())
}

#[test]
fn tells_other_words(rt: HostRuntime) -> Result<(), Fail> {
    let alloc = rt.alloc();
    let rows: [(&[u8], &str); 16] = [
        (
            b"kind program\n",
            "line 1: 'program' is no kind of kit: 'kind kernel' or 'kind library' is wanted",
        ),
        (
            b"kind kernel\noutput /bsd.new\n",
            "line 2: the output of a kernel is '/bsd', and not '/bsd.new'",
        ),
        (
            b"kind library\noutput libk.so\n",
            "line 2: the output 'libk.so' doesn't begin with a slash, as in '/usr/lib/libc.so.1'",
        ),
        (
            b"kind library\noutput /usr/./libk.so\n",
            "line 2: the output '/usr/./libk.so' has a part '.' or '..': name it without",
        ),
        (
            b"kind kernel\nbase 81000000\n",
            "line 2: the base '81000000' doesn't begin with 0x, as in 'base 0xffffffff81000000'",
        ),
        (
            b"kind kernel\nbase 0x00000000000001000\n",
            "line 2: the base '0x00000000000001000' has 17 digits behind 0x, and 1 to 16 are taken",
        ),
        (
            b"kind kernel\nbase 0x81_000000\n",
            "line 2: the base '0x81_000000' has a byte that is no hexadecimal digit",
        ),
        (
            b"kind kernel\nbase 0x81000800\n",
            "line 2: the base '0x81000800' is no multiple of 4096 (0x1000)",
        ),
        (
            b"kind kernel\nbase 0xffffffffe0001000\n",
            "line 2: the base '0xffffffffe0001000' is above 0xffffffffe0000000",
        ),
        (
            b"kind kernel\nrun .init.text code a b\n",
            "line 2: 'code' is no class: 'text', 'rodata', 'data' or 'bss' is wanted",
        ),
        (
            b"kind kernel\nedge etext code end\n",
            "line 2: 'code' is no area: one of these is wanted: text rodata data bss init fini eh_frame ctors dtors init_array fini_array got dynamic",
        ),
        (
            b"kind kernel\nedge etext text stop\n",
            "line 2: 'start' or 'end' is wanted, and not 'stop'",
        ),
        (
            b"kind library\nundefined warn\n",
            "line 2: 'undefined refuse' or 'undefined allow' is wanted, and not 'warn'",
        ),
        (
            b"kind library\noutput /var/db/libk.so\n",
            "line 2: the output '/var/db/libk.so' is kept for other files, as each name that begins with '/var/db/'",
        ),
        (
            b"kind library\noutput /usr/lib/libk.so.relink\n",
            "line 2: the output '/usr/lib/libk.so.relink' is kept for other files, as each name that ends in '.relink'",
        ),
        (
            b"kind library\noutput /obsd\n",
            "line 2: the output '/obsd' is kept for other files",
        ),
    ];
    for (text, wanted) in rows {
        assert_eq!(rt; text_part(&told_of_text(alloc, text)?), Some(wanted));
    }
    Ok(())
}

#[test]
fn tells_words_that_are_too_long(rt: HostRuntime) -> Result<(), Fail> {
    let alloc = rt.alloc();
    // each word of 256 bytes is shown by the first 200
    let rows: [(&[u8], &[u8], &str); 7] = [
        (b"kind kernel\nentry ", b"\n", "the symbol"),
        (b"kind kernel\ndrop ", b"\n", "the name"),
        (b"kind kernel\nrun ", b" text a b\n", "the name"),
        (b"kind kernel\nrun .x text ", b" b\n", "the symbol"),
        (b"kind kernel\nrun .x text a ", b"\n", "the symbol"),
        (b"kind kernel\nedge ", b" text end\n", "the symbol"),
        (b"kind library\nneeded ", b"\n", "the name"),
    ];
    let word = vec![in alloc; b'a'; 256]?;
    for (before, behind, what) in rows {
        let mut text = Vec::from_slice(alloc, before)?;
        text.extend_from_slice(&word)?;
        text.extend_from_slice(behind)?;
        let told = told_of_text(alloc, &text)?;
        let part = text_part(&told).ok_or("a line of the text")?;
        let rest = part
            .strip_prefix("line 2: ")
            .and_then(|rest| rest.strip_prefix(what));
        assert_eq!(rt;
            rest,
            Some(
                " 'aaaaaaaaaaaaaaaaaaaaaaaaaaaaaaaaaaaaaaaaaaaaaaaaaaaaaaaaaaaaaaaaaaaaaaaaaaaaaaaaaaaaaaaaaaaaaaaaaaaaaaaaaaaaaaaaaaaaaaaaaaaaaaaaaaaaaaaaaaaaaaaaaaaaaaaaaaaaaaaaaaaaaaaaaaaaaaaaaaaaaaaaaaaaaaaaaaaaaaaa...' has 256 bytes, and at most 255 are taken"
            )
        );
    }
    Ok(())
}

#[test]
fn tells_what_comes_again(rt: HostRuntime) -> Result<(), Fail> {
    let alloc = rt.alloc();
    let rows: [(&[u8], &str); 9] = [
        (
            b"kind kernel\n# once\noutput /bsd\noutput /bsd\n",
            "line 4: 'output' comes once, and stands in line 3 already",
        ),
        (
            b"kind kernel\nhead k.o\nobject l.o\ntail k.o\n",
            "line 4: the file 'k.o' is the input of line 2 already",
        ),
        (
            b"kind kernel\nrun .x text a b\nrun .x data c d\nrun .x text e f\n",
            "line 4: line 2 has a run of section '.x' and class 'text' already",
        ),
        (
            b"kind kernel\nrun .x text a a\n",
            "line 2: the START and the END are both 'a'",
        ),
        (
            b"kind kernel\nedge etext text end\nrun .x text a etext\n",
            "line 3: line 2 gives the symbol 'etext' already",
        ),
        (
            b"kind kernel\nrun .x text a b\nedge b data end\n",
            "line 3: line 2 gives the symbol 'b' already",
        ),
        (
            b"kind kernel\ndrop .x\ndrop .y\ndrop .x\n",
            "line 4: 'drop .x' stands in line 2 already",
        ),
        (
            b"kind library\nexport f\nneeded f\nexport f\n",
            "line 4: 'export f' stands in line 2 already",
        ),
        (
            b"kind library\nsymbolic\nsymbolic\n",
            "line 3: 'symbolic' comes once, and stands in line 2 already",
        ),
    ];
    for (text, wanted) in rows {
        assert_eq!(rt; text_part(&told_of_text(alloc, text)?), Some(wanted));
    }
    Ok(())
}

#[test]
fn tells_what_is_missing(rt: HostRuntime) -> Result<(), Fail> {
    let alloc = rt.alloc();
    let rows: [(&[u8], &str); 4] = [
        (
            b"# a kit\n\n",
            "the line 'kind kernel' or 'kind library' is missing",
        ),
        (
            b"kind kernel\nentry start\nhead k.o\n",
            "the line 'output NAME', which is 'output /bsd' for a kernel, is missing",
        ),
        (
            b"kind kernel\noutput /bsd\nhead k.o\n",
            "the line 'entry SYMBOL' is missing",
        ),
        (
            b"kind kernel\noutput /bsd\nentry start\n",
            "a line 'head FILE', 'object FILE' or 'tail FILE' is missing",
        ),
    ];
    for (text, wanted) in rows {
        assert_eq!(rt; text_part(&told_of_text(alloc, text)?), Some(wanted));
    }
    Ok(())
}

#[test]
fn tells_faults_of_another_text(rt: HostRuntime) -> Result<(), Fail> {
    let alloc = rt.alloc();
    let mut store = kit_store(alloc, KIT, &object(alloc)?)?;
    let limit = Cause::Kit(KitCause::Text(KitFault::Limit { line: 4 }));
    assert_eq!(rt;
        text_part(&told(alloc, &limit, &mut store)?),
        Some("line 4: a kit has at most 16384 inputs, and this is one more")
    );
    let keyword = Cause::Kit(KitCause::Text(KitFault::Keyword { line: 9 }));
    assert_eq!(rt;
        text_part(&told(alloc, &keyword, &mut store)?),
        Some("line 9: no line begins with this word")
    );
    let kind = Cause::Kit(KitCause::Text(KitFault::Missing { what: Needed::Kind }));
    assert_eq!(rt;
        told(alloc, &kind, &mut MemStore::new(alloc))?.as_str(),
        "relink: no line 'kind'\n"
    );
    Ok(())
}
