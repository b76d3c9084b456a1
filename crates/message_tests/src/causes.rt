use crate::kits::{KIT, kit_store, object, told, told_of_words, words_of};
use kl_base::{Listed, Name};
use kl_elf::HeadFault;
use kl_jobs::{Cause, KitCause, ObjectCause, TotalOf};
use kl_mem::MemStore;
use kl_messages::{Ended, message};
use kl_model::{FieldAt, LinkFault, NameText};
use kl_rel::{Feature, ReadFault, ReadKind};
use std::alloc::Global;
use std::test::Fail;

/// What is told of a cause of the kit.
fn told_of(alloc: Global, cause: &Cause) -> Result<String, Fail> {
    let mut store = kit_store(alloc, KIT, &object(alloc)?)?;
    told(alloc, cause, &mut store)
}

fn flaw(kind: ReadKind, at: u64) -> Cause {
    Cause::Object {
        input: 0,
        line: 4,
        fault: ObjectCause::Elf(ReadFault { kind, at }),
    }
}

fn named(alloc: Global, name: &[u8]) -> Result<NameText, Fail> {
    Ok(Listed::from_vec(Vec::from_slice(alloc, name)?))
}

/// A relocation of the object.
fn entry(index: u32) -> FieldAt {
    FieldAt {
        input: 0,
        section: 2,
        index,
    }
}

#[test]
fn tells_words(rt: HostRuntime) -> Result<(), Fail> {
    let alloc = rt.alloc();
    let rows: [(&[u8], &str); 20] = [
        (
            b"",
            "no command is given: 'relink link /kit' links the kit in the folder kit\n",
        ),
        (
            b"lnk|/kit",
            "no such command 'lnk': 'relink link /kit' links the kit in the folder kit\n",
        ),
        (
            b"generate",
            "'generate' needs a number of objects, as in 'relink generate 200'\n",
        ),
        (
            b"generate|4097",
            "the number '4097' isn't taken: 'generate' makes 1 to 4096 objects, and a number has no leading zero\n",
        ),
        (
            b"generate|01|--seed|0000000000000000000000000000000000000000000000000000000000000000",
            "the number '01' isn't taken: 'generate' makes 1 to 4096 objects, and a number has no leading zero\n",
        ),
        (
            b"generate|9|now",
            "the word 'now' is one too many: 'generate' takes one number, and '--seed HEX' behind it\n",
        ),
        (
            b"reorder_libs",
            "the command 'reorder_libs' isn't there yet: 'link', 'reorder_kernel', 'recover' and 'generate' are the only ones so far\n\
             relink: it works on the files below the folder in which it is started, /somewhere: start it in /\n",
        ),
        (
            b"link",
            "'link' needs the folder of a kit, as in 'relink link /kit'\n",
        ),
        (b"link|", "the folder's name '' is empty\n"),
        (
            b"link|/aaaaaaaaaaaaaaaaaaaaaaaaaaaaaaaaaaaaaaaaaaaaaaaaaaaaaaaaaaaaaaaaaaaaaaaaaaaaaaaaaaaaaaaaaaaaaaaaaaaaaaaaaaaaaaaaaaaaaaaaaaaaaaa",
            "the folder's name '/aaaaaaaaaaaaaaaaaaaaaaaaaaaaaaaaaaaaaaaaaaaaaaaaaaaaaaaaaaaaaaaaaaaaaaaaaaaaaaaaaaaaaaaaaaaaaaaaaaaaaaaaaaaaaaaaaaaaaaaaaaaaaaa' has 128 bytes, and at most 127 are taken\n",
        ),
        (
            b"link|kit",
            "the folder's name 'kit' doesn't begin with a slash, as in '/kit' for the folder kit\n",
        ),
        (
            b"link|/kit/",
            "the folder's name '/kit/' ends with a slash: leave it out\n",
        ),
        (
            b"link|/a//b",
            "the folder's name '/a//b' has two slashes together\n",
        ),
        (
            b"link|/a/../b",
            "the folder's name '/a/../b' has a part '.' or '..': name it without\n",
        ),
        (
            b"link|/a b",
            "the folder's name '/a b' has a byte that is no printable character of ASCII, or is a space\n",
        ),
        (
            b"link|/kit|/kit",
            "the word '/kit' is one too many: 'link' takes one folder, and '--seed HEX' behind it\n",
        ),
        (
            b"link|/kit|--seed",
            "'--seed' needs a seed of 64 hexadecimal digits behind it\n",
        ),
        (
            b"link|/kit|--seed|00ff",
            "the seed '00ff' has 4 digits, not 64\n",
        ),
        (
            b"link|/kit|--seed|gggggggggggggggggggggggggggggggggggggggggggggggggggggggggggggggg",
            "the seed 'gggggggggggggggggggggggggggggggggggggggggggggggggggggggggggggggg' has a byte that is no hexadecimal digit\n",
        ),
        (
            b"link|kit|--seed|0000000000000000000000000000000000000000000000000000000000000000",
            "the folder's name 'kit' doesn't begin with a slash, as in '/kit' for the folder kit\n",
        ),
    ];
    for (line, wanted) in rows {
        let text = told_of_line(alloc, line)?;
        assert_eq!(rt; text.strip_prefix("relink: "), Some(wanted));
    }
    Ok(())
}

/// What is told of words that are no command, which bars part.
fn told_of_line(alloc: Global, line: &[u8]) -> Result<String, Fail> {
    let words = words_of(alloc, line)?;
    told_of_words(alloc, &words, &Cause::Usage, &mut MemStore::new(alloc))
}

#[test]
fn tells_what_has_no_kit(rt: HostRuntime) -> Result<(), Fail> {
    let alloc = rt.alloc();
    assert_eq!(rt; told_of(alloc, &Cause::Done)?.as_str(), "");
    assert_eq!(rt;
        told_of(alloc, &Cause::NoMemory)?.as_str(),
        "relink: out of memory\n"
    );
    assert_eq!(rt;
        told_of(alloc, &Cause::Entropy)?.as_str(),
        "relink: no random bytes could be read for a seed: '--seed HEX' gives one\n"
    );
    assert_eq!(rt;
        told_of(alloc, &Cause::Store)?.as_str(),
        "relink: a call on the disk failed\n"
    );
    let ended = Ended {
        words: None,
        cause: &Cause::Usage,
        folder: None,
        failure: None,
    };
    let text = message(alloc, &ended, &mut MemStore::new(alloc))?;
    assert_eq!(rt; text.as_str(), "relink: a word isn't UTF-8\n");
    let ended = Ended {
        words: None,
        cause: &Cause::Store,
        folder: None,
        failure: Some("kit/k.o: Permission denied (os error 13)"),
    };
    let text = message(alloc, &ended, &mut MemStore::new(alloc))?;
    assert_eq!(rt; text.as_str(), "relink: kit/k.o: Permission denied\n");
    Ok(())
}

#[test]
fn tells_kits(rt: HostRuntime) -> Result<(), Fail> {
    let alloc = rt.alloc();
    let text = Name::from_bytes(b"/kit/link.conf")?;
    let file = Name::from_bytes(b"/kit/k.o")?;
    let total = |what| KitCause::Total { what, line: 4 };
    let rows = [
        (
            KitCause::Absent(file),
            "/kit/k.o: no such file\nrelink: names are taken below the folder in which it is started: /somewhere\n",
        ),
        (
            KitCause::TooLong(text),
            "/kit/link.conf: it has more than 4194304 bytes\n",
        ),
        (
            KitCause::TooLong(file),
            "/kit/k.o: it has more than 67108864 bytes\n",
        ),
        (
            total(TotalOf::Inputs),
            "/kit/link.conf: line 4: with this input the kit has more than 16384 inputs\n",
        ),
        (
            total(TotalOf::Bytes),
            "/kit/link.conf: line 4: with this input the kit has more than 268435456 bytes of inputs\n",
        ),
        (
            total(TotalOf::Sections),
            "/kit/link.conf: line 4: with this input the kit has more than 1048576 sections\n",
        ),
        (
            total(TotalOf::Symbols),
            "/kit/link.conf: line 4: with this input the kit has more than 4194304 symbols\n",
        ),
        (
            total(TotalOf::Fields),
            "/kit/link.conf: line 4: with this input the kit has more than 8388608 relocations\n",
        ),
    ];
    for (cause, wanted) in rows {
        let text = told_of(alloc, &Cause::Kit(cause))?;
        assert_eq!(rt; text.strip_prefix("relink: "), Some(wanted));
    }
    Ok(())
}

#[test]
fn tells_flaws_of_the_header(rt: HostRuntime) -> Result<(), Fail> {
    let alloc = rt.alloc();
    let rows = [
        (
            HeadFault::Magic,
            "not an ELF file: it doesn't begin with the byte 7f and ELF",
        ),
        (
            HeadFault::IdentClass,
            "not an ELF64 object: was it made with -m32?",
        ),
        (HeadFault::IdentOrder, "not a little-endian object"),
        (
            HeadFault::IdentVersion,
            "not of ELF version 1, by its ident",
        ),
        (HeadFault::FileType, "not a relocatable object (type 1)"),
        (HeadFault::Machine, "not an x86-64 object (machine 62)"),
        (HeadFault::FileVersion, "not of ELF version 1"),
        (
            HeadFault::HeadSize,
            "the size of its ELF header isn't 64 bytes",
        ),
        (
            HeadFault::SectionSize,
            "the size of its section headers isn't 64 bytes",
        ),
    ];
    for (fault, wanted) in rows {
        let text = told_of(alloc, &flaw(ReadKind::Head(fault), 0))?;
        assert_eq!(rt; told_part(&text), Some(wanted));
    }
    let mut store = kit_store(alloc, KIT, b"no object")?;
    let text = told(
        alloc,
        &flaw(ReadKind::Head(HeadFault::Truncated), 9),
        &mut store,
    )?;
    assert_eq!(rt;
        told_part(&text),
        Some("no object: it has 9 bytes, and an ELF header alone has 64")
    );
    Ok(())
}

/// What is told of the object.
fn told_part(text: &str) -> Option<&str> {
    text.strip_prefix("relink: /kit/k.o: ")?.strip_suffix("\n")
}

#[test]
fn tells_flaws_of_sections(rt: HostRuntime) -> Result<(), Fail> {
    let alloc = rt.alloc();
    let rows = [
        (
            ReadKind::Unsupported(Feature::Extended),
            60,
            "extended numbering of sections isn't supported (e_shnum 7)",
        ),
        (
            ReadKind::SectionTable,
            60,
            "it has no section headers (e_shnum 7)",
        ),
        (
            ReadKind::SectionTable,
            40,
            "its section headers pass the end of the file, which may be cut short (e_shoff 408)",
        ),
        (
            ReadKind::SectionTable,
            62,
            "it has no string table of section names (e_shstrndx 6)",
        ),
        (
            ReadKind::SectionRange,
            496,
            "section 1 .text: its bytes pass the end of the file, which may be cut short (sh_offset 0x40)",
        ),
        (
            ReadKind::SectionRange,
            504,
            "section 1 .text: it has more than 2^30 bytes (sh_size 0x1a)",
        ),
        (
            ReadKind::NameRange,
            472,
            "section 1 .text: its name isn't ended in the string table",
        ),
        (
            ReadKind::Unsupported(Feature::Tls),
            480,
            "section 1 .text: storage of threads (TLS) isn't supported (sh_flags 0x6)",
        ),
        (
            ReadKind::Unsupported(Feature::Compressed),
            480,
            "section 1 .text: a compressed allocated section isn't supported (sh_flags 0x6)",
        ),
        (
            ReadKind::Unsupported(Feature::WriteExecute),
            480,
            "section 1 .text: a section that can be both written and executed isn't supported (sh_flags 0x6)",
        ),
        (
            ReadKind::Unsupported(Feature::SectionType),
            476,
            "section 1 .text: an allocated section of this type isn't supported (sh_type 0x1)",
        ),
        (
            ReadKind::Unsupported(Feature::Priority),
            472,
            "section 1 .text: constructors and destructors with a priority aren't supported",
        ),
        (
            ReadKind::Align,
            520,
            "section 1 .text: its alignment is no power of two up to 2^21 (sh_addralign 0x1)",
        ),
        (
            ReadKind::SymbolTable,
            668,
            "section 4 .symtab: it is a second symbol table (sh_type 0x2)",
        ),
        (
            ReadKind::SymbolTable,
            696,
            "section 4 .symtab: its size is 0 or no multiple of 24 (sh_size 0xa8)",
        ),
        (
            ReadKind::SymbolTable,
            720,
            "section 4 .symtab: its entries aren't of 24 bytes (sh_entsize 0x18)",
        ),
        (
            ReadKind::SymbolTable,
            704,
            "section 4 .symtab: it has no string table (sh_link 0x5)",
        ),
        (
            ReadKind::SymbolTable,
            708,
            "section 4 .symtab: its first symbol that isn't LOCAL is none of it (sh_info 0x5)",
        ),
        (
            ReadKind::RelaLink,
            580,
            "section 2 .rela.text: the section that it relocates is none, or has no bytes (sh_info 0x1)",
        ),
        (
            ReadKind::RelaLink,
            576,
            "section 2 .rela.text: it isn't linked to the symbol table (sh_link 0x4)",
        ),
        (
            ReadKind::RelaLink,
            592,
            "section 2 .rela.text: its entries aren't of 24 bytes (sh_entsize 0x18)",
        ),
        (
            ReadKind::RelaLink,
            568,
            "section 2 .rela.text: its size is no multiple of 24 (sh_size 0x48)",
        ),
        (
            ReadKind::RelaKindForm,
            540,
            "section 2 .rela.text: relocations without addends (SHT_REL) aren't read (sh_type 0x4)",
        ),
        (
            ReadKind::GroupForm,
            632,
            "section 3 .debug_x: a section group of no whole number of words (sh_size 0x1)",
        ),
        (
            ReadKind::GroupForm,
            640,
            "section 3 .debug_x: a section group that isn't linked to the symbol table (sh_link 0x0)",
        ),
        (
            ReadKind::GroupForm,
            644,
            "section 3 .debug_x: a section group whose signature is no symbol (sh_info 0x0)",
        ),
        (
            ReadKind::GroupForm,
            90,
            "a section group is damaged (byte 0x5a of the file)",
        ),
    ];
    for (kind, at, wanted) in rows {
        let text = told_of(alloc, &flaw(kind, at))?;
        assert_eq!(rt; told_part(&text), Some(wanted));
    }
    Ok(())
}

#[test]
fn tells_flaws_of_symbols(rt: HostRuntime) -> Result<(), Fail> {
    let alloc = rt.alloc();
    let rows = [
        (
            ReadKind::NameRange,
            216,
            "symbol 5 'start': its name is empty, or isn't ended in the string table",
        ),
        (
            ReadKind::SymbolTable,
            220,
            "symbol 5 'start': it is LOCAL behind one that isn't, or stands among the LOCAL ones and isn't (st_info 0x10)",
        ),
        (
            ReadKind::Unsupported(Feature::Binding),
            220,
            "symbol 5 'start': a binding that is none of LOCAL, GLOBAL and WEAK isn't supported; g++ -fno-gnu-unique writes no GNU_UNIQUE (st_info 0x10)",
        ),
        (
            ReadKind::Unsupported(Feature::Ifunc),
            220,
            "symbol 5 'start': a symbol of the type GNU_IFUNC isn't supported (st_info 0x10)",
        ),
        (
            ReadKind::Unsupported(Feature::SymbolType),
            220,
            "symbol 5 'start': a symbol of this type isn't supported (st_info 0x10)",
        ),
        (
            ReadKind::SymbolSection,
            222,
            "symbol 5 'start': its section is none of the file, or it is LOCAL and has none (st_shndx 0x1)",
        ),
        (
            ReadKind::SymbolSection,
            224,
            "symbol 5 'start': its value is above 2^30 (st_value 0x0)",
        ),
        (
            ReadKind::SymbolSection,
            232,
            "symbol 5 'start': its size is above 2^30 (st_size 0x0)",
        ),
        (
            ReadKind::Align,
            224,
            "symbol 5 'start': the alignment of a common symbol is no power of two up to 2^21 (st_value 0x0)",
        ),
        (
            ReadKind::RelaLink,
            296,
            "section 2 .rela.text, entry 0: its symbol is none of the table (R_X86_64_PLT32 at 0x1 of section .text)",
        ),
        (
            ReadKind::RelaPlace,
            288,
            "section 2 .rela.text, entry 0: a relocated field passes the end of its section (R_X86_64_PLT32 at 0x1 of section .text)",
        ),
        (
            ReadKind::FieldOverlap,
            312,
            "section 2 .rela.text, entry 1: a relocated field shares a byte with an earlier one (R_X86_64_64 at 0xa of section .text)",
        ),
    ];
    for (kind, at, wanted) in rows {
        let text = told_of(alloc, &flaw(kind, at))?;
        assert_eq!(rt; told_part(&text), Some(wanted));
    }
    Ok(())
}

/// What is told of a fault of a link.
fn told_fault(alloc: Global, fault: LinkFault) -> Result<String, Fail> {
    told_of(alloc, &Cause::Link(fault))
}

#[test]
fn tells_names_that_do_not_link(rt: HostRuntime) -> Result<(), Fail> {
    let alloc = rt.alloc();
    let fault = LinkFault::Undefined {
        name: named(alloc, b"panic")?,
        from: entry(0),
    };
    assert_eq!(rt;
        told_fault(alloc, fault)?.as_str(),
        "relink: undefined symbol 'panic', referenced by /kit/k.o, section .text, offset 0x1\n"
    );
    let fault = LinkFault::Doubled {
        name: named(alloc, b"start")?,
        first: (0, 3),
        second: (0, 5),
    };
    assert_eq!(rt;
        told_fault(alloc, fault)?.as_str(),
        "relink: 'start' is defined twice: by /kit/k.o, section .text, offset 0x12 (symbol 3) and by /kit/k.o, section .text, offset 0x0 (symbol 5)\n"
    );
    let fault = LinkFault::NoEntry {
        name: named(alloc, b"a\x1bb\\")?,
    };
    assert_eq!(rt;
        told_fault(alloc, fault)?.as_str(),
        "relink: /kit/link.conf: no object of the kit defines the entry 'a\\x1bb\\x5c' as a GLOBAL or WEAK symbol\n"
    );
    Ok(())
}

#[test]
fn tells_fields_that_do_not_link(rt: HostRuntime) -> Result<(), Fail> {
    let alloc = rt.alloc();
    let rows = [
        (
            LinkFault::Kind {
                from: entry(0),
                number: 4,
            },
            "relink: /kit/k.o: section .text: R_X86_64_PLT32 at 0x1 against 'panic' isn't of a type that is linked\n",
        ),
        (
            LinkFault::NotFixed { from: entry(1) },
            "relink: /kit/k.o: section .text: R_X86_64_64 at 0xa against '.text' depends on where the library is loaded: compile it with -fPIC\n",
        ),
        (
            LinkFault::ReadOnlyField { from: entry(1) },
            "relink: /kit/k.o: section .text: R_X86_64_64 at 0xa against '.text' has to be written by the loader, in memory that is only read: compile it with -fPIC\n",
        ),
        (
            LinkFault::Removed { from: entry(2) },
            "relink: /kit/k.o: section .text: R_X86_64_PC32 at 0x6 against '.debug_x' leads to a section that isn't linked\n",
        ),
        (
            LinkFault::Range {
                from: entry(0),
                s: 0x1_0000_0000,
                a: -4,
                p: 0x1000,
            },
            "relink: /kit/k.o: section .text: R_X86_64_PLT32 at 0x1 against 'panic' is out of range: S + A - P, 0xffffeffc with S 0x100000000, A -4, P 0x1000, is no number of 32 bits with a sign\n",
        ),
        (
            LinkFault::Span {
                found: 536_870_913,
                limit: 536_870_912,
            },
            "relink: /kit/link.conf: the image would span 536870913 bytes of memory, and at most 536870912 are linked\n",
        ),
        (LinkFault::NoMemory, "relink: out of memory\n"),
    ];
    for (fault, wanted) in rows {
        assert_eq!(rt; told_fault(alloc, fault)?.as_str(), wanted);
    }
    Ok(())
}

#[test]
fn tells_numbers_where_files_are_gone(rt: HostRuntime) -> Result<(), Fail> {
    let alloc = rt.alloc();
    let machine = flaw(ReadKind::Head(HeadFault::Machine), 18);
    let text = told(alloc, &machine, &mut MemStore::new(alloc))?;
    assert_eq!(rt;
        text.as_str(),
        "relink: the object of line 4: not an x86-64 object (byte 0x12 of the file)\n"
    );
    let mut store = MemStore::new(alloc);
    store.put(&Name::from_bytes(b"/kit/link.conf")?, KIT)?;
    let text = told(alloc, &machine, &mut store)?;
    assert_eq!(rt;
        text.as_str(),
        "relink: /kit/link.conf: line 4: not an x86-64 object (byte 0x12 of the file)\n"
    );
    let removed = Cause::Link(LinkFault::Removed { from: entry(2) });
    let text = told(alloc, &removed, &mut store)?;
    assert_eq!(rt;
        text.as_str(),
        "relink: relocation 2 of section 2 of input 0 leads to a section that isn't linked\n"
    );
    Ok(())
}
