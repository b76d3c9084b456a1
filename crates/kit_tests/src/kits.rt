// Kits that texts say.
use crate::texts::kit;
use kl_base::Class;
use kl_model::{KitKind, Part};
use std::test::Fail;

const KERNEL: &[u8] =
    b"# A kernel.\n\n\tkind  kernel \noutput /bsd\nbase 0xFFFFffff82000000\nentry start
head locore.o\nobject a.o\nobject sub/b.o\ntail end.o\nrun .cold text cold_start cold_end\nrun .cold data c d
edge etext text end\nedge _edata data end\nedge __got got start\ndrop .comment\ndrop .note.x";

#[test]
fn reads_a_kernel(rt: HostRuntime) -> Result<(), Fail> {
    let kit = kit(rt.alloc(), KERNEL)?;
    assert_eq!(rt; kit.kind, KitKind::Kernel);
    assert_eq!(rt; kit.output.bytes(), b"/bsd".as_slice());
    assert_eq!(rt; kit.base, 0xffff_ffff_8200_0000);
    assert_eq!(rt;
        kit.entry.as_ref().ok_or("entry")?.items(),
        b"start".as_slice()
    );
    let [head, a, b, tail] = kit.inputs.items() else {
        return Err("four inputs".into());
    };
    assert_eq!(rt; (head.place, head.line), (Part::Head, 7));
    assert_eq!(rt; head.file.items(), b"locore.o".as_slice());
    assert_eq!(rt; (a.place, a.line), (Part::Drawn, 8));
    assert_eq!(rt; b.file.items(), b"sub/b.o".as_slice());
    assert_eq!(rt; (tail.place, tail.line), (Part::Tail, 10));
    Ok(())
}

#[test]
fn reads_runs_and_edges(rt: HostRuntime) -> Result<(), Fail> {
    let kit = kit(rt.alloc(), KERNEL)?;
    let [text, data] = kit.runs.items() else {
        return Err("two runs".into());
    };
    assert_eq!(rt; text.section.items(), b".cold".as_slice());
    assert_eq!(rt; (text.class, text.line), (Class::Text, 11));
    assert_eq!(rt; text.start.items(), b"cold_start".as_slice());
    assert_eq!(rt; text.end.items(), b"cold_end".as_slice());
    assert_eq!(rt; (data.class, data.line), (Class::Rwdata, 12));
    let [etext, edata, got] = kit.edges.items() else {
        return Err("three edges".into());
    };
    assert_eq!(rt; etext.symbol.items(), b"etext".as_slice());
    assert_eq!(rt; (etext.area, etext.end, etext.line), (0, true, 13));
    assert_eq!(rt; (edata.area, edata.end), (2, true));
    assert_eq!(rt; (got.area, got.end, got.line), (13, false, 15));
    let [comment, note] = kit.drops.items() else {
        return Err("two dropped names".into());
    };
    assert_eq!(rt; comment.items(), b".comment".as_slice());
    assert_eq!(rt; note.items(), b".note.x".as_slice());
    Ok(())
}

#[test]
fn reads_a_library(rt: HostRuntime) -> Result<(), Fail> {
    let text =
        b"kind library\noutput /usr/lib/libx.so.1.0\nobject a.o\nsoname libx.so.1.0\nneeded libc.so
needed libm.so\nexport f\nsymbolic\nundefined refuse\nentry f\n";
    let kit = kit(rt.alloc(), text)?;
    assert_eq!(rt; kit.kind, KitKind::Library);
    assert_eq!(rt; kit.output.bytes(), b"/usr/lib/libx.so.1.0".as_slice());
    assert_eq!(rt; kit.base, 0);
    assert_eq!(rt;
        kit.soname.as_ref().ok_or("soname")?.items(),
        b"libx.so.1.0".as_slice()
    );
    let [libc, libm] = kit.needed.items() else {
        return Err("two libraries".into());
    };
    assert_eq!(rt; libc.items(), b"libc.so".as_slice());
    assert_eq!(rt; libm.items(), b"libm.so".as_slice());
    let [export] = kit.exports.items() else {
        return Err("one name".into());
    };
    assert_eq!(rt; export.items(), b"f".as_slice());
    assert_eq!(rt; (kit.symbolic, kit.refuse), (true, true));
    Ok(())
}

#[test]
fn reads_defaults(rt: HostRuntime) -> Result<(), Fail> {
    let alloc = rt.alloc();
    let kernel = kit(alloc, b"kind kernel\noutput /bsd\nentry start\nhead a.o")?;
    assert_eq!(rt; kernel.base, 0xffff_ffff_8100_0000);
    let library = kit(
        alloc,
        b"kind library\noutput /usr/lib/a.so\nundefined allow\nobject a.o\n",
    )?;
    assert_eq!(rt; (library.symbolic, library.refuse), (false, false));
    assert_eq!(rt; library.entry.is_none() && library.soname.is_none(), true);
    Ok(())
}
