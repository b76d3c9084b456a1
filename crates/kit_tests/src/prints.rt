// Printed kits, which are read again.
use crate::texts::kit;
use kl_kit::print_kit;
use std::test::Fail;

#[test]
fn prints_a_kernel(rt: HostRuntime) -> Result<(), Fail> {
    let alloc = rt.alloc();
    let text =
        b"kind kernel\noutput /bsd\nbase 0xffffffff81000000\nentry start\nhead locore.o\nobject sub/a.o
tail end.o\nrun .cold text c d\nedge etext text end\nedge got got start\ndrop .comment\n"
            .as_slice();
    let other =
        b"# The same.\nkind kernel\nedge etext text end\noutput /bsd\nentry start\nhead locore.o
drop\t.comment\nobject sub/a.o\ntail end.o\nedge got got start\nrun .cold text c d\nbase 0xFFFFFFFF81000000"
            .as_slice();
    let printed = print_kit(alloc, &kit(alloc, text)?)?;
    assert_eq!(rt; printed.as_slice(), text);
    let printed = print_kit(alloc, &kit(alloc, other)?)?;
    assert_eq!(rt; printed.as_slice(), text);
    Ok(())
}

#[test]
fn prints_a_library(rt: HostRuntime) -> Result<(), Fail> {
    let alloc = rt.alloc();
    let text =
        b"kind library\noutput /usr/lib/libx.so.1.0\nentry f\nobject a.o\nedge _end bss end\nsoname libx.so.1.0
needed libc.so\nneeded libm.so\nexport f\nexport g\nsymbolic\nundefined refuse\n"
            .as_slice();
    let printed = print_kit(alloc, &kit(alloc, text)?)?;
    assert_eq!(rt; printed.as_slice(), text);
    let text = b"kind library\noutput /usr/lib/libx.so.1.0\nobject a.o\n".as_slice();
    let printed = print_kit(alloc, &kit(alloc, text)?)?;
    assert_eq!(rt; printed.as_slice(), text);
    Ok(())
}
