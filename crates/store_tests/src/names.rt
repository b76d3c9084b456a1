use kl_base::{Listed, Name, NameFault};
use std::test::Fail;

#[test]
fn refuses_what_is_no_name(rt: HostRuntime) {
    let long = [b'/'; 256];
    let cases: [(&[u8], NameFault); 12] = [
        (b"", NameFault::Empty),
        (&long, NameFault::TooLong),
        (b"bsd", NameFault::NotAbsolute),
        (b"/b sd", NameFault::BadByte),
        (b"/b\x7f", NameFault::BadByte),
        (b"/a//b", NameFault::EmptyPart),
        (b"/bsd/", NameFault::EmptyPart),
        (b"/", NameFault::EmptyPart),
        (b"/a/../b", NameFault::DotPart),
        (b"/a/.", NameFault::DotPart),
        (b"/./a", NameFault::DotPart),
        (b"//./", NameFault::EmptyPart),
    ];
    for (bytes, fault) in cases {
        assert_eq!(rt; Name::from_bytes(bytes).err(), Some(fault), "at {bytes:?}");
    }
}

#[test]
fn joins_names(rt: HostRuntime) -> Result<(), Fail> {
    let kit = Name::from_bytes(b"/kit")?;
    let file = Name::at_root(b"k.o")?;
    assert_eq!(rt; file.bytes(), b"/k.o".as_slice());
    assert_eq!(rt; kit.join(&file).bytes(), b"/kit/k.o".as_slice());
    assert_eq!(rt; Name::at_root(b"").err(), Some(NameFault::EmptyPart));
    Ok(())
}

#[test]
fn lists_items(rt: HostRuntime) -> Result<(), Fail> {
    let mut list = Listed::new(rt.alloc());
    list.push(7u8)?;
    assert_eq!(rt; list.items(), [7].as_slice());
    assert!(rt; list == Listed::from_vec(vec![in rt.alloc(); 7]?));
    Ok(())
}
