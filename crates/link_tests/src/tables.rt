use kl_base::Class;
use kl_model::area::{map_name, named_area};
use kl_model::{Word, is_linked, width};
use std::test::Fail;

// The calls without their contracts, so that a test proves no more than that it runs.
fn width_of(number: u32) -> u64 {
    width(number)
}

fn is_linked_type(number: u32) -> bool {
    is_linked(number)
}

fn area_of(class: Class, name: &[u8]) -> Option<u32> {
    named_area(class, name)
}

fn name_of(number: usize) -> Option<&'static [u8]> {
    map_name(number)
}

#[test]
fn spells_words(rt: HostRuntime) -> Result<(), Fail> {
    let mut word = Word::new(rt.alloc());
    word.push(b'a')?;
    assert_eq!(rt; word.items(), b"a".as_slice());
    let start = Word::from_vec(Vec::from_slice(rt.alloc(), b"start")?);
    assert_eq!(rt; start.items(), b"start".as_slice());
    Ok(())
}

// The numbers and widths of the psABI's table "Relocation Types".
#[test]
fn knows_the_relocation_types(rt: HostRuntime) {
    let rows = [
        (0, 0),
        (1, 8),
        (2, 4),
        (4, 4),
        (9, 4),
        (10, 4),
        (11, 4),
        (12, 2),
        (13, 2),
        (14, 1),
        (15, 1),
        (24, 8),
        (41, 4),
        (42, 4),
    ];
    for (number, width) in rows {
        assert!(rt; is_linked_type(number), "type {number}");
        assert_eq!(rt; width_of(number), width, "type {number}");
    }
    for number in [3, 5, 6, 7, 8, 16, 23, 25, 26, 40, 43] {
        assert!(rt; !is_linked_type(number), "type {number}");
        assert_eq!(rt; width_of(number), 0, "type {number}");
    }
}

#[test]
fn knows_the_areas(rt: HostRuntime) {
    assert_eq!(rt; area_of(Class::Text, b".init"), Some(4));
    assert_eq!(rt; area_of(Class::Text, b".fini"), Some(5));
    assert_eq!(rt; area_of(Class::Rodata, b".eh_frame"), Some(7));
    assert_eq!(rt; area_of(Class::Rwdata, b".ctors"), Some(9));
    assert_eq!(rt; area_of(Class::Rwdata, b".fini_array"), Some(12));
    assert_eq!(rt; area_of(Class::Rodata, b".init"), None);
    assert_eq!(rt; area_of(Class::Text, b""), None);
    assert_eq!(rt; area_of(Class::Bss, b".got"), None);
    assert_eq!(rt; name_of(13), Some(b"got".as_slice()));
    assert_eq!(rt; name_of(0), Some(b"text".as_slice()));
    assert_eq!(rt; name_of(15), None);
}
