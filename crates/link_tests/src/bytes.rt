use kl_le::{Fixed, get, put, put_bytes};
use std::test::Fail;

#[test]
fn gets_each_width(rt: HostRuntime) {
    let bytes = [1, 2, 3, 4, 5, 6, 7, 8];
    assert_eq!(rt; get::<1>(&bytes, 7), 8);
    assert_eq!(rt; get::<2>(&bytes, 3), 0x0504);
    assert_eq!(rt; get::<4>(&bytes, 4), 0x0807_0605);
    assert_eq!(rt; get::<8>(&bytes, 0), 0x0807_0605_0403_0201);
}

#[test]
fn puts_each_width(rt: HostRuntime) {
    let mut bytes = [0xcc; 8];
    put::<4>(&mut bytes, 0, 0xff);
    assert_eq!(rt; bytes, [0xff, 0, 0, 0, 0xcc, 0xcc, 0xcc, 0xcc]);
    put::<1>(&mut bytes, 7, 1);
    put::<2>(&mut bytes, 4, 0x0302);
    assert_eq!(rt; bytes, [0xff, 0, 0, 0, 2, 3, 0xcc, 1]);
    put::<8>(&mut bytes, 0, 0xfedc_ba98_7654_3210);
    assert_eq!(rt; bytes, [0x10, 0x32, 0x54, 0x76, 0x98, 0xba, 0xdc, 0xfe]);
}

#[test]
fn views_and_writes_bytes(rt: HostRuntime) {
    let mut bytes = [1, 2, 3, 4];
    put_bytes(&mut bytes, 1, &[8, 9]);
    assert_eq!(rt; bytes, [1, 8, 9, 4]);
    let view = Fixed::<'_, 3>::at(&bytes, 1);
    assert_eq!(rt; view.to_array(), [8, 9, 4]);
}
