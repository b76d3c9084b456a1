// Orders and gaps. Each expected value was printed by examples/order/order.py, those of objects by examples/order/gap_object.py.
ghost use Rattle.kl_model.specs.Fit.{AreGaps};

use kl_draw::{draw_gaps, draw_order, gap_object, sub_seed};
use kl_model::Gaps;
use sha2::{Digest, Sha256};
use std::alloc::Global;
use std::test::Fail;

const ZEROS: [u8; 32] = [0; 32];

/// The bytes from 0 to 31.
const ASCENDING: &[u8] = b"000102030405060708090a0b0c0d0e0f101112131415161718191a1b1c1d1e1f";

const KERNEL: &[u8] = b"/bsd";

const LIBRARY: &[u8] = b"/usr/lib/libc.so.1";

const OF_LIBRARY: [u32; 33] = [
    19, 27, 21, 14, 24, 13, 0, 28, 31, 4, 9, 30, 6, 23, 10, 7, 22, 5, 2, 16, 26, 32, 3, 11, 1, 15,
    12, 20, 29, 25, 8, 17, 18,
];

fn seed(alloc: Global, digits: &[u8]) -> Result<[u8; 32], Fail> {
    let bytes = hex::decode(alloc, digits)?;
    Ok(<[u8; 32]>::try_from(bytes.as_slice())?)
}

/// The order of so many inputs under a seed and a label.
fn order(alloc: Global, seed: &[u8; 32], label: &[u8], count: u32) -> Result<Vec<u32>, Fail> {
    Ok(draw_order(alloc, &sub_seed(seed, label, b"order"), count)?)
}

#[test]
fn derives_seeds(rt: HostRuntime) -> Result<(), Fail> {
    let alloc = rt.alloc();
    let order = b"36ba9434756f4d7faa71b8329371fc8feabb111b3f13d67d824709838e5ce0bb";
    assert_eq!(rt; sub_seed(&ZEROS, KERNEL, b"order"), seed(alloc, order)?);
    let gaps = b"aad3324a8a690edec23839341aebcc768d9b689bde72312fb13edf69b727df0c";
    assert_eq!(rt; sub_seed(&ZEROS, KERNEL, b"gaps"), seed(alloc, gaps)?);
    Ok(())
}

#[test]
fn draws_orders(rt: HostRuntime) -> Result<(), Fail> {
    let alloc = rt.alloc();
    assert_eq!(rt; order(alloc, &ZEROS, KERNEL, 0)?.as_slice(), [].as_slice());
    assert_eq!(rt; order(alloc, &ZEROS, KERNEL, 1)?.as_slice(), [0].as_slice());
    assert_eq!(rt;
        order(alloc, &ZEROS, KERNEL, 20)?.as_slice(),
        [
            14, 1, 4, 6, 12, 7, 2, 5, 10, 16, 8, 3, 0, 19, 9, 15, 17, 11, 18, 13
        ]
        .as_slice()
    );
    let ascending = seed(alloc, ASCENDING)?;
    assert_eq!(rt;
        order(alloc, &ascending, LIBRARY, 33)?.as_slice(),
        OF_LIBRARY.as_slice()
    );
    let many = order(alloc, &ascending, KERNEL, 5000)?;
    assert_eq!(rt;
        many.get(..4).unwrap_or(&[]),
        [2074, 3168, 4223, 285].as_slice()
    );
    assert_eq!(rt;
        many.get(4996..).unwrap_or(&[]),
        [3468, 2335, 4678, 3049].as_slice()
    );
    Ok(())
}

#[test]
fn draws_gaps(rt: HostRuntime) -> Result<(), Fail> {
    let alloc = rt.alloc();
    let kernel = Gaps {
        text: 211_072,
        rodata: 147_312,
        rwdata: 25_968,
        bss: 76_224,
    };
    assert!(rt; draw_gaps(&sub_seed(&ZEROS, KERNEL, b"gaps")) == kernel);
    let library = Gaps {
        text: 134_288,
        rodata: 57_056,
        rwdata: 160_080,
        bss: 240_576,
    };
    let sub = sub_seed(&seed(alloc, ASCENDING)?, LIBRARY, b"gaps");
    assert!(rt; draw_gaps(&sub) == library);
    Ok(())
}

/// The length of a gap object, in bytes, and its digest.
fn made(alloc: Global, gaps: &Gaps) -> Result<(usize, [u8; 32]), Fail>
    requires { AreGaps gaps.now }
{
    let file = gap_object(alloc, gaps)?;
    Ok((file.len(), Sha256::digest(file.as_slice())))
}

#[test]
fn makes_gap_objects(rt: HostRuntime) -> Result<(), Fail> {
    let alloc = rt.alloc();
    let least = Gaps {
        text: 16,
        rodata: 16,
        rwdata: 16,
        bss: 16,
    };
    let digest = b"b9601ef537354b07a7c7dc2fcc8b4dd431810ced3b65805cd93ffe7ae1fe63bf";
    assert!(rt; made(alloc, &least)? == (536, seed(alloc, digest)?));
    let drawn = draw_gaps(&sub_seed(&ZEROS, KERNEL, b"gaps"));
    let digest = b"efa76658005d28159724b8ad171f2ac376699e47f31d0e6854ef4169f62c5b2f";
    assert!(rt; made(alloc, &drawn)? == (384_840, seed(alloc, digest)?));
    Ok(())
}
