use kl_base::{Class, Name};
use kl_map::{MAP_LIMIT, Map, MapError, print_map, read_map};
use kl_model::{AreaAt, Areas, PieceId, Placed, PlacedList, Placement};
use std::alloc::Global;
use std::test::Fail;

const BASE: u64 = 0xffff_ffff_8100_0000;

fn area(start: u64, end: u64) -> AreaAt {
    AreaAt { start, end }
}

fn empty_at(address: u64) -> AreaAt {
    area(address, address)
}

fn placed(id: PieceId, address: u64, size: u64) -> Placed {
    Placed { id, address, size }
}

fn placement(
    alloc: Global,
    base: u64,
    areas: &[AreaAt],
    pieces: &[Placed],
) -> Result<Placement, Fail> {
    Ok(Placement {
        base,
        areas: Areas::from_vec(Vec::from_slice(alloc, areas)?),
        pieces: PlacedList::from_vec(Vec::from_slice(alloc, pieces)?),
    })
}

const ONE_PIECE: &str = "\
relink map 1
output /bsd
seed 0000000000000000000000000000000000000000000000000000000000000000
base 0xffffffff81000000
area text 0xffffffff81000000 0xffffffff81000003
area rodata 0xffffffff81001000 0xffffffff81001000
area data 0xffffffff81001000 0xffffffff81001000
area bss 0xffffffff81001000 0xffffffff81001000
area init 0xffffffff81000003 0xffffffff81000003
area fini 0xffffffff81000003 0xffffffff81000003
area stubs 0xffffffff81000003 0xffffffff81000003
area eh_frame 0xffffffff81001000 0xffffffff81001000
area tables 0xffffffff81001000 0xffffffff81001000
area ctors 0xffffffff81001000 0xffffffff81001000
area dtors 0xffffffff81001000 0xffffffff81001000
area init_array 0xffffffff81001000 0xffffffff81001000
area fini_array 0xffffffff81001000 0xffffffff81001000
area got 0xffffffff81001000 0xffffffff81001000
area dynamic 0xffffffff81001000 0xffffffff81001000
piece 0 1 0xffffffff81000000 0x0000000000000003
end
";

#[test]
fn prints_one_piece(rt: HostRuntime) -> Result<(), Fail> {
    let alloc = rt.alloc();
    let mut areas = [empty_at(BASE + 0x1000); 15];
    areas[0] = area(BASE, BASE + 3);
    areas[4] = empty_at(BASE + 3);
    areas[5] = empty_at(BASE + 3);
    areas[6] = empty_at(BASE + 3);
    let section = PieceId::Section {
        input: 0,
        section: 1,
    };
    let map = Map {
        output: Name::from_bytes(b"/bsd")?,
        seed: [0; 32],
        placement: placement(alloc, BASE, &areas, &[placed(section, BASE, 3)])?,
    };
    assert_eq!(rt; print_map(alloc, &map)?.as_slice(), ONE_PIECE.as_bytes());
    Ok(())
}

const RUN_COMMON_AND_GAPS: &str = "\
relink map 1
output /usr/lib/libc.so.97.0
seed 01ababababababababababababababababababababababababababababababab
base 0x0000000000000000
area text 0x0000000000001000 0x0000000000001000
area rodata 0x0000000000001000 0x0000000000001000
area data 0x0000000000001000 0x0000000000001000
area bss 0x0000000000001000 0x0000000000001000
area init 0x0000000000001000 0x0000000000001000
area fini 0x0000000000001000 0x0000000000001000
area stubs 0x0000000000001000 0x0000000000001000
area eh_frame 0x0000000000001000 0x0000000000001000
area tables 0x0000000000001000 0x0000000000001000
area ctors 0x0000000000001000 0x0000000000001000
area dtors 0x0000000000001000 0x0000000000001000
area init_array 0x0000000000001000 0x0000000000001000
area fini_array 0x0000000000001000 0x0000000000001000
area got 0x0000000000001000 0x0000000000001000
area dynamic 0x0000000000001000 0x0000000000001000
area run0 0x0000000000002000 0x0000000000002028
area run1 0x0000000000001000 0x0000000000001000
area run2 0x0000000000001000 0x0000000000001000
area run3 0x0000000000001000 0x0000000000001000
area run4 0x0000000000001000 0x0000000000001000
area run5 0x0000000000001000 0x0000000000001000
area run6 0x0000000000001000 0x0000000000001000
area run7 0x0000000000001000 0x0000000000001000
area run8 0x0000000000001000 0x0000000000001000
area run9 0x0000000000001000 0x0000000000001000
area run10 0xfedcba9876543210 0x0000000000000000
piece 12 4294967295 0x0000000000003000 0x0000000000000028
common 0 0x0000000000003000 0x0000000000000004
gap text 0x0000000000003000 0x0000000000000010
gap rodata 0x0000000000003000 0x0000000000000020
gap data 0x0000000000003000 0x0000000000000030
gap bss 0x0000000000003000 0x0000000000040000
end
";

fn run_common_and_gaps(alloc: Global) -> Result<Map, Fail> {
    let mut areas = [empty_at(0x1000); 26];
    areas[15] = area(0x2000, 0x2028);
    areas[25] = area(0xfedc_ba98_7654_3210, 0);
    let section = PieceId::Section {
        input: 12,
        section: 4_294_967_295,
    };
    let pieces = [
        placed(section, 0x3000, 40),
        placed(PieceId::Common(0), 0x3000, 4),
        placed(PieceId::Gap(Class::Text), 0x3000, 16),
        placed(PieceId::Gap(Class::Rodata), 0x3000, 32),
        placed(PieceId::Gap(Class::Rwdata), 0x3000, 48),
        placed(PieceId::Gap(Class::Bss), 0x3000, 262_144),
    ];
    let mut seed = [0xab; 32];
    seed[0] = 0x01;
    Ok(Map {
        output: Name::from_bytes(b"/usr/lib/libc.so.97.0")?,
        seed,
        placement: placement(alloc, 0, &areas, &pieces)?,
    })
}

#[test]
fn prints_a_run_a_common_and_gaps(rt: HostRuntime) -> Result<(), Fail> {
    let alloc = rt.alloc();
    let map = run_common_and_gaps(alloc)?;
    assert_eq!(rt;
        print_map(alloc, &map)?.as_slice(),
        RUN_COMMON_AND_GAPS.as_bytes()
    );
    Ok(())
}

fn read(alloc: Global, text: &[u8]) -> Result<Map, MapError> {
    if text.len() > MAP_LIMIT {
        return Err(MapError::NoMemory);
    }
    read_map(alloc, text)
}

#[test]
fn reads_a_run_a_common_and_gaps(rt: HostRuntime) -> Result<(), Fail> {
    let alloc = rt.alloc();
    let map = run_common_and_gaps(alloc)?;
    let back = read(alloc, RUN_COMMON_AND_GAPS.as_bytes())?;
    assert_eq!(rt; back.output, map.output);
    assert_eq!(rt; back.seed, map.seed);
    assert_eq!(rt; back.placement.base, map.placement.base);
    assert_eq!(rt; back.placement.areas.items(), map.placement.areas.items());
    assert_eq!(rt; back.placement.pieces.items(), map.placement.pieces.items());
    Ok(())
}

/// The line that is told of a text, or 0.
fn faulty_line(alloc: Global, text: &[u8]) -> u32 {
    match read(alloc, text) {
        Err(MapError::Line { line }) => line,
        _ => 0,
    }
}

const HEAD: &str = "\
relink map 1
output /bsd
seed 0000000000000000000000000000000000000000000000000000000000000000
base 0xffffffff81000000
";

const UPPER_CASE: &str = "\
relink map 1
output /bsd
seed 0000000000000000000000000000000000000000000000000000000000000000
base 0xffffffff81000000
area text 0xffffffff81000000 0xFfffffff81000003
";

#[test]
fn tells_an_upper_case_digit(rt: HostRuntime) -> Result<(), Fail> {
    let alloc = rt.alloc();
    assert_eq!(rt; faulty_line(alloc, UPPER_CASE.as_bytes()), 5);
    assert_eq!(rt; faulty_line(alloc, HEAD.as_bytes()), 5);
    assert_eq!(rt; faulty_line(alloc, b"relink map 1"), 1);
    assert_eq!(rt; faulty_line(alloc, b"relink map 1\n\n"), 2);
    Ok(())
}

const AREAS: &str = "\
area text 0x0000000000001000 0x0000000000001000
area rodata 0x0000000000001000 0x0000000000001000
area data 0x0000000000001000 0x0000000000001000
area bss 0x0000000000001000 0x0000000000001000
area init 0x0000000000001000 0x0000000000001000
area fini 0x0000000000001000 0x0000000000001000
area stubs 0x0000000000001000 0x0000000000001000
area eh_frame 0x0000000000001000 0x0000000000001000
area tables 0x0000000000001000 0x0000000000001000
area ctors 0x0000000000001000 0x0000000000001000
area dtors 0x0000000000001000 0x0000000000001000
area init_array 0x0000000000001000 0x0000000000001000
area fini_array 0x0000000000001000 0x0000000000001000
area got 0x0000000000001000 0x0000000000001000
area dynamic 0x0000000000001000 0x0000000000001000
";

/// The line that is told where these lines follow 19 good ones.
fn line_behind(alloc: Global, lines: &str) -> Result<u32, Fail> {
    let text = format!(in alloc; "{HEAD}{AREAS}{lines}")?;
    Ok(faulty_line(alloc, text.as_bytes()))
}

const TWICE_ENDED: &str = "\
piece 0 1 0x0000000000001000 0x0000000000000003
end
end
";

const UNENDED: &str = "\
piece 0 1 0x0000000000001000 0x0000000000000003
";

const FALLING_PIECES: &str = "\
piece 1 2 0x0000000000001000 0x0000000000000003
piece 1 1 0x0000000000001000 0x0000000000000003
end
";

const SECOND_COMMON: &str = "\
common 1 0x0000000000001000 0x0000000000000003
end
";

const LEADING_ZERO: &str = "\
piece 0 01 0x0000000000001000 0x0000000000000003
end
";

const SWAPPED_GAPS: &str = "\
gap text 0x0000000000001000 0x0000000000000000
gap data 0x0000000000001000 0x0000000000000000
gap rodata 0x0000000000001000 0x0000000000000000
gap bss 0x0000000000001000 0x0000000000000000
end
";

const THREE_GAPS: &str = "\
gap text 0x0000000000001000 0x0000000000000000
gap rodata 0x0000000000001000 0x0000000000000000
gap data 0x0000000000001000 0x0000000000000000
end
";

#[test]
fn tells_lines_out_of_order(rt: HostRuntime) -> Result<(), Fail> {
    let alloc = rt.alloc();
    assert_eq!(rt; line_behind(alloc, "end\n")?, 0);
    assert_eq!(rt; line_behind(alloc, "end")?, 20);
    assert_eq!(rt; line_behind(alloc, TWICE_ENDED)?, 22);
    assert_eq!(rt; line_behind(alloc, UNENDED)?, 21);
    assert_eq!(rt; line_behind(alloc, FALLING_PIECES)?, 21);
    assert_eq!(rt; line_behind(alloc, SECOND_COMMON)?, 20);
    assert_eq!(rt; line_behind(alloc, LEADING_ZERO)?, 20);
    assert_eq!(rt; line_behind(alloc, SWAPPED_GAPS)?, 21);
    assert_eq!(rt; line_behind(alloc, THREE_GAPS)?, 23);
    Ok(())
}
