// Large texts.
use crate::texts::{fault, kit};
use itoa::Buffer;
use kl_base::KIT_TEXT_LIMIT;
use kl_kit::{KitFault, Needed};
use std::alloc::Global;
use std::test::Fail;

// 4 MiB.
const LONG: usize = KIT_TEXT_LIMIT as usize;

#[test]
fn reads_a_long_word(rt: HostRuntime) -> Result<(), Fail> {
    let alloc = rt.alloc();
    let text = vec![in alloc; b'a'; LONG]?;
    assert_eq!(rt; fault(alloc, &text)?, KitFault::Keyword { line: 1 });
    Ok(())
}

#[test]
fn reads_many_words(rt: HostRuntime) -> Result<(), Fail> {
    let alloc = rt.alloc();
    let mut text = Vec::with_capacity(alloc, LONG)?;
    text.extend_from_slice(b"kind ")?;
    for _ in 0..LONG / 2 - 3 {
        text.extend_from_slice(b"a ")?;
    }
    assert_eq!(rt; fault(alloc, &text)?, KitFault::Count { line: 1 });
    Ok(())
}

#[test]
fn reads_many_lines(rt: HostRuntime) -> Result<(), Fail> {
    let alloc = rt.alloc();
    let text = vec![in alloc; b'\n'; LONG]?;
    assert_eq!(rt;
        fault(alloc, &text)?,
        KitFault::Missing { what: Needed::Kind }
    );
    Ok(())
}

/// The text of a kernel with so many inputs.
fn with_inputs(alloc: Global, count: u32) -> Result<Vec<u8>, Fail> {
    let mut text = Vec::new(alloc);
    text.extend_from_slice(b"kind kernel\noutput /bsd\nentry start\n")?;
    for number in 0..count {
        text.extend_from_slice(b"object o")?;
        text.extend_from_slice(Buffer::new().format(number).as_bytes())?;
        text.push(b'\n')?;
    }
    Ok(text)
}

#[test]
fn counts_inputs(rt: HostRuntime) -> Result<(), Fail> {
    let alloc = rt.alloc();
    let full = kit(alloc, &with_inputs(alloc, 16_384)?)?;
    assert_eq!(rt; full.inputs.items().len(), 16_384);
    let over = with_inputs(alloc, 16_385)?;
    assert_eq!(rt; fault(alloc, &over)?, KitFault::Limit { line: 16_388 });
    Ok(())
}

// A file twice as the 16,385th input: of two faults in a line the earlier in the table is told.
#[test]
fn tells_an_input_twice_before_the_limit(rt: HostRuntime) -> Result<(), Fail> {
    let alloc = rt.alloc();
    let mut text = with_inputs(alloc, 16_384)?;
    text.extend_from_slice(b"tail o0\n")?;
    assert_eq!(rt; fault(alloc, &text)?, KitFault::Twice { line: 16_388 });
    Ok(())
}
