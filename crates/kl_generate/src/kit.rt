// A kernel's kit that is made in memory.
ghost use Rattle.std.specs.Prelude.{◌≡◌, ◌≤◌, ◌<◌, ◌++◌, length, IfOk};
ghost use Rattle.kl_generate.specs.Made.{made_kit, made_line, made_name, made_place};
ghost use Rattle.kl_generate.specs.declared.limits.TheConstants.{MADE_LIMIT};

use itoa::Buffer;
use kl_base::{KERNEL_BASE, Listed, Name, NoMemory};
use kl_model::{Kit, KitInput, Part, Word};
use std::alloc::Global;

/// The part of the kit in which an object stands: object 0 is the head, and the others are drawn.
pub(crate) fn made_place(number: u32) -> Part
    ensures { result ≡ made_place number }
{
    match number {
        0 => Part::Head,
        _ => Part::Drawn,
    }
}

/// The name of an object's function, with two bytes behind it at most.
fn name_word(alloc: Global, number: u32, ending: &[u8]) -> Result<Word, NoMemory>
    requires { length ending.now ≤ 2 }
    ensures { IfOk result (λ w. w ≡ made_name number ++ ending.now) }
{
    let mut bytes = Vec::new(alloc);
    bytes.push(b'f')?;
    bytes.extend_from_slice(Buffer::new().format(number).as_bytes())?;
    bytes.extend_from_slice(ending)?;
    Ok(Word::from_vec(bytes))
}

/// The input line of an object, whose file is named after its function.
fn made_line(alloc: Global, number: u32) -> Result<KitInput, NoMemory>
    requires { number < MADE_LIMIT }
    ensures { IfOk result (λ line. line ≡ made_line number) }
{
    Ok(KitInput {
        place: made_place(number),
        file: name_word(alloc, number, b".o")?,
        line: 4 + number,
    })
}

/// The kit of a kernel of `count` objects: its output is `/bsd`, its base the default one, and its entry the function of object 0, which
/// is the head; the others are drawn. The only error is want of memory.
pub fn made_kit(alloc: Global, count: u32) -> Result<Kit, NoMemory>
    requires few { count ≤ MADE_LIMIT }
    ensures kit { IfOk result (λ kit. kit ≡ made_kit count) }
{
    let mut lines = Vec::with_capacity(alloc, count as usize)?;
    for number in 0..count {
        lines.push(made_line(alloc, number)?)?;
    }
    let output = Name::from_bytes(b"/bsd").unwrap();
    let entry = name_word(alloc, 0, b"")?;
    let lines = Listed::from_vec(lines);
    Ok(Kit::kernel(alloc, output, KERNEL_BASE, entry, lines))
}
