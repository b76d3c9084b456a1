// The strings that the symbols and the dynamic section name.
ghost use Rattle.std.specs.Prelude.{◌≡◌, ◌++◌, OnOk, flat_map};
ghost use Rattle.kl_model.specs.Tables.{dyn_text, ended, strings_of};

use kl_base::NoMemory;
use kl_model::{DynName, Graph, Input, Kit, Word};

/// The bytes of a dynamic name.
pub fn name_text<'a>(inputs: &'a [Input], name: &DynName) -> &'a [u8]
    ensures { result.now ≡ dyn_text inputs.now name.now }
{
    match inputs.get(name.input as usize) {
        Some(input) => input.text(name.name),
        None => &[],
    }
}

/// Pushes a string, and the zero byte that ends it.
fn push_string(bytes: &mut Vec<u8>, text: &[u8]) -> Result<(), NoMemory>
    ensures { OnOk result (bytes.new.items ≡ bytes.old.items ++ ended text.now) }
{
    bytes.extend_from_slice(text)?;
    bytes.push(0)?;
    Ok(())
}

/// Pushes the strings of dynamic names.
fn push_names(bytes: &mut Vec<u8>, inputs: &[Input], names: &[DynName]) -> Result<(), NoMemory>
    ensures { OnOk result (bytes.new.items ≡ bytes.old.items ++ flat_map (λ d. ended (dyn_text inputs.now d)) names.now) }
{
    for name in names {
        push_string(bytes, name_text(inputs, name))?;
    }
    Ok(())
}

/// Pushes the strings of words.
fn push_words(bytes: &mut Vec<u8>, words: &[Word]) -> Result<(), NoMemory>
    ensures { OnOk result (bytes.new.items ≡ bytes.old.items ++ flat_map ended words.now) }
{
    for word in words {
        push_string(bytes, word.items())?;
    }
    Ok(())
}

/// Pushes the strings: a zero byte, the dynamic names, the soname, and the names of the needed libraries.
pub fn push_strings(
    bytes: &mut Vec<u8>,
    kit: &Kit,
    inputs: &[Input],
    graph: &Graph,
) -> Result<(), NoMemory>
    ensures { OnOk result (bytes.new.items ≡ bytes.old.items ++ strings_of kit.now inputs.now graph.now) }
{
    bytes.push(0)?;
    push_names(bytes, inputs, graph.names.items())?;
    if let Some(soname) = &kit.soname {
        push_string(bytes, soname.items())?;
    }
    push_words(bytes, kit.needed.items())
}
