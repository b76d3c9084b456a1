// The number of the name of each symbol.
ghost use Rattle.std.specs.Prelude.{◌≡◌, ◌+◌, ◌<◌, ◌≤◌, length, sum_by, IfOk, OnOk};
ghost use Rattle.kl_model.specs.Texts.{text_at};
ghost use Rattle.kl_model.specs.Names.{occurrences};
ghost use Rattle.kl_model.specs.Fit.{AreFit};
ghost use Rattle.kl_names.specs.Numbers.{AreNumbered};
ghost use Rattle.kl_names.specs.Walked.{occurring_before};

use crate::index::NameIndex;
use kl_base::NoMemory;
use kl_elf::abi::STB_LOCAL;
use kl_model::{Input, Symbol};
use std::alloc::Global;

/// The names of a kit's symbols by number, and for each symbol that isn't LOCAL, in kit order, the number of its name.
#[derive(Drop)]
pub struct Numbering<'a> {
    /// The names of all symbols that aren't LOCAL.
    pub index: NameIndex<'a>,
    /// The number of the name of each of those symbols, by input and symbol number.
    pub numbers: Vec<u32>,
}

/// The name of a symbol of an input.
pub fn symbol_name<'a>(input: &'a Input, symbol: &Symbol) -> &'a [u8]
    ensures { result.now ≡ text_at input.now.bytes symbol.now.name }
{
    input.text(symbol.name)
}

/// How many symbols the inputs have, LOCAL ones among them.
fn symbol_count(inputs: &[Input]) -> usize
    requires { AreFit inputs.now }
    ensures { result ≡ sum_by (λ x. length x.object.symbols) inputs.now }
{
    let mut count = 0;
    for input in inputs {
        count += input.object.symbols.items().len();
    }
    count
}

/// Numbers the names of input `i`. Those of the inputs before it are numbered.
fn number_input<'a>(
    numbering: &mut Numbering<'a>,
    inputs: &'a [Input],
    i: usize,
) -> Result<(), NoMemory>
    requires inputs { AreFit inputs.now }
    requires input { i < length inputs.now }
    requires before { AreNumbered (occurring_before inputs.now i) numbering.old.index numbering.old.numbers.items }
    ensures { OnOk result (AreNumbered (occurring_before inputs.now (i + 1)) numbering.new.index numbering.new.numbers.items) }
{
    let input = &inputs[i];
    for symbol in input.object.symbols.items() {
        if symbol.binding != STB_LOCAL {
            let number = numbering.index.number(symbol_name(input, symbol))?;
            numbering.numbers.push(number)?;
        }
    }
    Ok(())
}

/// Numbers the names of all symbols that aren't LOCAL, each once, in kit order. The only error is want of memory.
pub fn number_names<'a>(alloc: Global, inputs: &'a [Input]) -> Result<Numbering<'a>, NoMemory>
    requires inputs { AreFit inputs.now }
    ensures { IfOk result (λ n. AreNumbered (occurrences inputs.now) n.index n.numbers.items) }
{
    let mut numbering = Numbering {
        index: NameIndex::new(alloc),
        numbers: Vec::with_capacity(alloc, symbol_count(inputs))?,
    };
    for i in 0..inputs.len() {
        number_input(&mut numbering, inputs, i)?;
    }
    Ok(numbering)
}
