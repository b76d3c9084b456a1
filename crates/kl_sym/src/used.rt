// Which names the fields of kept sections use.
ghost use Rattle.std.specs.Prelude.{◌≡◌, ◌+◌, ◌<◌, length, map, IfOk};
ghost use Rattle.kl_model.specs.Dynamic.{is_used};
ghost use Rattle.kl_model.specs.Fit.{AreFit};
ghost use Rattle.kl_model.specs.Kept.{input_at};
ghost use Rattle.kl_model.specs.Names.{occurrences};
ghost use Rattle.kl_names.specs.Numbers.{AreNumbered};
ghost use Rattle.kl_names.specs.Tables.{piece_table, piece_tables};
ghost use Rattle.kl_names.specs.Walked.{occurring_before};
ghost use Rattle.kl_sym.specs.Linkage.{AreSymbolNumbers, used_number};
ghost use Rattle.kl_sym.specs.UsedNames.{used_before};

use kl_base::NoMemory;
use kl_elf::abi::{R_X86_64_NONE, STB_LOCAL};
use kl_model::{Input, Kit, RawField};
use kl_names::{Numbering, PieceTable};
use std::alloc::Global;

/// The numbers of the names of an input's symbols, and how many symbols up to its end aren't LOCAL.
#[derive(Drop)]
struct SymbolNumbers {
    /// By symbol number; none where the symbol is LOCAL.
    numbers: Vec<Option<u32>>,
    /// The number of symbols that aren't LOCAL, in this input and those before it.
    next: usize,
}

/// The numbers of the names of the symbols of input `i`. `next` symbols of the inputs before it aren't LOCAL.
fn symbol_numbers(
    alloc: Global,
    inputs: &[Input],
    numbering: &Numbering<'_>,
    i: usize,
    next: usize,
) -> Result<SymbolNumbers, NoMemory>
    requires inputs { AreFit inputs.now }
    requires input { i < length inputs.now }
    requires numbered { AreNumbered (occurrences inputs.now) numbering.now.index numbering.now.numbers.items }
    requires next { next ≡ length (occurring_before inputs.now i) }
    ensures numbers { IfOk result (λ r. AreSymbolNumbers numbering.now.index (input_at inputs.now i) r.numbers.items) }
    ensures next { IfOk result (λ r. r.next ≡ length (occurring_before inputs.now (i + 1))) }
{
    let symbols = inputs[i].object.symbols.items();
    let mut numbers = Vec::with_capacity(alloc, symbols.len())?;
    let mut next = next;
    for symbol in symbols {
        if symbol.binding == STB_LOCAL {
            numbers.push(None)?;
        } else {
            numbers.push(Some(numbering.numbers[next]))?;
            next += 1;
        }
    }
    Ok(SymbolNumbers { numbers, next })
}

/// The number of the name that a relocation entry uses, where its section has a piece, its type isn't `R_X86_64_NONE` and its symbol
/// isn't LOCAL.
fn used_number(field: &RawField, table: &PieceTable, numbers: &[Option<u32>]) -> Option<u32>
    requires { field.now.symbol < length numbers.now }
    ensures { result ≡ used_number table.now numbers.now field.now }
{
    if !matches!(table.items().get(field.section as usize), Some(Some(_))) {
        return None;
    }
    if field.kind == R_X86_64_NONE || field.symbol == 0 {
        return None;
    }
    numbers[field.symbol as usize]
}

/// Marks the names that the fields of input `i` use, by their numbers. Its pieces are in the table, and its symbols have these
/// numbers; the names that the inputs before it use are marked.
fn mark_used(
    marks: &mut Vec<bool>,
    kit: &Kit,
    inputs: &[Input],
    numbering: &Numbering<'_>,
    i: usize,
    table: &PieceTable,
    numbers: &[Option<u32>],
)
    requires inputs { AreFit inputs.now }
    requires input { i < length inputs.now }
    requires numbered { AreNumbered (occurrences inputs.now) numbering.now.index numbering.now.numbers.items }
    requires table { table.now ≡ piece_table kit.now inputs.now i }
    requires numbers { AreSymbolNumbers numbering.now.index (input_at inputs.now i) numbers.now }
    requires before { marks.old.items ≡ map (used_before kit.now inputs.now i) numbering.now.index }
    ensures { marks.new.items ≡ map (used_before kit.now inputs.now (i + 1)) numbering.now.index }
{
    let input = &inputs[i];
    for field in input.object.fields.items() {
        if let Some(number) = used_number(field, table, numbers) {
            marks[number as usize] = true;
        }
    }
}

/// Whether a field of a kept section uses each name, by the name's number. The kit's pieces are in the tables. The only error is
/// want of memory.
pub fn used_names(
    alloc: Global,
    kit: &Kit,
    inputs: &[Input],
    numbering: &Numbering<'_>,
    tables: &[PieceTable],
) -> Result<Vec<bool>, NoMemory>
    requires inputs { AreFit inputs.now }
    requires numbered { AreNumbered (occurrences inputs.now) numbering.now.index numbering.now.numbers.items }
    requires tables { tables.now ≡ piece_tables kit.now inputs.now }
    ensures { IfOk result (λ m. m.items ≡ map (is_used kit.now inputs.now) numbering.now.index) }
{
    let mut marks = vec![in alloc; false; numbering.index.names().len()]?;
    let mut next = 0;
    for (i, table) in tables.iter().enumerate() {
        let symbols = symbol_numbers(alloc, inputs, numbering, i, next)?;
        mark_used(
            &mut marks,
            kit,
            inputs,
            numbering,
            i,
            table,
            &symbols.numbers,
        );
        next = symbols.next;
    }
    Ok(marks)
}
