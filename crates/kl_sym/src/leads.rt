// Where the symbols of an input lead.
ghost use Rattle.std.specs.Prelude.{◌≡◌, ◌+◌, ◌<◌, length, map, IfOk};
ghost use Rattle.kl_model.specs.Fit.{AreFit};
ghost use Rattle.kl_model.specs.Names.{occurrences};
ghost use Rattle.kl_names.specs.Numbers.{AreNumbered};
ghost use Rattle.kl_names.specs.Tables.{piece_table};
ghost use Rattle.kl_names.specs.Walked.{occurring_before};
ghost use Rattle.kl_sym.specs.Leads.{lead_of_local, lead_of_name, leads, named_target};

use kl_base::NoMemory;
use kl_elf::abi::{STB_LOCAL, STB_WEAK};
use kl_model::{Input, Kit, Target};
use kl_names::{Numbering, PieceTable, symbol_place};
use std::alloc::Global;

/// Where a symbol leads.
#[derive(Clone, Copy, Debug, PartialEq, Eq)]
pub enum Lead {
    /// To a target.
    To(Target),
    /// To a section that isn't kept.
    Removed,
    /// To a name without a definition.
    Undefined,
}

/// Where the symbols of an input lead, and how many symbols up to its end aren't LOCAL.
#[derive(Drop)]
pub struct InputLeads {
    /// By symbol number.
    pub leads: Vec<Lead>,
    /// The number of symbols that aren't LOCAL, in this input and those before it.
    pub next: usize,
}

/// Where a LOCAL symbol leads, which stands at a place, or in no piece.
fn lead_of_local(place: Option<Target>) -> Lead
    ensures { result ≡ lead_of_local place }
{
    match place {
        Some(target) => Lead::To(target),
        None => Lead::Removed,
    }
}

/// Where another symbol leads: to the target of its name, or where that has none and it is WEAK to the value 0 (gABI, `STB_WEAK`).
fn lead_of_name(target: Option<Target>, binding: u8) -> Lead
    ensures { result ≡ lead_of_name target binding }
{
    match target {
        Some(target) => Lead::To(target),
        None if binding == STB_WEAK => Lead::To(Target::Zero),
        None => Lead::Undefined,
    }
}

/// Where the symbols of input `i` lead, by the target of each name. `next` symbols of the inputs before it aren't LOCAL.
pub fn input_leads(
    alloc: Global,
    kit: &Kit,
    inputs: &[Input],
    numbering: &Numbering<'_>,
    targets: &[Option<Target>],
    table: &PieceTable,
    i: usize,
    next: usize,
) -> Result<InputLeads, NoMemory>
    requires inputs { AreFit inputs.now }
    requires input { i < length inputs.now }
    requires numbered { AreNumbered (occurrences inputs.now) numbering.now.index numbering.now.numbers.items }
    requires targets { targets.now ≡ map (named_target kit.now inputs.now) numbering.now.index }
    requires table { table.now ≡ piece_table kit.now inputs.now i }
    requires next { next ≡ length (occurring_before inputs.now i) }
    ensures leads { IfOk result (λ r. r.leads.items ≡ leads kit.now inputs.now i) }
    ensures next { IfOk result (λ r. r.next ≡ length (occurring_before inputs.now (i + 1))) }
{
    let symbols = inputs[i].object.symbols.items();
    let mut leads = Vec::with_capacity(alloc, symbols.len())?;
    let mut next = next;
    for symbol in symbols {
        if symbol.binding == STB_LOCAL {
            leads.push(lead_of_local(symbol_place(table, symbol)))?;
        } else {
            let number = numbering.numbers[next];
            leads.push(lead_of_name(targets[number as usize], symbol.binding))?;
            next += 1;
        }
    }
    Ok(InputLeads { leads, next })
}
