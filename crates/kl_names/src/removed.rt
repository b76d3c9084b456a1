// The sections that are left out with their COMDAT groups (gABI, "Section Groups").
ghost use Rattle.std.specs.Prelude.{◌≡◌, ◌+◌, ◌<◌, ◌≤◌, All, length, take, IfOk, OnOk};
ghost use Rattle.kl_model.specs.Texts.{text_at};
ghost use Rattle.kl_model.specs.Kept.{earlier};
ghost use Rattle.kl_model.specs.Fit.{AreFit};
ghost use Rattle.kl_names.specs.Removed.{Sees, marked, repeated_table, repeated_tables};

use kl_base::{Listed, NoMemory};
use kl_model::{Group, Input};
use std::alloc::Global;
use std::collections::HashSet;

/// By section number, whether a section is in a COMDAT group whose signature an earlier COMDAT group has.
pub type RemovedTable = Listed<bool>;

/// The signature of a group of an input.
fn signature_of<'a>(input: &'a Input, group: &Group) -> &'a [u8]
    ensures { result.now ≡ text_at input.now.bytes group.now.signature }
{
    input.text(group.signature)
}

/// Marks these sections.
fn mark(removed: &mut [bool], members: &[u32])
    requires { All (λ n. n < length removed.old) members.now }
    ensures { removed.new ≡ marked removed.old members.now }
{
    for member in members {
        removed[*member as usize] = true;
    }
}

/// The sections of input `i` that are left out. The signatures of the inputs before it are seen.
fn removed_of<'a>(
    alloc: Global,
    seen: &mut HashSet<&'a [u8]>,
    inputs: &'a [Input],
    i: usize,
) -> Result<RemovedTable, NoMemory>
    requires inputs { AreFit inputs.now }
    requires input { i < length inputs.now }
    requires before { Sees seen.old (earlier inputs.now i 0) }
    ensures removed { IfOk result (λ r. r ≡ repeated_table inputs.now i) }
    ensures seen { OnOk result (Sees seen.new (earlier inputs.now (i + 1) 0)) }
{
    let input = &inputs[i];
    let mut removed = vec![in alloc; false; input.object.sections.items().len() + 1]?;
    for group in input.object.groups.items() {
        if group.comdat && !seen.insert(signature_of(input, group))? {
            mark(&mut removed, group.members.items());
        }
    }
    Ok(Listed::from_vec(removed))
}

/// The sections that are left out with their COMDAT groups, by input and section number: of the groups of one signature the first in
/// kit order stays. The only error is want of memory.
pub fn removed_sections(alloc: Global, inputs: &[Input]) -> Result<Vec<RemovedTable>, NoMemory>
    requires inputs { AreFit inputs.now }
    ensures { IfOk result (λ r. r.items ≡ repeated_tables inputs.now) }
{
    let mut seen = HashSet::new(alloc);
    let mut tables = Vec::with_capacity(alloc, inputs.len())?;
    for i in 0..inputs.len() {
        tables.push(removed_of(alloc, &mut seen, inputs, i)?)?;
    }
    Ok(tables)
}
