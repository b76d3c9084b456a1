// The fields of kept sections, and where they lead.
ghost use Rattle.std.specs.Prelude.{◌≡◌, ◌⊎◌, ◌<◌, ◌≤◌, ◌++◌, ◌∷◌, [], Ok, Some, length, map, slice_get, sum_by, option_to_list, IfErr, IfOk, OnOk};
ghost use Rattle.kl_model.specs.Texts.{text_at};
ghost use Rattle.kl_model.specs.Kept.{input_at};
ghost use Rattle.kl_model.specs.Faults.{all_field_faults, from_of, input_faults};
ghost use Rattle.kl_model.specs.Fit.{AreFit, IsFit, IsFitField, section_in};
ghost use Rattle.kl_model.specs.Graphs.{input_fields};
ghost use Rattle.kl_model.specs.Graphs.{fields as fields_of};
ghost use Rattle.kl_model.specs.Names.{occurrences};
ghost use Rattle.kl_names.specs.Numbers.{AreNumbered};
ghost use Rattle.kl_names.specs.Tables.{piece_table, piece_tables};
ghost use Rattle.kl_sym.specs.Leads.{leads as leads_of, named_target};
ghost use Rattle.kl_sym.specs.Targets.{faults_by, field_by, field_in, linked_faults, missing_by, target_by};

use crate::leads::{Lead, input_leads};
use crate::loader::loader_fault;
use crate::pieces::class_of;
use kl_elf::abi::R_X86_64_NONE;
use kl_model::{
    Field, FieldAt, Input, Kit, KitKind, LinkFault, RawField, Section, Target, relocation_type,
};
use kl_names::{Numbering, PieceTable, name_text};
use std::alloc::Global;

/// The section of a field.
fn section_of<'a>(input: &'a Input, field: &RawField) -> &'a Section
    requires { IsFitField input.now.object field.now }
    ensures { result.now ≡ section_in input.now.object field.now.section }
{
    &input.object.sections.items()[field.section as usize - 1]
}

/// Where a field of input `i` leads, whose symbols lead so.
///
/// # Errors
///
/// `Removed` where its symbol is in a section that isn't kept, and `Undefined` where its name has no definition.
fn target(
    alloc: Global,
    i: u32,
    input: &Input,
    field: &RawField,
    leads: &[Lead],
) -> Result<Target, LinkFault>
    requires fits { IsFit input.now }
    requires field { IsFitField input.now.object field.now }
    requires leads { length leads.now ≡ length input.now.object.symbols }
    ensures ok { IfOk result (λ t. target_by leads.now input.now field.now ≡ Ok t) }
    ensures err { IfErr result (λ e. (e ≡ LinkFault.NoMemory) ⊎ (missing_by leads.now input.now i field.now ≡ e ∷ [])) }
{
    if field.symbol == 0 {
        return Ok(Target::Abs(0));
    }
    let from = field_at(i, field);
    match leads[field.symbol as usize] {
        Lead::To(target) => Ok(target),
        Lead::Removed => {
            if input.text(section_of(input, field).name) == b".eh_frame".as_slice() {
                Ok(Target::Gone)
            } else {
                Err(LinkFault::Removed { from })
            }
        }
        Lead::Undefined => {
            let symbol = &input.object.symbols.items()[field.symbol as usize];
            Err(LinkFault::Undefined {
                name: name_text(alloc, input.text(symbol.name))?,
                from,
            })
        }
    }
}

/// Where a field of input `i` stands.
fn field_at(i: u32, field: &RawField) -> FieldAt
    ensures { result ≡ from_of i field.now }
{
    FieldAt {
        input: i,
        section: field.rela,
        index: field.index,
    }
}

/// The field of a relocation entry, where its section is kept and its type isn't `R_X86_64_NONE`.
///
/// # Errors
///
/// The field's first fault: `Kind`, then `Removed` or `Undefined`, and in a library `NotFixed` and `ReadOnlyField`.
fn kept_field(
    alloc: Global,
    kit: KitKind,
    i: u32,
    input: &Input,
    field: &RawField,
    table: &PieceTable,
    leads: &[Lead],
) -> Result<Option<Field>, LinkFault>
    requires fits { IsFit input.now }
    requires field { IsFitField input.now.object field.now }
    requires leads { length leads.now ≡ length input.now.object.symbols }
    ensures ok { IfOk result (λ f. option_to_list f ≡ field_by table.now leads.now input.now i field.now) }
    ensures sound { OnOk result (faults_by kit table.now leads.now input.now i field.now ≡ []) }
    ensures err { IfErr result (λ e. (e ≡ LinkFault.NoMemory) ⊎ (slice_get (faults_by kit table.now leads.now input.now i field.now) 0 ≡ Some e)) }
{
    let piece = match table.items().get(field.section as usize) {
        Some(Some(piece)) => *piece,
        _ => return Ok(None),
    };
    if field.kind == R_X86_64_NONE {
        return Ok(None);
    }
    linked_field(alloc, kit, i, input, field, piece, leads).map(Some)
}

/// The field of a relocation entry whose section has this piece.
///
/// # Errors
///
/// The field's first fault, as `kept_field`.
fn linked_field(
    alloc: Global,
    kit: KitKind,
    i: u32,
    input: &Input,
    field: &RawField,
    piece: u32,
    leads: &[Lead],
) -> Result<Field, LinkFault>
    requires fits { IsFit input.now }
    requires field { IsFitField input.now.object field.now }
    requires leads { length leads.now ≡ length input.now.object.symbols }
    ensures ok { IfOk result (λ f. f ≡ field_in leads.now input.now piece i field.now) }
    ensures sound { OnOk result (linked_faults kit leads.now input.now i field.now ≡ []) }
    ensures err { IfErr result (λ e. (e ≡ LinkFault.NoMemory) ⊎ (slice_get (linked_faults kit leads.now input.now i field.now) 0 ≡ Some e)) }
{
    let from = field_at(i, field);
    let Some(kind) = relocation_type(field.kind) else {
        return Err(LinkFault::Kind {
            from,
            number: field.kind,
        });
    };
    let target = target(alloc, i, input, field, leads)?;
    let class = class_of(section_of(input, field));
    if let Some(fault) = loader_fault(kit, from, class, &kind, target) {
        return Err(fault);
    }
    Ok(Field {
        from,
        piece,
        offset: field.offset,
        kind: field.kind as u8,
        addend: field.addend,
        target,
    })
}

/// Adds the fields of input `i`, whose pieces are in the table and whose symbols lead so.
///
/// # Errors
///
/// The first fault of the input's fields, by relocation section and entry.
fn push_fields(
    alloc: Global,
    fields: &mut Vec<Field>,
    kit: &Kit,
    inputs: &[Input],
    i: usize,
    table: &PieceTable,
    leads: &[Lead],
) -> Result<(), LinkFault>
    requires inputs { AreFit inputs.now }
    requires input { i < length inputs.now }
    requires table { table.now ≡ piece_table kit.now inputs.now i }
    requires leads { leads.now ≡ leads_of kit.now inputs.now i }
    ensures ok { OnOk result (fields.new.items ≡ fields.old.items ++ input_fields kit.now inputs.now i (input_at inputs.now i)) }
    ensures sound { OnOk result (input_faults kit.now inputs.now i (input_at inputs.now i) ≡ []) }
    ensures err { IfErr result (λ e. (e ≡ LinkFault.NoMemory) ⊎ (slice_get (input_faults kit.now inputs.now i (input_at inputs.now i)) 0 ≡ Some e)) }
{
    let input = &inputs[i];
    for field in input.object.fields.items() {
        if let Some(kept) = kept_field(alloc, kit.kind, i as u32, input, field, table, leads)? {
            fields.push(kept)?;
        }
    }
    Ok(())
}

/// How many relocation entries the inputs have.
fn entry_count(inputs: &[Input]) -> usize
    requires { AreFit inputs.now }
    ensures { result ≡ sum_by (λ x. length x.object.fields) inputs.now }
{
    let mut count = 0;
    for input in inputs {
        count += input.object.fields.items().len();
    }
    count
}

/// The fields of a kit, by input, relocation section and entry. The kit's pieces are in the tables; each name has its target.
///
/// # Errors
///
/// The first fault of a field in that order.
pub fn fields(
    alloc: Global,
    kit: &Kit,
    inputs: &[Input],
    tables: &[PieceTable],
    numbering: &Numbering<'_>,
    targets: &[Option<Target>],
) -> Result<Vec<Field>, LinkFault>
    requires inputs { AreFit inputs.now }
    requires tables { tables.now ≡ piece_tables kit.now inputs.now }
    requires numbered { AreNumbered (occurrences inputs.now) numbering.now.index numbering.now.numbers.items }
    requires targets { targets.now ≡ map (named_target kit.now inputs.now) numbering.now.index }
    ensures ok { IfOk result (λ v. v.items ≡ fields_of kit.now inputs.now) }
    ensures sound { OnOk result (all_field_faults kit.now inputs.now ≡ []) }
    ensures err { IfErr result (λ e. (e ≡ LinkFault.NoMemory) ⊎ (slice_get (all_field_faults kit.now inputs.now) 0 ≡ Some e)) }
{
    let mut fields = Vec::with_capacity(alloc, entry_count(inputs))?;
    let mut next = 0;
    for (i, table) in tables.iter().enumerate() {
        let input = input_leads(alloc, kit, inputs, numbering, targets, table, i, next)?;
        push_fields(alloc, &mut fields, kit, inputs, i, table, &input.leads)?;
        next = input.next;
    }
    Ok(fields)
}
