// The kit of a folder, and its inputs, one file after another.
ghost use Rattle.std.specs.Prelude.{List, ◌≡◌, ◌≢◌, ◌<◌, ◌≤◌, ◌+◌, ◌++◌, ◌∷◌, ◌⊎◌, ◌==◌, ◌^◌, [], None, Some, All, AllPairs, filter, length, map, IfOk, IfErr, IfSome, OnOk, IsErrOf};
ghost use Rattle.std.specs.List.{AllByRecursion};
ghost use Rattle.std.specs.Option.{ForSome};
ghost use Rattle.kl_base.specs.Names.{name_fault};
ghost use Rattle.kl_base.specs.declared.limits.TheConstants.{FILE_LIMIT, INPUT_LIMIT};
ghost use Rattle.kl_store.specs.Calls.{Rose, Stays};
ghost use Rattle.kl_ar.specs.Fields.{bytes_at};
ghost use Rattle.kl_ar.specs.Grammar.{IsWithin};
ghost use Rattle.kl_model.specs.Fit.{AreFit, IsFit, IsKit};
ghost use Rattle.kl_model.specs.Kept.{part_number};
ghost use Rattle.kl_model.specs.declared.kit.KitKind.TheVariants.{Kernel};
ghost use Rattle.kl_kit.specs.Forms.{HasFile};
ghost use Rattle.kl_batch.specs.declared.names.TheConstants.{KERNEL};
ghost use Rattle.kl_model.specs.declared.object.Input.{Input};
ghost use Rattle.kl_rel.specs.Objects.{flaw, object};
ghost use Rattle.kl_jobs.specs.Reading.{Counts, below, bytes_refusal, each_refusal, input_of, input_refusal, inputs_in, inputs_of, kind_refusal, kit_in, kit_order as lines_in_kit_order, lines_of, lines_refusal, member_input, over, over_totals, text_refusal};
ghost use Rattle.kl_jobs.specs.Reading.{is_archive as is_archive_of};
ghost use Rattle.kl_jobs.specs.Refusals.{IsRefusal, Refuses};

use crate::cause::{Cause, KitCause, ObjectCause, TotalOf};
use crate::files::{file_in, read_file};
use kl_ar::{ArError, Member, members};
use kl_base::{
    FIELD_COUNT_LIMIT, INPUT_BYTES_LIMIT, INPUT_COUNT_LIMIT, INPUT_LIMIT, KIT_TEXT_LIMIT, Listed,
    Name, NoMemory, SECTION_COUNT_LIMIT, SYMBOL_COUNT_LIMIT,
};
use kl_kit::{KitError, read_kit};
use kl_model::{Input, Kit, KitInput, KitKind, Object, Part, Word};
use kl_rel::{LimitError, read_object_within};
use kl_store::Store;
use std::alloc::Global;

/// The kit that a folder's text says, where one of a kind is wanted or one of either.
///
/// # Errors
///
/// `Kit` where there is no text, or it is too long, or with its first fault, or where it isn't of the kind that is wanted.
pub fn read_text<S: Store>(
    alloc: Global,
    dir: &Name,
    wanted: Option<KitKind>,
    store: &mut S,
) -> Result<Kit, Cause>
    requires { length dir.now ≤ FILE_LIMIT }
    ensures reads { IfOk result (λ kit. ForSome (S.meaning store.old).names (λ m. kit ≡ kit_in m dir.now)) }
    ensures stands { OnOk result (ForSome (S.meaning store.old).names (λ m. text_refusal wanted m dir.now ≡ None)) }
    ensures form { IfOk result IsKit }
    ensures kind { IfOk result (λ kit. kind_refusal wanted kit.kind ≡ None) }
    ensures output { IfOk result (λ kit. kit.kind ≡ Kernel → kit.output ≡ KERNEL) }
    ensures inputs { IfOk result (λ kit. AllByRecursion HasFile kit.inputs) }
    ensures refused { IfErr result (Refuses (S.meaning store.old) (λ m. text_refusal wanted m dir.now)) }
    ensures refusal { IfErr result IsRefusal }
    ensures failed { IsErrOf result Cause.Store → Rose (S.faults store.old) (S.faults store.new) }
    ensures faults { S.faults store.old ≤ S.faults store.new }
    ensures still { Stays (S.meaning store.old) (S.meaning store.new) }
{
    let text = read_file(alloc, store, &file_in(dir, b"link.conf"), KIT_TEXT_LIMIT)?;
    let kit = match read_kit(alloc, &text) {
        Ok(kit) => kit,
        Err(KitError::NoMemory) => return Err(Cause::NoMemory),
        Err(KitError::Fault(fault)) => return Err(Cause::Kit(KitCause::Text(fault))),
    };
    match kind_refusal(wanted, kit.kind) {
        None => Ok(kit),
        Some(cause) => Err(cause),
    }
}

/// Why a kit of this kind isn't taken where one of a kind is wanted, or one of either: it is of the other.
fn kind_refusal(wanted: Option<KitKind>, kind: KitKind) -> Option<Cause>
    ensures kind { result ≡ kind_refusal wanted kind }
    ensures refusal { IfSome result IsRefusal }
    ensures no_store { IfSome result (λ c. c ≢ Cause.Store) }
{
    match (wanted, kind) {
        (None, _)
        | (Some(KitKind::Kernel), KitKind::Kernel)
        | (Some(KitKind::Library), KitKind::Library) => None,
        _ => Some(Cause::Kit(KitCause::Kind)),
    }
}

/// Adds a copy of each line of a part.
fn push_lines(
    alloc: Global,
    ordered: &mut Vec<KitInput>,
    lines: &[KitInput],
    part: Part,
) -> Result<(), NoMemory>
    ensures { OnOk result (ordered.new.items ≡ ordered.old.items ++ lines_of part lines.now) }
{
    for line in lines {
        if line.place == part {
            ordered.push(KitInput {
                place: line.place,
                file: Word::from_vec(Vec::from_slice(alloc, line.file.items())?),
                line: line.line,
            })?;
        }
    }
    Ok(())
}

/// The input lines in kit order: those of the head, the drawn ones, those of the tail.
pub fn kit_order(alloc: Global, lines: &[KitInput]) -> Result<Vec<KitInput>, NoMemory>
    ensures { IfOk result (λ v. v.items ≡ lines_in_kit_order lines.now) }
{
    let mut ordered = Vec::with_capacity(alloc, lines.len())?;
    push_lines(alloc, &mut ordered, lines, Part::Head)?;
    push_lines(alloc, &mut ordered, lines, Part::Drawn)?;
    push_lines(alloc, &mut ordered, lines, Part::Tail)?;
    Ok(ordered)
}

/// How much some inputs have.
#[derive(Clone, Copy)]
struct Totals {
    inputs: usize,
    bytes: usize,
    sections: usize,
    symbols: usize,
    fields: usize,
}

/// The inputs of these lines below a folder, in their order.
///
/// # Errors
///
/// The first refusal, line by line: `Kit` where a file is absent or too long, `Object` with the first fault of an archive; and then input by
/// input `Object` with its first flaw, `Kit` where it takes the kit past a limit.
pub fn read_inputs<S: Store>(
    alloc: Global,
    store: &mut S,
    dir: &Name,
    lines: &[KitInput],
) -> Result<Vec<Input>, Cause>
    requires dir { length dir.now ≤ FILE_LIMIT }
    requires files { All (λ k. length k.file ≤ FILE_LIMIT) lines.now }
    requires names { All (λ k. name_fault (47 ∷ k.file) ≡ None) lines.now }
    ensures reads { IfOk result (λ v. ForSome (S.meaning store.old).names (λ m. v.items ≡ inputs_in m dir.now lines.now)) }
    ensures stands { OnOk result (ForSome (S.meaning store.old).names (λ m. lines_refusal m dir.now [] lines.now ≡ None)) }
    ensures fit { IfOk result (λ v. All IsFit v.items) }
    ensures within { IfOk result (λ v. over v.items ≡ None) }
    ensures places { IfOk result (λ v. AllPairs (λ j k. part_number j.place ≤ part_number k.place) lines.now → AllPairs (λ x y. part_number x.place ≤ part_number y.place) v.items) }
    ensures refused { IfErr result (Refuses (S.meaning store.old) (λ m. lines_refusal m dir.now [] lines.now)) }
    ensures refusal { IfErr result IsRefusal }
    ensures failed { IsErrOf result Cause.Store → Rose (S.faults store.old) (S.faults store.new) }
    ensures faults { S.faults store.old ≤ S.faults store.new }
    ensures still { Stays (S.meaning store.old) (S.meaning store.new) }
{
    let mut inputs = Vec::new(alloc);
    let mut totals = Totals {
        inputs: 0,
        bytes: 0,
        sections: 0,
        symbols: 0,
        fields: 0,
    };
    for line in lines {
        let name = file_in(dir, line.file.items());
        let bytes = read_file(alloc, store, &name, INPUT_LIMIT)?;
        push_file(alloc, line, bytes, &mut inputs, &mut totals)?;
    }
    Ok(inputs)
}

/// Reads the inputs of a line, whose file has these bytes, and adds them to those before them.
fn push_file(
    alloc: Global,
    line: &KitInput,
    bytes: Vec<u8>,
    inputs: &mut Vec<Input>,
    totals: &mut Totals,
) -> Result<(), Cause>
    requires short { length bytes.items ≤ INPUT_LIMIT }
    requires counts { Counts inputs.old.items totals.old.inputs totals.old.bytes totals.old.sections totals.old.symbols totals.old.fields }
    requires within { over inputs.old.items ≡ None }
    requires fits { All IsFit inputs.old.items }
    ensures push { OnOk result (inputs.new.items ≡ inputs.old.items ++ inputs_of line.now.place bytes.items) }
    ensures counts { OnOk result (Counts inputs.new.items totals.new.inputs totals.new.bytes totals.new.sections totals.new.symbols totals.new.fields) }
    ensures within { OnOk result (over inputs.new.items ≡ None) }
    ensures fit { OnOk result (All IsFit inputs.new.items) }
    ensures stands { OnOk result (bytes_refusal line.now.line inputs.old.items line.now.place bytes.items ≡ None) }
    ensures refused { IfErr result (λ c. (c ≡ Cause.NoMemory) ⊎ (bytes_refusal line.now.line inputs.old.items line.now.place bytes.items ≡ Some c)) }
    ensures refusal { IfErr result IsRefusal }
    ensures no_store { IfErr result (λ c. c ≢ Cause.Store) }
{
    if !is_archive(&bytes) {
        return push_input(alloc, line, bytes, inputs, totals);
    }
    let members = match members(alloc, &bytes) {
        Ok(members) => members,
        Err(ArError::NoMemory) => return Err(Cause::NoMemory),
        Err(ArError::Flaw(fault)) => {
            return Err(Cause::Object {
                input: totals.inputs as u32,
                line: line.line,
                fault: ObjectCause::Ar(fault),
            });
        }
    };
    push_members(alloc, line, &bytes, &members, inputs, totals)
}

/// Reads these members of a line's archive, and adds them to the inputs before them.
fn push_members(
    alloc: Global,
    line: &KitInput,
    bytes: &[u8],
    members: &[Member],
    inputs: &mut Vec<Input>,
    totals: &mut Totals,
) -> Result<(), Cause>
    requires short { length bytes.now ≤ INPUT_LIMIT }
    requires inside { All (IsWithin bytes.now) members.now }
    requires counts { Counts inputs.old.items totals.old.inputs totals.old.bytes totals.old.sections totals.old.symbols totals.old.fields }
    requires within { over inputs.old.items ≡ None }
    requires fits { All IsFit inputs.old.items }
    ensures push { OnOk result (inputs.new.items ≡ inputs.old.items ++ map (member_input line.now.place bytes.now) members.now) }
    ensures counts { OnOk result (Counts inputs.new.items totals.new.inputs totals.new.bytes totals.new.sections totals.new.symbols totals.new.fields) }
    ensures within { OnOk result (over inputs.new.items ≡ None) }
    ensures fit { OnOk result (All IsFit inputs.new.items) }
    ensures stands { OnOk result (each_refusal line.now.line inputs.old.items (map (member_input line.now.place bytes.now) members.now) ≡ None) }
    ensures refused { IfErr result (λ c. (c ≡ Cause.NoMemory) ⊎ (each_refusal line.now.line inputs.old.items (map (member_input line.now.place bytes.now) members.now) ≡ Some c)) }
    ensures refusal { IfErr result IsRefusal }
    ensures no_store { IfErr result (λ c. c ≢ Cause.Store) }
{
    for member in members {
        let object = bytes_of(alloc, bytes, member)?;
        push_input(alloc, line, object, inputs, totals)?;
    }
    Ok(())
}

/// A copy of the bytes of a member.
fn bytes_of(alloc: Global, bytes: &[u8], member: &Member) -> Result<Vec<u8>, NoMemory>
    requires { IsWithin bytes.now member.now }
    ensures bytes { IfOk result (λ v. v.items ≡ bytes_at bytes.now member.now.start member.now.len) }
    ensures short { IfOk result (λ v. length v.items ≤ length bytes.now) }
{
    let start = member.start as usize;
    let copy = Vec::from_slice(alloc, &bytes[start..start + member.len as usize])?;
    Ok(copy)
}

/// Reads an input of a line, which has these bytes, and adds it to those before it.
fn push_input(
    alloc: Global,
    line: &KitInput,
    bytes: Vec<u8>,
    inputs: &mut Vec<Input>,
    totals: &mut Totals,
) -> Result<(), Cause>
    requires short { length bytes.items ≤ INPUT_LIMIT }
    requires counts { Counts inputs.old.items totals.old.inputs totals.old.bytes totals.old.sections totals.old.symbols totals.old.fields }
    requires within { over inputs.old.items ≡ None }
    requires fits { All IsFit inputs.old.items }
    ensures push { OnOk result (inputs.new.items ≡ inputs.old.items ++ input_of line.now.place bytes.items ∷ []) }
    ensures counts { OnOk result (Counts inputs.new.items totals.new.inputs totals.new.bytes totals.new.sections totals.new.symbols totals.new.fields) }
    ensures within { OnOk result (over inputs.new.items ≡ None) }
    ensures fit { OnOk result (All IsFit inputs.new.items) }
    ensures stands { OnOk result (input_refusal line.now.line inputs.old.items (input_of line.now.place bytes.items) ≡ None) }
    ensures refused { IfErr result (λ c. (c ≡ Cause.NoMemory) ⊎ (input_refusal line.now.line inputs.old.items (input_of line.now.place bytes.items) ≡ Some c)) }
    ensures refusal { IfErr result IsRefusal }
    ensures no_store { IfErr result (λ c. c ≢ Cause.Store) }
{
    let object = read_input(alloc, line, &bytes, totals)?;
    let input = Input {
        place: line.place,
        bytes: Listed::from_vec(bytes),
        object,
    };
    let more = with_input(totals, &input);
    if let Some(what) = over_limit(&more) {
        return Err(Cause::Kit(KitCause::Total {
            what,
            line: line.line,
        }));
    }
    inputs.push(input)?;
    *totals = more;
    Ok(())
}

/// The object of an input of a line, behind inputs that have so much.
///
/// # Errors
///
/// `Object` with its first flaw, and `Kit` where it has more relocation entries than a kit may have: these take no memory then.
fn read_input(
    alloc: Global,
    line: &KitInput,
    bytes: &[u8],
    totals: &Totals,
) -> Result<Object, Cause>
    requires short { length bytes.now ≤ INPUT_LIMIT }
    requires inputs_fit { totals.now.inputs < 2 ^ 32 }
    requires bytes_fit { totals.now.bytes ≤ 2 ^ 32 }
    requires sections_fit { totals.now.sections ≤ 2 ^ 32 }
    requires symbols_fit { totals.now.symbols ≤ 2 ^ 32 }
    ensures object { IfOk result (λ o. o ≡ object bytes.now) }
    ensures sound { OnOk result (flaw bytes.now ≡ None) }
    ensures fit { IfOk result (λ o. (x : Input) → x.bytes ≡ bytes.now → x.object ≡ o → IsFit x) }
    ensures refused { (before : List Input) → Counts before totals.now.inputs totals.now.bytes totals.now.sections totals.now.symbols totals.now.fields → IfErr result (λ c. (c ≡ Cause.NoMemory) ⊎ (input_refusal line.now.line before (input_of line.now.place bytes.now) ≡ Some c)) }
    ensures refusal { IfErr result IsRefusal }
    ensures no_store { IfErr result (λ c. c ≢ Cause.Store) }
{
    match read_object_within(alloc, bytes, FIELD_COUNT_LIMIT as u64) {
        Ok(object) => Ok(object),
        Err(LimitError::NoMemory) => Err(Cause::NoMemory),
        Err(LimitError::Flaw(fault)) => Err(Cause::Object {
            input: totals.inputs as u32,
            line: line.line,
            fault: ObjectCause::Elf(fault),
        }),
        Err(LimitError::TooManyFields { sections, symbols }) => {
            let more = Totals {
                inputs: totals.inputs + 1,
                bytes: totals.bytes + bytes.len(),
                sections: totals.sections + sections,
                symbols: totals.symbols + symbols,
                fields: FIELD_COUNT_LIMIT + 1,
            };
            let what = over_limit(&more).unwrap_or(TotalOf::Fields);
            Err(Cause::Kit(KitCause::Total {
                what,
                line: line.line,
            }))
        }
    }
}

/// Whether bytes are those of an archive, a thin one among them.
fn is_archive(bytes: &[u8]) -> bool
    ensures { result ≡ is_archive_of bytes.now }
{
    bytes.starts_with(b"!<arch>\n") || bytes.starts_with(b"!<thin>\n")
}

/// What the inputs have with one more.
fn with_input(totals: &Totals, input: &Input) -> Totals
    requires inputs_fit { totals.now.inputs ≤ 2 ^ 32 }
    requires bytes_fit { totals.now.bytes ≤ 2 ^ 32 }
    requires sections_fit { totals.now.sections ≤ 2 ^ 32 }
    requires symbols_fit { totals.now.symbols ≤ 2 ^ 32 }
    requires fields_fit { totals.now.fields ≤ 2 ^ 32 }
    ensures inputs { result.inputs ≡ totals.now.inputs + 1 }
    ensures bytes { result.bytes ≡ totals.now.bytes + length input.now.bytes }
    ensures sections { result.sections ≡ totals.now.sections + length input.now.object.sections }
    ensures symbols { result.symbols ≡ totals.now.symbols + length input.now.object.symbols }
    ensures fields { result.fields ≡ totals.now.fields + length input.now.object.fields }
{
    let object = &input.object;
    Totals {
        inputs: totals.inputs + 1,
        bytes: totals.bytes + input.bytes.items().len(),
        sections: totals.sections + object.sections.items().len(),
        symbols: totals.symbols + object.symbols.items().len(),
        fields: totals.fields + object.fields.items().len(),
    }
}

/// What the inputs have too much of for a kit.
fn over_limit(totals: &Totals) -> Option<TotalOf>
    ensures { result ≡ over_totals totals.now.inputs totals.now.bytes totals.now.sections totals.now.symbols totals.now.fields }
{
    if totals.inputs > INPUT_COUNT_LIMIT {
        Some(TotalOf::Inputs)
    } else if totals.bytes as u64 > INPUT_BYTES_LIMIT {
        Some(TotalOf::Bytes)
    } else if totals.sections > SECTION_COUNT_LIMIT {
        Some(TotalOf::Sections)
    } else if totals.symbols > SYMBOL_COUNT_LIMIT {
        Some(TotalOf::Symbols)
    } else if totals.fields > FIELD_COUNT_LIMIT {
        Some(TotalOf::Fields)
    } else {
        None
    }
}
