// The symbols of the dynamic names (gABI, "Symbol Table").
ghost use Rattle.std.specs.Prelude.{ℕ, List, Option, ◌≡◌, ◌<◌, ◌^◌, ◌++◌, All, IfSome, None, OnOk, flat_map};
ghost use Rattle.std.specs.Option.{option_map_or};
ghost use Rattle.kl_model.specs.Leads.{address_of as address_of_target};
ghost use Rattle.kl_model.specs.Sizes.{names_size};
ghost use Rattle.kl_model.specs.Sound.{IsSoundGraph, IsSoundName, IsSoundTarget};
ghost use Rattle.kl_model.specs.Tables.{section_number, sym_of, symbols_of};
ghost use Rattle.kl_model.specs.Written.{sym_bytes};
ghost use Rattle.kl_model.specs.declared.kit.Kit.{Kit};
ghost use Rattle.kl_model.specs.declared.kit.KitKind.TheVariants.{Library};
ghost use Rattle.kl_write.specs.LaidKits.{HasAreaAddresses, IsLaidKit};
ghost use Rattle.kl_write.specs.Targets.{IsPlacedTarget};

use crate::bytes::push_sym;
use kl_base::NoMemory;
use kl_elf::Sym;
use kl_elf::abi::{SHN_ABS, SHN_UNDEF, STB_GLOBAL, STB_WEAK};
use kl_model::area::class_number;
use kl_model::{DynName, Graph, Placement, Target};
use kl_write::address_of;

/// Symbol 0, which stands for no symbol.
const NO_SYM: Sym = Sym {
    name: 0,
    info: 0,
    other: 0,
    shndx: SHN_UNDEF,
    value: 0,
    size: 0,
};

/// The section number of a name: that of its class, from 1 to 4, or `SHN_ABS`; an imported name has none.
fn section_number(graph: &Graph, exported: Option<Target>) -> u16
    requires { (kit : Kit) × IfSome exported (IsSoundTarget kit graph.now) }
    ensures { result ≡ section_number graph.now exported }
{
    match exported {
        Some(Target::Place { piece, .. }) => {
            1 + class_number(graph.pieces.items()[piece as usize].class) as u16
        }
        Some(Target::Abs(_)) => SHN_ABS,
        _ => SHN_UNDEF,
    }
}

/// The value of a name: the address of its target, or 0 for an imported name.
fn symbol_value(graph: &Graph, placement: &Placement, exported: Option<Target>) -> u64
    requires { IfSome exported (IsPlacedTarget graph.now placement.now) }
    ensures { result ≡ option_map_or (address_of_target placement.now graph.now) exported 0 }
{
    match exported {
        Some(target) => address_of(graph, placement, target),
        None => 0,
    }
}

/// The symbol of a dynamic name whose text stands at a place of the strings.
fn symbol(graph: &Graph, placement: &Placement, at: u32, name: &DynName) -> Sym
    requires sound { (kit : Kit) × IsSoundName kit graph.now name.now }
    requires placed { IfSome name.now.exported (IsPlacedTarget graph.now placement.now) }
    ensures { result ≡ sym_of placement.now graph.now at name.now }
{
    let binding = if name.weak { STB_WEAK } else { STB_GLOBAL };
    Sym {
        name: at,
        info: 16 * binding + name.kind,
        other: name.visibility,
        shndx: section_number(graph, name.exported),
        value: symbol_value(graph, placement, name.exported),
        size: name.size,
    }
}

/// Pushes symbol 0 and the symbols of the dynamic names.
fn push_all(bytes: &mut Vec<u8>, graph: &Graph, placement: &Placement) -> Result<(), NoMemory>
    requires sound { (kit : Kit) × IsSoundGraph kit graph.now }
    requires placed { All (λ d. IfSome d.exported (IsPlacedTarget graph.now placement.now)) graph.now.names }
    requires small { names_size graph.now < 2 ^ 32 }
    ensures { OnOk result (bytes.new.items ≡ bytes.old.items ++ flat_map sym_bytes (symbols_of placement.now graph.now)) }
{
    push_sym(bytes, &NO_SYM)?;
    let mut at = 1;
    for name in graph.names.items() {
        push_sym(bytes, &symbol(graph, placement, at as u32, name))?;
        at += 1 + name.name.len;
    }
    Ok(())
}

/// Pushes the symbols of a library's dynamic names. The placement lays out its kit.
pub fn push_symbols(
    bytes: &mut Vec<u8>,
    graph: &Graph,
    placement: &Placement,
) -> Result<(), NoMemory>
    requires laid { (kit : Kit) × (order : List ℕ) × (kit.kind ≡ Library) × IsLaidKit kit graph.now None order placement.now }
    requires addresses { HasAreaAddresses placement.now }
    ensures { OnOk result (bytes.new.items ≡ bytes.old.items ++ flat_map sym_bytes (symbols_of placement.now graph.now)) }
{
    push_all(bytes, graph, placement)
}
