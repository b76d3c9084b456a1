// Resolution, from the text of a kit and the bytes of its objects to the link graph.
ghost use Rattle.std.specs.Prelude.{◌≡◌, ◌≤◌, All, AllPairs, IfOk};
ghost use Rattle.kernel_tests.specs.Small.{IsSmall};
ghost use Rattle.kl_model.specs.Fit.{IsFit, IsKit};
ghost use Rattle.kl_model.specs.Kept.{part_number};
ghost use Rattle.kl_model.specs.declared.kit.KitKind.TheVariants.{Kernel};

use crate::kernels::inputs;
use crate::objects::{
    ABSENT, COMMON4, COMMON16, ENDS, ETEXT, ETEXT_COMMON, GROUP, INSIDE, LOCORE, OTHER, WEAK, X,
};
use kl_base::Class;
use kl_kit::read_kit;
use kl_model::area::{BSS, FIRST_RUN, TEXT};
use kl_model::{FieldAt, Graph, Input, Kit, KitKind, LinkFault, NameText, PieceId, Target};
use kl_sym::resolve;
use std::alloc::Global;
use std::test::Fail;

/// The kit of a text with these lines behind those that each kernel's text has, but for the entry.
pub(crate) fn kit(alloc: Global, lines: &[u8]) -> Result<Kit, Fail>
    ensures form { IfOk result IsKit }
    ensures kernel { IfOk result (λ kit. kit.kind ≡ Kernel) }
{
    let mut text = Vec::from_slice(alloc, b"kind kernel\noutput /bsd\nhead locore.o\n")?;
    text.extend_from_slice(lines)?;
    if text.len() > 4096 {
        return Err(Fail::from("a long text"));
    }
    let Ok(kit) = read_kit(alloc, &text) else {
        return Err(Fail::from("no kit"));
    };
    if kit.kind != KitKind::Kernel {
        return Err(Fail::from("no kernel's kit"));
    }
    Ok(kit)
}

/// The graph of a kit and its inputs.
pub(crate) fn resolved_of(
    alloc: Global,
    kit: &Kit,
    inputs: &[Input],
) -> Result<Result<Graph, LinkFault>, Fail>
    requires form { IsKit kit.now }
    requires fit { All IsFit inputs.now }
    requires small { All IsSmall inputs.now }
    requires places { AllPairs (λ x y. part_number x.place ≤ part_number y.place) inputs.now }
{
    if inputs.len() > 301 {
        return Err(Fail::from("many objects"));
    }
    Ok(resolve(alloc, kit, inputs))
}

/// The graph of a kit with these lines and objects, the first of them the head.
fn resolved(
    alloc: Global,
    lines: &[u8],
    objects: &[&[u8]],
) -> Result<Result<Graph, LinkFault>, Fail> {
    let kit = kit(alloc, lines)?;
    let inputs = inputs(alloc, objects)?;
    resolved_of(alloc, &kit, &inputs)
}

/// Whether a kit has a graph of so many pieces, whose fields lead to these targets.
fn leads_to(
    alloc: Global,
    lines: &[u8],
    objects: &[&[u8]],
    pieces: usize,
    targets: &[Target],
) -> Result<bool, Fail> {
    let graph = resolved(alloc, lines, objects)?.ok().ok_or("a graph")?;
    let mut found = Vec::new(alloc);
    for field in graph.fields.items() {
        found.push(field.target)?;
    }
    Ok(graph.pieces.items().len() == pieces && found.as_slice() == targets)
}

/// Whether a kit has this fault.
fn has_fault(
    alloc: Global,
    lines: &[u8],
    objects: &[&[u8]],
    expected: LinkFault,
) -> Result<bool, Fail> {
    match resolved(alloc, lines, objects)? {
        Ok(_) => Err(Fail::from("a kit without a fault")),
        Err(fault) => Ok(fault == expected),
    }
}

/// The place at an offset of a piece.
pub(crate) fn place(piece: u32, offset: u64) -> Target {
    Target::Place { piece, offset }
}

pub(crate) fn name(alloc: Global, bytes: &[u8]) -> Result<NameText, Fail> {
    Ok(NameText::from_vec(Vec::from_slice(alloc, bytes)?))
}

/// The first field of a relocation section of an input.
pub(crate) fn first_field(input: u32, section: u32) -> FieldAt {
    FieldAt {
        input,
        section,
        index: 0,
    }
}

const START: &[u8] = b"entry start\n";

#[test]
fn takes_the_first_weak_definition(rt: HostRuntime) -> Result<(), Fail> {
    let objects = [LOCORE, WEAK, WEAK];
    assert!(rt; leads_to(rt.alloc(), START, &objects, 5, &[place(2, 0), place(2, 0)])?);
    Ok(())
}

#[test]
fn joins_commons(rt: HostRuntime) -> Result<(), Fail> {
    let alloc = rt.alloc();
    let objects = [LOCORE, COMMON4, COMMON16, WEAK];
    let common = place(5, 0);
    assert!(rt; leads_to(alloc, START, &objects, 6, &[common, common, common])?);
    let graph = resolved(alloc, START, &objects)?.ok().ok_or("a graph")?;
    match graph.pieces.items().last() {
        Some(piece) => {
            assert_eq!(rt; (piece.id, piece.class), (PieceId::Common(0), Class::Bss));
            assert_eq!(rt; (piece.area, piece.size, piece.align), (BSS, 16, 8));
        }
        None => return Err(Fail::from("no piece")),
    }
    Ok(())
}

#[test]
fn takes_a_global_definition_before_a_common(rt: HostRuntime) -> Result<(), Fail> {
    let alloc = rt.alloc();
    assert!(rt; leads_to(alloc, START, &[LOCORE, COMMON4, X], 3, &[place(2, 0)])?);
    Ok(())
}

#[test]
fn keeps_the_first_group_of_a_signature(rt: HostRuntime) -> Result<(), Fail> {
    let alloc = rt.alloc();
    let thunk = place(2, 0);
    let expected = [thunk, place(2, 1), thunk, Target::Gone];
    assert!(rt; leads_to(alloc, START, &[LOCORE, GROUP, GROUP], 6, &expected)?);
    let from = first_field(2, 3);
    let removed = LinkFault::Removed { from };
    assert!(rt; has_fault(alloc, START, &[LOCORE, GROUP, INSIDE], removed)?);
    let undefined = LinkFault::Undefined {
        name: name(alloc, b"other")?,
        from,
    };
    assert!(rt; has_fault(alloc, START, &[LOCORE, GROUP, OTHER], undefined)?);
    Ok(())
}

#[test]
fn takes_zero_for_an_undefined_weak_name(rt: HostRuntime) -> Result<(), Fail> {
    let alloc = rt.alloc();
    let zero = [Target::Zero];
    assert!(rt; leads_to(alloc, START, &[LOCORE, ABSENT], 2, &zero)?);
    let lines = b"entry start\ndrop .text.x\n";
    assert!(rt; leads_to(alloc, lines, &[LOCORE, WEAK], 2, &zero)?);
    Ok(())
}

#[test]
fn leads_to_edges_that_nothing_defines(rt: HostRuntime) -> Result<(), Fail> {
    let alloc = rt.alloc();
    let etext = Target::Edge {
        area: TEXT,
        end: true,
    };
    let x_start = Target::Edge {
        area: FIRST_RUN,
        end: false,
    };
    let lines = b"entry start\nedge etext text end\nrun .text.x text x_start x_end\n";
    let expected = [etext, x_start, place(3, 0)];
    assert!(rt; leads_to(alloc, lines, &[LOCORE, ENDS, WEAK], 4, &expected)?);
    let lines = b"entry start\nedge x text end\n";
    assert!(rt; leads_to(alloc, lines, &[LOCORE, WEAK], 3, &[place(2, 0)])?);
    Ok(())
}

#[test]
fn names_an_edge_that_is_defined(rt: HostRuntime) -> Result<(), Fail> {
    let alloc = rt.alloc();
    let lines = b"entry start\nedge etext text end\n";
    for object in [ETEXT, ETEXT_COMMON] {
        let clash = LinkFault::EdgeClash {
            name: name(alloc, b"etext")?,
        };
        assert!(rt; has_fault(alloc, lines, &[LOCORE, object], clash)?);
    }
    Ok(())
}

#[test]
fn names_an_entry_without_a_definition(rt: HostRuntime) -> Result<(), Fail> {
    let alloc = rt.alloc();
    let missing = LinkFault::NoEntry {
        name: name(alloc, b"x_end")?,
    };
    assert!(rt; has_fault(alloc, b"entry x_end\n", &[LOCORE, WEAK], missing)?);
    Ok(())
}
