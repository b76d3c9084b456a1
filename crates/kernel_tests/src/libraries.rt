// Resolution of libraries, from the text of a kit and the bytes of its objects to the dynamic names and the targets of fields.
ghost use Rattle.std.specs.Prelude.{IfOk};
ghost use Rattle.kl_model.specs.Fit.{IsKit};

use crate::kernels::inputs;
use crate::objects::{ASKS, FAR, FROZEN, LOCORE, SHOWN, STRONG};
use crate::resolution::{first_field, name, place, resolved_of};
use kl_elf::abi::{STT_FUNC, STT_NOTYPE, STT_OBJECT, STV_DEFAULT, STV_PROTECTED};
use kl_kit::read_kit;
use kl_model::area::TEXT;
use kl_model::{DynName, Graph, Input, Kit, LinkFault, Target};
use std::alloc::Global;
use std::test::Fail;

/// What the dynamic symbol table says of a name.
#[derive(Clone, Copy)]
struct Shown {
    name: &'static [u8],
    exported: Option<Target>,
    weak: bool,
    visibility: u8,
    kind: u8,
    size: u64,
}

/// A GLOBAL name without a type.
fn global(name: &'static [u8], exported: Option<Target>) -> Shown {
    Shown {
        name,
        exported,
        weak: false,
        visibility: STV_DEFAULT,
        kind: STT_NOTYPE,
        size: 0,
    }
}

fn exported(name: &'static [u8], target: Target) -> Shown {
    global(name, Some(target))
}

fn imported(name: &'static [u8]) -> Shown {
    global(name, None)
}

/// The common `shared` in a piece, with its size in bytes.
fn shared(piece: u32, size: u64) -> Shown {
    Shown {
        kind: STT_OBJECT,
        size,
        ..exported(b"shared", place(piece, 0))
    }
}

/// The kit of a text with these lines behind those that each library's text has.
fn library(alloc: Global, lines: &[u8]) -> Result<Kit, Fail>
    ensures { IfOk result IsKit }
{
    let mut text = Vec::from_slice(
        alloc,
        b"kind library\noutput /usr/lib/libx.so.1.0\nobject a.o\n",
    )?;
    text.extend_from_slice(lines)?;
    if text.len() > 4096 {
        return Err(Fail::from("a long text"));
    }
    let Ok(kit) = read_kit(alloc, &text) else {
        return Err(Fail::from("no kit"));
    };
    Ok(kit)
}

/// The graph of a library with these lines and objects.
fn resolved(
    alloc: Global,
    lines: &[u8],
    objects: &[&[u8]],
) -> Result<Result<Graph, LinkFault>, Fail> {
    let kit = library(alloc, lines)?;
    let inputs = inputs(alloc, objects)?;
    resolved_of(alloc, &kit, &inputs)
}

/// Whether a dynamic name is as expected.
fn is_shown(inputs: &[Input], found: &DynName, expected: &Shown) -> bool {
    let Some(input) = inputs.get(found.input as usize) else {
        return false;
    };
    input.text(found.name) == expected.name
        && found.exported == expected.exported
        && found.weak == expected.weak
        && found.visibility == expected.visibility
        && found.kind == expected.kind
        && found.size == expected.size
}

/// Whether a library with these lines and objects has these dynamic names.
fn lists(alloc: Global, lines: &[u8], objects: &[&[u8]], expected: &[Shown]) -> Result<bool, Fail> {
    let kit = library(alloc, lines)?;
    let inputs = inputs(alloc, objects)?;
    let graph = resolved_of(alloc, &kit, &inputs)?.ok().ok_or("a graph")?;
    let names = graph.names.items();
    if names.len() != expected.len() {
        return Ok(false);
    }
    for (i, found) in names.iter().enumerate() {
        if !is_shown(&inputs, found, &expected[i]) {
            return Ok(false);
        }
    }
    Ok(true)
}

/// Whether the fields of a library with these lines and objects lead to these targets.
fn leads_to(
    alloc: Global,
    lines: &[u8],
    objects: &[&[u8]],
    targets: &[Target],
) -> Result<bool, Fail> {
    let graph = resolved(alloc, lines, objects)?.ok().ok_or("a graph")?;
    let mut found = Vec::new(alloc);
    for field in graph.fields.items() {
        found.push(field.target)?;
    }
    Ok(found.as_slice() == targets)
}

/// Whether a library with these lines and objects has this fault.
fn has_fault(
    alloc: Global,
    lines: &[u8],
    objects: &[&[u8]],
    expected: LinkFault,
) -> Result<bool, Fail> {
    match resolved(alloc, lines, objects)? {
        Ok(_) => Err(Fail::from("a library without a fault")),
        Err(fault) => Ok(fault == expected),
    }
}

/// `alpha` of `SHOWN`, the first object.
fn alpha() -> Shown {
    Shown {
        kind: STT_FUNC,
        size: 1,
        ..exported(b"alpha", place(0, 1))
    }
}

/// `protected` of `SHOWN`, the first object.
fn protected() -> Shown {
    Shown {
        visibility: STV_PROTECTED,
        ..exported(b"protected", place(0, 5))
    }
}

/// `weak` of `SHOWN`, the first object.
fn weak() -> Shown {
    Shown {
        weak: true,
        ..exported(b"weak", place(0, 6))
    }
}

/// `absent` of `ASKS`.
fn absent() -> Shown {
    Shown {
        weak: true,
        ..imported(b"absent")
    }
}

#[test]
fn exports_names_in_ascending_bytes(rt: HostRuntime) -> Result<(), Fail> {
    let alloc = rt.alloc();
    let alphabet = exported(b"alphabet", place(0, 2));
    let beta = exported(b"beta", place(0, 0));
    let expected = [alpha(), alphabet, beta, protected(), shared(2, 4), weak()];
    assert!(rt; lists(alloc, b"", &[SHOWN], &expected)?);
    Ok(())
}

#[test]
fn leads_to_names_that_can_be_replaced(rt: HostRuntime) -> Result<(), Fail> {
    let alloc = rt.alloc();
    let (guarded, hidden) = (place(0, 5), place(0, 3));
    let replaceable = [Target::Name(0), guarded, hidden];
    assert!(rt; leads_to(alloc, b"", &[SHOWN], &replaceable)?);
    let fixed = [place(0, 1), guarded, hidden];
    assert!(rt; leads_to(alloc, b"symbolic\n", &[SHOWN], &fixed)?);
    Ok(())
}

#[test]
fn exports_what_the_kit_names(rt: HostRuntime) -> Result<(), Fail> {
    let alloc = rt.alloc();
    let lines = b"export protected\nexport beta\nexport hidden\nexport nothing\n";
    let expected = [exported(b"beta", place(0, 0)), protected()];
    assert!(rt; lists(alloc, lines, &[SHOWN], &expected)?);
    let fixed = [place(0, 1), place(0, 5), place(0, 3)];
    assert!(rt; leads_to(alloc, lines, &[SHOWN], &fixed)?);
    Ok(())
}

#[test]
fn imports_names_that_fields_use(rt: HostRuntime) -> Result<(), Fail> {
    let alloc = rt.alloc();
    let expected = [
        absent(),
        alpha(),
        exported(b"alphabet", place(0, 2)),
        exported(b"beta", place(0, 0)),
        imported(b"etext"),
        imported(b"lost"),
        imported(b"printf"),
        protected(),
        shared(5, 16),
        weak(),
    ];
    assert!(rt; lists(alloc, b"", &[SHOWN, ASKS], &expected)?);
    let targets = [
        Target::Name(1),
        place(0, 5),
        place(0, 3),
        Target::Name(6),
        Target::Name(0),
        Target::Name(4),
        Target::Name(5),
    ];
    assert!(rt; leads_to(alloc, b"", &[SHOWN, ASKS], &targets)?);
    Ok(())
}

#[test]
fn imports_no_name_of_a_dropped_section(rt: HostRuntime) -> Result<(), Fail> {
    let alloc = rt.alloc();
    let lines = b"drop .data.y\n";
    let expected = [
        absent(),
        imported(b"etext"),
        imported(b"printf"),
        shared(2, 16),
    ];
    assert!(rt; lists(alloc, lines, &[ASKS], &expected)?);
    Ok(())
}

#[test]
fn imports_a_name_as_global_where_one_symbol_is(rt: HostRuntime) -> Result<(), Fail> {
    let alloc = rt.alloc();
    let lines = b"export none\ndrop .data.y\n";
    let expected = [imported(b"absent"), imported(b"etext"), imported(b"printf")];
    for objects in [[ASKS, STRONG], [STRONG, ASKS]] {
        assert!(rt; lists(alloc, lines, &objects, &expected)?);
    }
    Ok(())
}

#[test]
fn exports_no_edge(rt: HostRuntime) -> Result<(), Fail> {
    let alloc = rt.alloc();
    let lines = b"edge etext text end\nexport etext\nexport shared\ndrop .data.y\n";
    let expected = [absent(), imported(b"printf"), shared(2, 16)];
    assert!(rt; lists(alloc, lines, &[ASKS], &expected)?);
    let etext = Target::Edge {
        area: TEXT,
        end: true,
    };
    let targets = [Target::Name(1), Target::Name(0), etext];
    assert!(rt; leads_to(alloc, lines, &[ASKS], &targets)?);
    Ok(())
}

#[test]
fn refuses_what_is_undefined(rt: HostRuntime) -> Result<(), Fail> {
    let alloc = rt.alloc();
    let undefined = LinkFault::Undefined {
        name: name(alloc, b"printf")?,
        from: first_field(0, 3),
    };
    assert!(rt; has_fault(alloc, b"undefined refuse\n", &[ASKS], undefined)?);
    let lines = b"undefined refuse\nedge printf text start\nedge etext text end\ndrop .data.y\n";
    let printf = Target::Edge {
        area: TEXT,
        end: false,
    };
    let etext = Target::Edge {
        area: TEXT,
        end: true,
    };
    assert!(rt; leads_to(alloc, lines, &[ASKS], &[printf, Target::Zero, etext])?);
    assert!(rt; lists(alloc, lines, &[ASKS], &[shared(2, 16)])?);
    Ok(())
}

#[test]
fn names_a_field_that_depends_on_the_base(rt: HostRuntime) -> Result<(), Fail> {
    let alloc = rt.alloc();
    let moving = LinkFault::NotFixed {
        from: first_field(0, 2),
    };
    assert!(rt; has_fault(alloc, b"", &[FAR], moving)?);
    let replaceable = LinkFault::NotFixed {
        from: first_field(1, 2),
    };
    assert!(rt; has_fault(alloc, b"", &[LOCORE, FAR], replaceable)?);
    assert!(rt; leads_to(alloc, b"symbolic\n", &[LOCORE, FAR], &[place(0, 0)])?);
    Ok(())
}

#[test]
fn names_a_field_outside_data(rt: HostRuntime) -> Result<(), Fail> {
    let alloc = rt.alloc();
    let outside = LinkFault::ReadOnlyField {
        from: first_field(0, 3),
    };
    assert!(rt; has_fault(alloc, b"", &[FROZEN], outside)?);
    Ok(())
}
