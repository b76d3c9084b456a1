// The edges that a kit names, in the order of its lines.
ghost use Rattle.std.specs.Prelude.{◌≡◌, ◌++◌, ◌<◌, ◌≤◌, All, length, slice_index_or, take, IfOk, OnOk};
ghost use Rattle.kl_model.specs.Names.{edge_names as names_of_edges};
ghost use Rattle.kl_model.specs.declared.kit.EdgeLine.{EdgeLine};
ghost use Rattle.kl_names.specs.EdgeLines.{AreEdgeLines, names_given};
ghost use Rattle.kl_names.specs.Edges.{shown};

use crate::edges::EdgeName;
use kl_base::NoMemory;
use kl_model::area::FIRST_RUN;
use kl_model::{EdgeLine, Kit, Target};
use std::alloc::Global;

/// Adds the names of these lines.
fn push_lines<'a>(names: &mut Vec<EdgeName<'a>>, lines: &'a [EdgeLine]) -> Result<(), NoMemory>
    ensures { OnOk result (shown names.new.items ≡ shown names.old.items ++ names_given lines.now) }
{
    for line in lines {
        names.push(EdgeName {
            name: line.symbol.items(),
            target: Target::Edge {
                area: line.area,
                end: line.end,
            },
        })?;
    }
    Ok(())
}

/// How many of these lines come before line `number`, up to the first that doesn't.
fn count_before(lines: &[EdgeLine], number: u32) -> usize
    ensures count { result ≤ length lines.now }
    ensures before { All (λ e. e.line < number) (take result lines.now) }
    ensures after { (d : EdgeLine) → result < length lines.now → number ≤ (slice_index_or lines.now result d).line }
{
    for (count, line) in lines.iter().enumerate() {
        if line.line >= number {
            return count;
        }
    }
    lines.len()
}

/// The names that a kit gives to edges, in line order. The only error is want of memory.
pub fn edge_names<'a>(alloc: Global, kit: &'a Kit) -> Result<Vec<EdgeName<'a>>, NoMemory>
    requires { AreEdgeLines kit.now }
    ensures { IfOk result (λ e. shown e.items ≡ names_of_edges kit.now) }
{
    let mut names = Vec::new(alloc);
    let mut rest = kit.edges.items();
    for (k, run) in kit.runs.items().iter().enumerate() {
        let (before, after) = rest.split_at(count_before(rest, run.line));
        push_lines(&mut names, before)?;
        rest = after;
        let area = FIRST_RUN + k as u32;
        names.push(EdgeName {
            name: run.start.items(),
            target: Target::Edge { area, end: false },
        })?;
        names.push(EdgeName {
            name: run.end.items(),
            target: Target::Edge { area, end: true },
        })?;
    }
    push_lines(&mut names, rest)?;
    Ok(names)
}
