// The inputs in the order in which they stand.
ghost use Rattle.std.specs.Prelude.{◌≡◌, ◌≤◌, length, IfOk};
ghost use Rattle.kl_model.specs.Line.{inputs_in};
ghost use Rattle.kl_model.specs.Orders.{drawn_count, IsOrder};
ghost use Rattle.kl_layout.specs.Once.{later_inputs};
ghost use Rattle.kl_base.specs.declared.limits.TheConstants.{INPUT_COUNT_LIMIT};

use kl_base::NoMemory;
use kl_model::{Graph, Part};
use std::alloc::Global;

/// The numbers of the inputs of a part of the kit.
pub(crate) fn inputs_of(alloc: Global, graph: &Graph, place: Part) -> Result<Vec<u32>, NoMemory>
    requires { length graph.now.parts ≤ INPUT_COUNT_LIMIT }
    ensures { IfOk result (λ v. v.items ≡ inputs_in graph.now place) }
{
    let mut inputs = Vec::new(alloc);
    for (input, part) in graph.parts.items().iter().enumerate() {
        if *part == place {
            inputs.push(input as u32)?;
        }
    }
    Ok(inputs)
}

/// The inputs behind the head inputs: drawn inputs in the order given, tail inputs.
pub(crate) fn later_inputs(
    alloc: Global,
    graph: &Graph,
    order: &[u32],
) -> Result<Vec<u32>, NoMemory>
    requires inputs { length graph.now.parts ≤ INPUT_COUNT_LIMIT }
    requires order { IsOrder (drawn_count graph.now.parts) order.now }
    ensures { IfOk result (λ v. v.items ≡ later_inputs graph.now order.now) }
{
    let drawn = inputs_of(alloc, graph, Part::Drawn)?;
    let tail = inputs_of(alloc, graph, Part::Tail)?;
    let mut inputs = Vec::with_capacity(alloc, drawn.len() + tail.len())?;
    for number in order {
        inputs.push(drawn[*number as usize])?;
    }
    inputs.extend_from_slice(&tail)?;
    Ok(inputs)
}
