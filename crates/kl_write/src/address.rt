// The addresses of targets.
ghost use Rattle.std.specs.Prelude.{◌≡◌, ◌<◌, ◌≤◌, length};
ghost use Rattle.kl_model.specs.Leads.{address_of as address_of_target};
ghost use Rattle.kl_write.specs.Targets.{IsPlacedTarget};

use kl_model::{Graph, Placement, Target};

/// The address of a target (psABI, S), modulo 2^64.
pub fn address_of(graph: &Graph, placement: &Placement, target: Target) -> u64
    requires { IsPlacedTarget graph.now placement.now target }
    ensures { result ≡ address_of_target placement.now graph.now target }
{
    match target {
        Target::Place { piece, offset } => placement.pieces.items()[piece as usize]
            .address
            .wrapping_add(offset),
        Target::Abs(number) => number,
        Target::Edge { area, end: false } => placement.areas.items()[area as usize].start,
        Target::Edge { area, end: true } => placement.areas.items()[area as usize].end,
        Target::Name(_) | Target::Zero | Target::Gone => 0,
    }
}
