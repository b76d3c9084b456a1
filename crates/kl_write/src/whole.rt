// An image as a whole.
ghost use Rattle.std.specs.Prelude.{ℕ, List, ◌≡◌, map, IfOk};
ghost use Rattle.kl_model.specs.Image.{image_bytes};
ghost use Rattle.kl_model.specs.Leads.{filed_value};
ghost use Rattle.kl_model.specs.Tables.{made_bytes};
ghost use Rattle.kl_model.specs.declared.area.TheConstants as area;
ghost use Rattle.kl_write.specs.LaidKits.{HasAreaAddresses, HasMadeBytes, HaveSources, IsLaidKit, image_headers};

use crate::plan::{Plan, fill};
use crate::size::image_size;
use kl_base::NoMemory;
use kl_model::Input;
use std::alloc::Global;

/// All bytes of an image. The only error is want of memory.
pub fn image(alloc: Global, inputs: &[Input], plan: &Plan) -> Result<Vec<u8>, NoMemory>
    requires laid { (order : List ℕ) × IsLaidKit plan.now.kit.now plan.now.graph.now plan.now.gaps order plan.now.placement.now }
    requires addresses { HasAreaAddresses plan.now.placement.now }
    requires sources { HaveSources inputs.now plan.now.graph.now }
    requires head { plan.now.head.items ≡ image_headers plan.now.kit.now plan.now.placement.now plan.now.graph.now }
    requires sizes { HasMadeBytes plan.now.kit.now inputs.now plan.now.graph.now plan.now.placement.now }
    requires stubs { plan.now.made.stubs.items ≡ made_bytes plan.now.kit.now inputs.now plan.now.graph.now plan.now.placement.now area.STUBS }
    requires tables { plan.now.made.tables.items ≡ made_bytes plan.now.kit.now inputs.now plan.now.graph.now plan.now.placement.now area.TABLES }
    requires got { plan.now.made.got.items ≡ made_bytes plan.now.kit.now inputs.now plan.now.graph.now plan.now.placement.now area.GOT }
    requires dynamic { plan.now.made.dynamic.items ≡ made_bytes plan.now.kit.now inputs.now plan.now.graph.now plan.now.placement.now area.DYNAMIC }
    requires values { plan.now.values.items ≡ map (filed_value plan.now.kit.now plan.now.placement.now plan.now.graph.now) plan.now.graph.now.fields }
    ensures { IfOk result (λ v. v.items ≡ image_bytes plan.now.kit.now inputs.now plan.now.graph.now plan.now.gaps plan.now.placement.now) }
{
    let size = image_size(plan.kit, plan.graph, plan.placement, plan.head.len());
    let mut image = vec![in alloc; 0; size]?;
    fill(&mut image, 0, inputs, plan);
    Ok(image)
}
