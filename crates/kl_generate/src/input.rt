// The inputs of a kernel's kit that is made in memory.
ghost use Rattle.std.specs.Prelude.{◌≡◌, ◌≤◌, ◌<◌, All, IfOk};
ghost use Rattle.kl_model.specs.Fit.{AreFit, IsFit};
ghost use Rattle.kl_generate.specs.Made.{AreMade};
ghost use Rattle.kl_generate.specs.MadeRead.{made_input, made_inputs};
ghost use Rattle.kl_generate.specs.declared.limits.TheConstants.{MADE_LIMIT};

use crate::kit::made_place;
use crate::object::made_object;
use kl_base::{Listed, NoMemory};
use kl_model::Input;
use kl_rel::{ReadError, read_object};
use std::alloc::Global;

/// An object of a made kit, read from its bytes. The only error is want of memory.
fn made_input(alloc: Global, count: u32, number: u32) -> Result<Input, NoMemory>
    requires few { count ≤ MADE_LIMIT }
    requires number { number < count }
    ensures input { IfOk result (λ x. x ≡ made_input count number) }
    ensures fit { IfOk result IsFit }
{
    let bytes = made_object(alloc, count, number)?;
    let object = match read_object(alloc, &bytes) {
        Ok(object) => object,
        Err(ReadError::NoMemory) => return Err(NoMemory),
        // no made object has a flaw
        Err(ReadError::Flaw(_)) => unreachable!(),
    };
    Ok(Input {
        place: made_place(number),
        bytes: Listed::from_vec(bytes),
        object,
    })
}

/// The objects of a made kit, in kit order.
fn input_list(alloc: Global, count: u32) -> Result<Vec<Input>, NoMemory>
    requires few { count ≤ MADE_LIMIT }
    ensures inputs { IfOk result (λ v. v.items ≡ made_inputs count) }
    ensures fit { IfOk result (λ v. All IsFit v.items) }
{
    let mut inputs = Vec::with_capacity(alloc, count as usize)?;
    for number in 0..count {
        inputs.push(made_input(alloc, count, number)?)?;
    }
    Ok(inputs)
}

/// The inputs of the kit of a kernel of `count` objects, read from the objects' bytes. They are fit to be linked. The only error is want
/// of memory.
pub fn made_inputs(alloc: Global, count: u32) -> Result<Vec<Input>, NoMemory>
    requires some { 1 ≤ count }
    requires few { count ≤ MADE_LIMIT }
    ensures inputs { IfOk result (λ v. v.items ≡ made_inputs count) }
    ensures made { IfOk result (λ v. AreMade count v.items) }
    ensures fit { IfOk result (λ v. AreFit v.items) }
{
    let inputs = input_list(alloc, count)?;
    Ok(inputs)
}
