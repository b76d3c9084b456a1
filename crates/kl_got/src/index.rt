// Targets by number.
ghost use Rattle.std.specs.Prelude.{◌≡◌, ◌<◌, ◌^◌, [], false, length, AllPairs, Some, IfOk, OnErr, OnOk};
ghost use Rattle.kl_model.specs.Slots.{same_target};
ghost use Rattle.kl_got.specs.Numbered.{number_of, with_target};

use kl_base::NoMemory;
use kl_model::{Target, Targets};
use std::alloc::Global;
use std::collections::HashMap;
use std::marker::Model;

/// Targets, each once, numbered from 0 in the order in which they came first, as the slots of a global offset table are. Contracts
/// see it as their list.
#[derive(Drop)]
pub struct SlotIndex {
    targets: Vec<Target>,
    numbers: HashMap<Target, u32>,
}

impl Model for SlotIndex {
    ghost use Rattle.std.specs.Prelude.{◌≡◌, List};
    ghost use Rattle.std.specs.HashMap.{get};
    ghost use Rattle.kl_got.specs.Numbered.{number_of, same_value};
    ghost use Rattle.kl_model.specs.declared.graph.Target.{Target};

    ghost Value = { List Target };

    ghost view = { λ a. a.targets.items };

    ghost invariant = { λ a. (q : Target) → get same_value a.numbers q ≡ number_of a.targets.items q };
}

impl SlotIndex {
    /// No targets. Takes no memory.
    pub fn new(alloc: Global) -> Self
        ensures { result ≡ [] }
    {
        SlotIndex {
            targets: Vec::new(alloc),
            numbers: HashMap::new(alloc),
        }
    }

    /// The index of targets that stand once each. The only error is want of memory.
    pub fn of(alloc: Global, targets: &[Target]) -> Result<Self, NoMemory>
        requires apart { AllPairs (λ x y. same_target x y ≡ false) targets.now }
        requires few { length targets.now < 2 ^ 32 }
        ensures { IfOk result (λ a. a ≡ targets.now) }
    {
        let mut index = SlotIndex {
            targets: Vec::with_capacity(alloc, targets.len())?,
            numbers: HashMap::with_capacity(alloc, targets.len())?,
        };
        for target in targets {
            index.number(*target)?;
        }
        Ok(index)
    }

    /// The targets in order of number.
    pub fn into_targets(self) -> Targets
        ensures { result ≡ self }
    {
        let SlotIndex { targets, .. } = self;
        Targets::from_vec(targets)
    }

    /// The number of a target, if it has one.
    pub fn find(&self, target: Target) -> Option<u32>
        ensures { result ≡ number_of self.now target }
    {
        self.numbers.get(&target).copied()
    }

    /// The number of a target, a new one where the target is new. Where memory runs out the targets stay as they were.
    pub fn number(&mut self, target: Target) -> Result<u32, NoMemory>
        requires { length self.old < 2 ^ 32 }
        ensures targets { OnOk result (self.new ≡ with_target self.old target) }
        ensures number { IfOk result (λ n. number_of self.new target ≡ Some n) }
        ensures err { OnErr result (self.new ≡ self.old) }
    {
        if let Some(number) = self.numbers.get(&target) {
            return Ok(*number);
        }
        let number = self.targets.len() as u32;
        self.targets.push(target)?;
        match self.numbers.insert(target, number) {
            Ok(_) => Ok(number),
            Err(_) => {
                self.targets.pop();
                Err(NoMemory)
            }
        }
    }
}
