// Names by number.
ghost use Rattle.std.specs.Prelude.{◌≡◌, ◌<◌, ◌^◌, [], length, map, Some, IfOk, OnErr, OnOk};
ghost use Rattle.kl_names.specs.Numbers.{place_in, with_name};

use kl_base::NoMemory;
use std::alloc::Global;
use std::collections::HashMap;
use std::marker::Model;

/// Names, each once, numbered from 0 in the order in which they came first. Contracts see it as their list.
#[derive(Drop)]
pub struct NameIndex<'a> {
    names: Vec<&'a [u8]>,
    numbers: HashMap<&'a [u8], u32>,
}

impl<'a> Model for NameIndex<'a> {
    ghost use Rattle.std.specs.Prelude.{◌≡◌, ℕ, List, map};
    ghost use Rattle.std.specs.Str.{bytes_eq};
    ghost use Rattle.std.specs.HashMap.{get_by};
    ghost use Rattle.kl_names.specs.Numbers.{place_in};

    ghost Value = { List (List ℕ) };

    ghost view = { λ a. map (λ k. k.now) a.names.items };

    ghost invariant = { λ a. (q : List ℕ) → get_by (λ k. bytes_eq q k.now) a.numbers ≡ place_in (map (λ k. k.now) a.names.items) q };
}

impl<'a> NameIndex<'a> {
    /// No names. Takes no memory.
    pub fn new(alloc: Global) -> Self
        ensures { result ≡ [] }
    {
        NameIndex {
            names: Vec::new(alloc),
            numbers: HashMap::new(alloc),
        }
    }

    /// The names in order of number.
    pub fn names(&self) -> &[&'a [u8]]
        ensures { map (λ k. k.now) result.now ≡ self.now }
    {
        &self.names
    }

    /// The number of a name, if it has one.
    pub fn find(&self, name: &[u8]) -> Option<u32>
        ensures { result ≡ place_in self.now name.now }
    {
        self.numbers.get(name).copied()
    }

    /// The number of a name, a new one where the name is new. Where memory runs out the names stay as they were.
    pub fn number(&mut self, name: &'a [u8]) -> Result<u32, NoMemory>
        requires { length self.old < 2 ^ 32 }
        ensures names { OnOk result (self.new ≡ with_name self.old name.now) }
        ensures number { IfOk result (λ n. place_in self.new name.now ≡ Some n) }
        ensures err { OnErr result (self.new ≡ self.old) }
    {
        if let Some(number) = self.numbers.get(name) {
            return Ok(*number);
        }
        let number = self.names.len() as u32;
        self.names.push(name)?;
        match self.numbers.insert(name, number) {
            Ok(_) => Ok(number),
            Err(_) => {
                self.names.pop();
                Err(NoMemory)
            }
        }
    }
}
