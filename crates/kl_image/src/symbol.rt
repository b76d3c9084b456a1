// The names of an image's symbols.
ghost use Rattle.std.specs.Prelude.{◌≡◌, option_map};
ghost use Rattle.kl_model.specs.Loaded.{name_in};
ghost use Rattle.kl_image.specs.Symbols.{IsSymbols};

use crate::string::Strings;
use kl_elf::Sym;

/// The symbols that the dynamic section of an image names.
#[derive(Drop)]
pub(crate) struct Symbols<'a> {
    pub(crate) bytes: &'a [u8],
    /// How many there are, by the hash table.
    pub(crate) count: u64,
    /// The place of their table in the file.
    pub(crate) table: Option<usize>,
    /// The strings that their names stand in.
    pub(crate) strings: Strings<'a>,
}

impl<'a> Symbols<'a> {
    /// The name of a symbol, where it and its name lie in the tables.
    pub(crate) fn name(&self, symbol: u64) -> Option<&'a [u8]>
        requires { IsSymbols self.now }
        ensures { option_map (λ n. n.now) result ≡ name_in self.now.bytes.now symbol }
    {
        if symbol >= self.count {
            return None;
        }
        match self.table {
            Some(at) => {
                let place = at + Sym::SIZE * symbol as usize;
                self.strings
                    .text(Sym::read(self.bytes, place).name as usize)
            }
            None => None,
        }
    }
}
