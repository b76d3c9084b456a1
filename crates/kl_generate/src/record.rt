// Symbols and relocation entries as bytes.
ghost use Rattle.std.specs.Prelude.{◌≡◌, length};
ghost use Rattle.kl_model.specs.Written.{rela_bytes, sym_bytes};

use kl_elf::{Rela, Sym};

/// Writes a symbol over all bytes.
fn put_symbol(bytes: &mut [u8], symbol: &Sym)
    requires room { length bytes.old ≡ Sym.SIZE }
    ensures { bytes.new ≡ sym_bytes symbol.now }
{
    symbol.write(bytes, 0);
}

/// The bytes of a symbol.
pub fn symbol_bytes(symbol: &Sym) -> [u8; Sym::SIZE]
    ensures { result ≡ sym_bytes symbol.now }
{
    let mut bytes = [0; Sym::SIZE];
    put_symbol(&mut bytes, symbol);
    bytes
}

/// Writes a relocation entry over all bytes.
fn put_entry(bytes: &mut [u8], entry: &Rela)
    requires room { length bytes.old ≡ Rela.SIZE }
    ensures { bytes.new ≡ rela_bytes entry.now }
{
    entry.write(bytes, 0);
}

/// The bytes of a relocation entry.
pub fn entry_bytes(entry: &Rela) -> [u8; Rela::SIZE]
    ensures { result ≡ rela_bytes entry.now }
{
    let mut bytes = [0; Rela::SIZE];
    put_entry(&mut bytes, entry);
    bytes
}
