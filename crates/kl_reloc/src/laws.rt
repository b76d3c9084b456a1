// What is known of the values that fields can hold.
ghost use Rattle.kl_reloc.specs.ReadBack.{AreReadBack, AreSigned};

/// A value is in the range of its relocation type exactly where the field's bytes, read back with or without a sign as the type
/// has it, are the value again. Where the type's range is signed, these are the values that lie from `-2^(w-1)` up to `2^(w-1)`
/// as numbers of 64 bits with a sign, w being the field's width in bits.
pub fn read_back()
    ensures read_back { AreReadBack }
    ensures signed { AreSigned }
{}
