//! What a loader makes of a library's image.
#![tactic(auto)]

ghost use Rattle.kl_loading.specs.CarriedOut.{EntriesCarriedOut};
ghost use Rattle.kl_loading.specs.ExportsFound.{ExportsFound};
ghost use Rattle.kl_loading.specs.Reaching.{AreasAreSized, LibraryCarries, LibraryReaches};
ghost use Rattle.kl_loading.specs.TablesReadBack.{TablesReadBack};

/// The dynamic section and the tables of a library's file read as what was written: entries, symbols, names and relocation entries,
/// whatever the inputs, for each sound graph, order and placement that is laid out.
pub fn tables_read_back()
    ensures { TablesReadBack }
{}

/// The hash table of a library's file gives each text, of any bytes, the value of the first exported name with that text: where no two
/// names have the same text each exported name is found with its value, and a text that is that of no exported name isn't found (gABI,
/// "Hash Table").
pub fn exports_found()
    ensures { ExportsFound }
{}

/// The memory of an image that is loaded: where no two entries share a byte, the eight bytes of each entry are its value, and all
/// other bytes are those of the file, at every base and for every resolver of names.
pub fn entries_carried_out()
    ensures { EntriesCarriedOut }
{}

/// The areas that a linker makes in a library, stubs, tables, slots and the dynamic section, have as many bytes as they are laid out
/// with.
pub fn areas_are_sized()
    ensures { AreasAreSized }
{}

/// Each field of a library reaches its target once the library is loaded, at every base that its page allows and for every resolver of
/// names: where the file holds what it has to, no value is out of range and no field is refused.
pub fn library_reaches()
    ensures { LibraryReaches }
{}

/// The bytes that `image_byte` gives for each place of the file carry a library's graph, where no value is out of range and no field is
/// refused.
pub fn library_carries()
    ensures { LibraryCarries }
{}
