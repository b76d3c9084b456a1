// The names of relocation types.
use std::fmt;

/// The names of the psABI's relocation types behind `R_X86_64_`, by number ("Relocation Types").
const NAMES: [&str; 43] = [
    "NONE",
    "64",
    "PC32",
    "GOT32",
    "PLT32",
    "COPY",
    "GLOB_DAT",
    "JUMP_SLOT",
    "RELATIVE",
    "GOTPCREL",
    "32",
    "32S",
    "16",
    "PC16",
    "8",
    "PC8",
    "DTPMOD64",
    "DTPOFF64",
    "TPOFF64",
    "TLSGD",
    "TLSLD",
    "DTPOFF32",
    "GOTTPOFF",
    "TPOFF32",
    "PC64",
    "GOTOFF64",
    "GOTPC32",
    "GOT64",
    "GOTPCREL64",
    "GOTPC64",
    "GOTPLT64",
    "PLTOFF64",
    "SIZE32",
    "SIZE64",
    "GOTPC32_TLSDESC",
    "TLSDESC_CALL",
    "TLSDESC",
    "IRELATIVE",
    "RELATIVE64",
    "PC32_BND",
    "PLT32_BND",
    "GOTPCRELX",
    "REX_GOTPCRELX",
];

/// The relocation type of a number, by its name where it has one.
#[derive(Clone, Copy, Debug)]
pub struct TypeName(pub u32);

impl fmt::Display for TypeName {
    fn fmt<W: fmt::Write>(&self, f: &mut fmt::Formatter<W>) -> fmt::Result {
        let number = self.0;
        match NAMES.get(number as usize) {
            Some(name) => write!(f, "R_X86_64_{name}"),
            None => write!(f, "relocation type {number}"),
        }
    }
}
