// The words of faults.
use crate::HeadFault;
use std::fmt;

impl fmt::Display for HeadFault {
    fn fmt<W: fmt::Write>(&self, f: &mut fmt::Formatter<W>) -> fmt::Result {
        f.write_str(match self {
            HeadFault::Truncated => "the file is shorter than an ELF header, which has 64 bytes",
            HeadFault::Magic => "not an ELF file: it doesn't begin with the byte 7f and ELF",
            HeadFault::IdentClass => "not an ELF64 object",
            HeadFault::IdentOrder => "not a little-endian object",
            HeadFault::IdentVersion => "not of ELF version 1, by its ident",
            HeadFault::FileType => "not a relocatable object",
            HeadFault::Machine => "not an x86-64 object",
            HeadFault::FileVersion => "not of ELF version 1",
            HeadFault::HeadSize => "the size of its ELF header isn't 64 bytes",
            HeadFault::SectionSize => "the size of its section headers isn't 64 bytes",
        })
    }
}
