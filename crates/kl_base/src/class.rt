// Small types that several crates name.

/// The class of a section by its flags, which decides the segment that it goes to.
#[derive(Clone, Copy, Debug, PartialEq, Eq)]
pub enum Class {
    /// Executable.
    Text,
    /// Neither writable nor executable.
    Rodata,
    /// Writable, with bytes in the file.
    Rwdata,
    /// Writable, without bytes in the file.
    Bss,
}

/// Where the intent of an installation stands, one for each job.
#[derive(Clone, Copy, Debug, PartialEq, Eq)]
pub enum Slot {
    Kernel,
    Libs,
}

/// A place in the bytes of a file: `len` bytes from `at` on.
#[derive(Clone, Copy, Debug, PartialEq, Eq)]
pub struct Range {
    pub at: u64,
    pub len: u64,
}
