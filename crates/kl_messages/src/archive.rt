// The fault of an archive, in words.
use kl_ar::ArFault;
use kl_base::NoMemory;
use std::fmt::Write;

/// Tells the fault of an archive.
pub fn tell_archive(text: &mut String, fault: &ArFault) -> Result<(), NoMemory> {
    match fault {
        ArFault::Magic => write!(text, "no archive: it doesn't begin with '!<arch>'")?,
        ArFault::Thin => write!(
            text,
            "a thin archive, which only names its members: 'ar rcs' without 'T' makes one that holds them"
        )?,
        ArFault::Truncated { at } => write!(
            text,
            "the archive's member at {at:#x} passes the end of the file, which may be cut short"
        )?,
        ArFault::Header { at } => write!(
            text,
            "the archive has no end of a member's header at {at:#x}: make it again with 'ar rcs'"
        )?,
        ArFault::SizeText { at } => write!(
            text,
            "the archive has no decimal size of a member at {at:#x}: make it again with 'ar rcs'"
        )?,
        ArFault::LongName { at } => write!(
            text,
            "the name of the archive's member at {at:#x} isn't in the archive: make it again with 'ar rcs'"
        )?,
    }
    Ok(())
}
