// What is wrong with the name of a file or a folder.
use kl_base::{NameFault, NoMemory};
use std::fmt::Write;

/// What is wrong with a name, behind the word that names it.
pub fn tell_name(text: &mut String, name: &[u8], fault: NameFault) -> Result<(), NoMemory> {
    match fault {
        NameFault::Empty => write!(text, "is empty")?,
        NameFault::TooLong => write!(text, "is too long")?,
        NameFault::NotAbsolute => {
            write!(
                text,
                "doesn't begin with a slash, as in '/kit' for the folder kit"
            )?;
        }
        NameFault::BadByte => {
            write!(
                text,
                "has a byte that is no printable character of ASCII, or is a space"
            )?;
        }
        NameFault::EmptyPart if name.ends_with(b"/") => write!(
            text,
            "ends with a slash: leave it out"
        )?,
        NameFault::EmptyPart => write!(text, "has two slashes together")?,
        NameFault::DotPart => write!(text, "has a part '.' or '..': name it without")?,
    }
    Ok(())
}
