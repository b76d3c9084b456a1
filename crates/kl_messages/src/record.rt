// The kernel and the record of its digest.
use kl_base::NoMemory;
use kl_digest::RecordFault;
use kl_jobs::RecordCause;
use std::fmt;
use std::fmt::Write;

/// A digest as its 64 lower-case digits.
#[derive(Clone, Copy, Debug)]
struct Digits<'a>(&'a [u8; 32]);

impl fmt::Display for Digits<'_> {
    fn fmt<W: fmt::Write>(&self, f: &mut fmt::Formatter<W>) -> fmt::Result {
        for byte in self.0.iter() {
            write!(f, "{byte:02x}")?;
        }
        Ok(())
    }
}

/// Tells why the kernel's record isn't read, and how it is made.
pub fn tell_record(text: &mut String, cause: &RecordCause) -> Result<(), NoMemory> {
    write!(text, "/var/db/kernel.SHA256: ")?;
    match cause {
        RecordCause::Absent => write!(text, "no such file")?,
        RecordCause::Flaw(fault) => tell_record_fault(text, fault)?,
    }
    write!(
        text,
        "\nrelink: it has to be the line 'SHA256 (/bsd) = ' with the 64 digits of the digest of /bsd behind it, as OpenBSD's 'sha256 /bsd >/var/db/kernel.SHA256' writes it"
    )?;
    Ok(())
}

/// Tells the first flaw of a record. Its bytes are counted from 1.
fn tell_record_fault(text: &mut String, fault: &RecordFault) -> Result<(), NoMemory> {
    match fault {
        RecordFault::Length { found } => write!(
            text,
            "it has {found} bytes, and a record has 80, or 81 with the end of its line"
        )?,
        RecordFault::Text { place } => {
            let number = place.saturating_add(1);
            write!(
                text,
                "it doesn't begin with 'SHA256 (/bsd) = ': byte {number} is another one"
            )?;
        }
        RecordFault::Digit { place } => {
            let number = place.saturating_add(1);
            write!(text, "byte {number} is no hexadecimal digit")?;
        }
        RecordFault::End => write!(
            text,
            "its last byte, behind the digits, isn't the end of its line"
        )?,
    }
    Ok(())
}

/// Tells that the kernel isn't the one that its record names, by the digest of the record and that of the kernel, and what helps.
pub fn tell_mismatch(
    text: &mut String,
    recorded: &[u8; 32],
    found: &Option<[u8; 32]>,
) -> Result<(), NoMemory> {
    let recorded = Digits(recorded);
    match found {
        Some(found) => {
            let found = Digits(found);
            write!(
                text,
                "/bsd isn't the kernel that /var/db/kernel.SHA256 names: its digest is {found}, and the record has {recorded}\n\
                 relink: if it is the one that is meant, OpenBSD's 'sha256 /bsd >/var/db/kernel.SHA256' writes its record anew; else put the old one back"
            )?;
        }
        None => write!(
            text,
            "/bsd: no such file\n\
             relink: put the kernel back that /var/db/kernel.SHA256 names: its digest is {recorded}"
        )?,
    }
    Ok(())
}
