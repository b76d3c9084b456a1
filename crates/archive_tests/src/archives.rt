// Reading archives in tests.
use kl_ar::{ArError, ArFault, Member, members};
use kl_base::Range;
use std::alloc::Global;
use std::test::Fail;

/// A member that is expected: its name, the place of the name, and where its bytes start and how many they are.
#[derive(Clone, Copy)]
pub(crate) struct Row {
    pub(crate) name: &'static [u8],
    pub(crate) at: u64,
    pub(crate) start: u64,
    pub(crate) len: u64,
}

/// Whether these and no others are the members of an archive.
pub(crate) fn has_members(alloc: Global, bytes: &[u8], rows: &[Row]) -> Result<bool, Fail> {
    let Ok(found) = members(alloc, bytes) else {
        return Err("an archive".into());
    };
    Ok(
        found.len() == rows.len()
            && found
                .iter()
                .zip(rows)
                .all(|(member, row)| is_member(bytes, member, row)),
    )
}

fn is_member(bytes: &[u8], member: &Member, row: &Row) -> bool {
    let name = Range {
        at: row.at,
        len: row.name.len() as u64,
    };
    let Some(from_name) = bytes.get(row.at as usize..) else {
        return false;
    };
    from_name.starts_with(row.name)
        && member.name == name
        && (member.start, member.len) == (row.start, row.len)
}

/// The first fault of an archive that has one.
pub(crate) fn fault(alloc: Global, bytes: &[u8]) -> Result<ArFault, Fail> {
    match members(alloc, bytes) {
        Ok(_) => Err("a fault".into()),
        Err(ArError::Flaw(fault)) => Ok(fault),
        Err(ArError::NoMemory) => Err("memory".into()),
    }
}
