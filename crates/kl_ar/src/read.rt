// The reader of archives.
ghost use Rattle.std.specs.Prelude.{◌≡◌, ◌<◌, ◌≤◌, ◌+◌, ◌++◌, [], List, All, length, nat_eq, nat_lt, slice_get, option_to_list, IfErr, IfOk, IfSome, OnOk};
ghost use Rattle.std.specs.List.{starts_with};
ghost use Rattle.std.specs.Result.{result_err};
ghost use Rattle.kl_ar.specs.Archives.{IsFirst, fault_if, faults, magic_faults, members_at, member_behind, members_of, name_faults, name_in, next_at, table_by};
ghost use Rattle.kl_ar.specs.Grammar.{AreRead, IsArchive, IsNameError, IsWhole, IsWithin, Stored};
ghost use Rattle.kl_ar.specs.Readers.{HasTable, IsHeader, IsTable, placed_at, table_place};
ghost use Rattle.kl_ar.specs.declared.fault.ArFault.TheVariants as fault;

use crate::fault::{ArError, ArFault};
use crate::field::without_end;
use crate::format::{HEADER_ALIGN, HEADER_LEN, MAGIC, MAGIC_LEN, THIN_MAGIC};
use crate::header::Header;
use crate::long_names::LongNames;
use crate::member::Member;
use crate::name::{NameForm, is_symdef};
use kl_base::Range;
use std::alloc::{AllocError, Global};

/// The members of an archive in file order. Symbol indices and tables of long names are none.
///
/// # Errors
///
/// The first fault of the bytes, with its place in the file, or want of memory.
pub fn members(alloc: Global, bytes: &[u8]) -> Result<Vec<Member>, ArError>
    ensures members { IfOk result (λ members. members.items ≡ members_of bytes.now) }
    ensures sound { OnOk result (faults bytes.now ≡ []) }
    ensures fault { IfErr result (IsFirst (faults bytes.now)) }

    // What is read without a fault is an archive as it is written, and of an archive that is so written nothing but a long name is
    // told.
    ensures whole { OnOk result (IsWhole bytes.now) }
    ensures read { (stored : List Stored) → IsArchive bytes.now stored → AreRead bytes.now stored }
    ensures names { IfErr result (λ e. (stored : List Stored) → IsArchive bytes.now stored → IsNameError e) }
    ensures within { IfOk result (λ members. All (IsWithin bytes.now) members.items) }
{
    read_members(alloc, bytes)
}

/// Reads header by header.
fn read_members(alloc: Global, bytes: &[u8]) -> Result<Vec<Member>, ArError>
    ensures members { IfOk result (λ members. members.items ≡ members_of bytes.now) }
    ensures sound { OnOk result (faults bytes.now ≡ []) }
    ensures fault { IfErr result (IsFirst (faults bytes.now)) }
    ensures within { IfOk result (λ members. All (IsWithin bytes.now) members.items) }
{
    check_magic(bytes)?;
    let mut members = Vec::new(alloc);
    let mut table = None;
    let mut at = MAGIC_LEN;
    while at < bytes.len() {
        let header = Header::read(bytes, at)?;
        let member = member_of(bytes, &header, &table)?;
        add(&mut members, member)?;
        table = table_behind(alloc, bytes, &header, table)?;
        at = next_place(bytes, &header);
    }
    Ok(members)
}

/// Checks what a file begins with.
#[tactic(auto, unfolding(crate::specs::Archives::magic_faults))]
fn check_magic(bytes: &[u8]) -> Result<(), ArFault>
    ensures { result_err result ≡ slice_get (magic_faults bytes.now) 0 }
{
    if bytes.starts_with(&THIN_MAGIC) {
        Err(ArFault::Thin)
    } else if bytes.starts_with(&MAGIC) {
        Ok(())
    } else {
        Err(ArFault::Magic)
    }
}

/// The member of a header, behind the last table of long names; `None` where it is a symbol index or such a table.
#[tactic(auto, unfolding(crate::specs::Archives::members_at, crate::specs::Archives::name_faults))]
fn member_of(
    bytes: &[u8],
    header: &Header,
    table: &Option<LongNames>,
) -> Result<Option<Member>, ArFault>
    requires header { IsHeader bytes.now header.now }
    requires table { HasTable bytes.now table.now }
    ensures member { IfOk result (λ member. option_to_list member ≡ members_at bytes.now (placed_at header.now table.now)) }
    ensures fault { result_err result ≡ slice_get (name_faults bytes.now (placed_at header.now table.now)) 0 }
    ensures within { IfOk result (λ member. IfSome member (IsWithin bytes.now)) }
{
    let at = header.at as u64;
    let name = match header.form {
        NameForm::SymbolIndex | NameForm::LongNames => return Ok(None),
        NameForm::InTable(place) => long_name(bytes, table, place),
        NameForm::InData(len) => return member_behind(bytes, header, len),
        NameForm::InField(len) => Some(Range {
            at,
            len: len as u64,
        }),
        NameForm::NoNumber => None,
    };
    match name {
        Some(name) => Ok(Some(Member {
            name,
            start: at + HEADER_LEN as u64,
            len: header.size as u64,
        })),
        None => Err(ArFault::LongName { at }),
    }
}

/// The name at a place of the table; `None` where there is no table, or no name.
fn long_name(bytes: &[u8], table: &Option<LongNames>, place: u64) -> Option<Range>
    requires { HasTable bytes.now table.now }
    ensures name { result ≡ name_in bytes.now (table_place table.now) place }
    ensures within { IfSome result (λ name. name.at + name.len ≤ length bytes.now) }
{
    match table {
        Some(names) => names.name(place),
        None => None,
    }
}

/// The member whose name is the first `len` bytes behind its header; `None` where that is the name of a symbol index.
fn member_behind(bytes: &[u8], header: &Header, len: u64) -> Result<Option<Member>, ArFault>
    requires { IsHeader bytes.now header.now }
    ensures member { IfOk result (λ member. option_to_list member ≡ member_behind bytes.now header.now.at len) }
    ensures fault { result_err result ≡ slice_get (fault_if (nat_lt header.now.size len) (fault.LongName header.now.at)) 0 }
    ensures within { IfOk result (λ member. IfSome member (IsWithin bytes.now)) }
{
    let size = header.size as u64;
    if len > size {
        return Err(ArFault::LongName {
            at: header.at as u64,
        });
    }
    let start = header.at + HEADER_LEN;
    let name = without_end(&bytes[start..start + len as usize], 0);
    if is_symdef(name) {
        return Ok(None);
    }
    Ok(Some(Member {
        name: Range {
            at: start as u64,
            len: name.len() as u64,
        },
        start: start as u64 + len,
        len: size - len,
    }))
}

/// Adds a member where there is one.
fn add(members: &mut Vec<Member>, member: Option<Member>) -> Result<(), AllocError>
    ensures { OnOk result (members.new.items ≡ members.old.items ++ option_to_list member) }
{
    if let Some(member) = member {
        members.push(member)?;
    }
    Ok(())
}

/// The last table of long names behind a header, where before it that was `table`.
fn table_behind(
    alloc: Global,
    bytes: &[u8],
    header: &Header,
    table: Option<LongNames>,
) -> Result<Option<LongNames>, AllocError>
    requires header { IsHeader bytes.now header.now }
    requires table { HasTable bytes.now table }
    ensures place { IfOk result (λ behind. table_place behind ≡ table_by header.now.form header.now.at (table_place table)) }
    ensures table { IfOk result (HasTable bytes.now) }
{
    match header.form {
        NameForm::LongNames => Ok(Some(long_names(alloc, bytes, header)?)),
        _ => Ok(table),
    }
}

/// The table of long names whose header this is.
fn long_names(alloc: Global, bytes: &[u8], header: &Header) -> Result<LongNames, AllocError>
    requires { IsHeader bytes.now header.now }
    ensures at { IfOk result (λ names. names.at ≡ header.now.at) }
    ensures table { IfOk result (IsTable bytes.now) }
{
    let start = header.at + HEADER_LEN;
    LongNames::new(alloc, header.at as u64, &bytes[start..start + header.size])
}

/// The place of the header behind this one and its data.
fn next_place(bytes: &[u8], header: &Header) -> usize
    requires { IsHeader bytes.now header.now }
    ensures next { result ≡ next_at bytes.now header.now.at }
    ensures behind { header.now.at < result }
{
    (header.at + HEADER_LEN + header.size).next_multiple_of(HEADER_ALIGN)
}
