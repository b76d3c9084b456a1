// A path of at most 255 bytes, kept in place, which contracts see as the list of its bytes.
ghost use Rattle.std.specs.Prelude.{◌≡◌, ◌≤◌, ◌<◌, ◌++◌, ◌∷◌, ◌+◌, ◌-◌, not, length, take, replicate, IfOk, IfErr, nat_eq};
ghost use Rattle.std.specs.Cmp.Lexicographic.{pointwise};
ghost use Rattle.std.specs.List.{list_all};
ghost use Rattle.kl_base.specs.Names.{name_fault, ends_part, slash_then, any_suffix, dots, is_path_byte};

use crate::NAME_LIMIT;
use std::alloc::AllocError;
use std::cmp::Ordering;
use std::marker::Model;

/// Why bytes are no name, in the order in which faults are answered.
#[derive(Clone, Copy, Debug, PartialEq, Eq)]
pub enum NameFault {
    /// There is no byte.
    Empty,
    /// There are more than 255 bytes.
    TooLong,
    /// The first byte isn't `/`.
    NotAbsolute,
    /// A byte isn't from 0x21 to 0x7e.
    BadByte,
    /// Two `/` stand together, or the last byte is `/`.
    EmptyPart,
    /// A part is `.` or `..`.
    DotPart,
}

/// The absolute path of a file, of at most 255 bytes, kept in place. Contracts see it as the list of its bytes.
#[derive(Copy, Debug)]
pub struct Name {
    bytes: [u8; NAME_LIMIT],
    len: u8,
}

impl Model for Name {
    ghost use Rattle.std.specs.Prelude.{ℕ, List, take, length, replicate, ◌++◌, ◌-◌};
    ghost use Rattle.kl_base.specs.Padded.{IsPadded, same_fields};
    ghost use Rattle.kl_base.specs.declared.limits.TheConstants.{NAME_LIMIT};

    ghost Value = { List ℕ };

    ghost view = { λ s. take s.len s.bytes };

    ghost invariant = { λ s. IsPadded s.bytes s.len };

    ghost inverse = { λ n. record { bytes = n ++ replicate (NAME_LIMIT - length n) 0; len = length n } };

    ghost inverse_ok = { λ s h i. record { bytes = (same_fields s.bytes s.len h).same_bytes i; len = (same_fields s.bytes s.len h).same_len i } };
}

impl Clone for Name {
    ghost is_clone = { λ x y. y ≡ x };

    ghost use Rattle.std.specs.Prelude.{⊤};

    ghost is_infallible = { λ _. ⊤ };

    fn clone(&self) -> Result<Self, AllocError> {
        Ok(*self)
    }
}

impl Name {
    /// The name with these bytes, or the first fault that stands.
    pub fn from_bytes(bytes: &[u8]) -> Result<Name, NameFault>
        ensures ok { IfOk result (λ n. (n ≡ bytes.now) × (name_fault bytes.now ≡ None)) }
        ensures fault { IfErr result (λ f. name_fault bytes.now ≡ Some f) }
    {
        match first_fault(bytes) {
            Some(fault) => Err(fault),
            None => Ok(Name {
                bytes: padded(bytes),
                len: bytes.len() as u8,
            }),
        }
    }

    /// The name of a file in the root: a slash and these bytes, or the first fault of that.
    pub fn at_root(file: &[u8]) -> Result<Name, NameFault>
        ensures ok { IfOk result (λ n. (n ≡ 47 ∷ file.now) × (name_fault (47 ∷ file.now) ≡ None)) }
        ensures fault { IfErr result (λ f. name_fault (47 ∷ file.now) ≡ Some f) }
    {
        if file.len() >= NAME_LIMIT {
            return Err(NameFault::TooLong);
        }
        Name::from_bytes(&rooted(file)[..file.len() + 1])
    }

    /// The name of a file below this folder: this name's bytes, then those of the file's name in the folder.
    pub fn join(&self, file: &Name) -> Name
        requires { length self.now + length file.now ≤ NAME_LIMIT }
        ensures { result ≡ self.now ++ file.now }
    {
        let (folder, file) = (self.bytes(), file.bytes());
        Name {
            bytes: joined(folder, file),
            len: (folder.len() + file.len()) as u8,
        }
    }

    /// The path's bytes.
    pub fn bytes(&self) -> &[u8]
        ensures bytes { result.now ≡ self.now }
        ensures name { name_fault self.now ≡ None }
    {
        &self.bytes[..self.len as usize]
    }
}

impl PartialEq for Name {
    ghost use Rattle.std.proofs.Common.{rules};
    ghost use Rattle.std.specs.Cmp.Rules.{comparing};

    ghost eq = { pointwise nat_eq };

    ghost laws = { Prim.search (comparing, rules) };

    fn eq(&self, other: &Self) -> bool {
        self.bytes() == other.bytes()
    }
}

impl Eq for Name {
    ghost use Rattle.std.proofs.Common.{rules};
    ghost use Rattle.std.specs.Cmp.Rules.{comparing};

    ghost laws = { Prim.search (comparing, rules) };
}

// the first of the faults that stands
fn first_fault(bytes: &[u8]) -> Option<NameFault>
    ensures { result ≡ name_fault bytes.now }
{
    if bytes.is_empty() {
        Some(NameFault::Empty)
    } else if bytes.len() > NAME_LIMIT {
        Some(NameFault::TooLong)
    } else if bytes[0] != b'/' {
        Some(NameFault::NotAbsolute)
    } else if !are_path_bytes(bytes) {
        Some(NameFault::BadByte)
    } else if has_empty_part(bytes) {
        Some(NameFault::EmptyPart)
    } else if has_dot_part(bytes) {
        Some(NameFault::DotPart)
    } else {
        None
    }
}

/// Whether each byte may stand in a name: it is from 0x21 to 0x7e.
pub fn are_path_bytes(bytes: &[u8]) -> bool
    ensures { result ≡ list_all is_path_byte bytes.now }
{
    bytes.iter().all(|b| is_path_byte(*b))
}

fn is_path_byte(byte: u8) -> bool
    ensures { result ≡ is_path_byte byte }
{
    0x21 <= byte && byte <= 0x7e
}

// the bytes, and zeros behind them
fn padded(bytes: &[u8]) -> [u8; NAME_LIMIT]
    requires { length bytes.now ≤ NAME_LIMIT }
    ensures { result ≡ bytes.now ++ replicate (NAME_LIMIT - length bytes.now) 0 }
{
    let mut kept = [0; NAME_LIMIT];
    kept[..bytes.len()].copy_from_slice(bytes);
    kept
}

// the bytes of a folder and a file, and zeros behind them
fn joined(folder: &[u8], file: &[u8]) -> [u8; NAME_LIMIT]
    requires { length folder.now + length file.now ≤ NAME_LIMIT }
    ensures { result ≡ folder.now ++ (file.now ++ replicate (NAME_LIMIT - (length folder.now + length file.now)) 0) }
{
    let mut kept = padded(folder);
    kept[folder.len()..folder.len() + file.len()].copy_from_slice(file);
    kept
}

// a slash and the bytes
fn rooted(file: &[u8]) -> [u8; NAME_LIMIT]
    requires { length file.now < NAME_LIMIT }
    ensures { take (length file.now + 1) result ≡ 47 ∷ file.now }
{
    let mut kept = [b'/'; NAME_LIMIT];
    kept[1..file.len() + 1].copy_from_slice(file);
    kept
}

// whether a part ends here
fn is_part_end(rest: &[u8]) -> bool
    ensures { result ≡ ends_part rest.now }
{
    match rest {
        [] => true,
        [first, ..] => *first == b'/',
    }
}

fn has_empty_part(bytes: &[u8]) -> bool
    ensures { result ≡ any_suffix (slash_then ends_part) bytes.now }
{
    let mut rest = bytes;
    while let [first, after @ ..] = rest {
        if *first == b'/' && is_part_end(after) {
            return true;
        }
        rest = after;
    }
    false
}

// whether a part is one dot or two
fn is_dots(rest: &[u8]) -> bool
    ensures { result ≡ dots rest.now }
{
    match rest {
        [] => false,
        [first] => *first == b'.',
        [first, second, after @ ..] => {
            *first == b'.' && (*second == b'/' || *second == b'.' && is_part_end(after))
        }
    }
}

fn has_dot_part(bytes: &[u8]) -> bool
    ensures { result ≡ any_suffix (slash_then dots) bytes.now }
{
    let mut rest = bytes;
    while let [first, after @ ..] = rest {
        if *first == b'/' && is_dots(after) {
            return true;
        }
        rest = after;
    }
    false
}

impl PartialOrd for Name {
    ghost use Rattle.std.proofs.Common.{rules};
    ghost use Rattle.std.specs.Cmp.Rules.{comparing};
    ghost use Rattle.std.specs.Cmp.{partial_order_from_own_ties};
    ghost use Rattle.std.specs.Ordering.{nat_cmp, as_partial_cmp};
    ghost use Rattle.std.specs.Cmp.Lexicographic.{slice_cmp};

    ghost partial_cmp = { as_partial_cmp (slice_cmp nat_cmp) };

    ghost laws = { partial_order_from_own_ties (Prim.search (comparing, rules)) (Prim.search (comparing, rules)) };

    fn partial_cmp(&self, other: &Self) -> Option<Ordering> {
        Some(self.cmp(other))
    }
}

impl Ord for Name {
    ghost use Rattle.std.proofs.Common.{rules};
    ghost use Rattle.std.specs.Cmp.Rules.{comparing};
    ghost use Rattle.std.specs.Ordering.{nat_cmp};
    ghost use Rattle.std.specs.Cmp.Lexicographic.{slice_cmp};

    ghost cmp = { slice_cmp nat_cmp };

    ghost total = { Prim.search (comparing, rules) };

    ghost matches_partial_cmp = { Prim.search (comparing, rules) };

    ghost matches_eq = { Prim.search (comparing, rules) };

    fn cmp(&self, other: &Self) -> Ordering {
        self.bytes().cmp(other.bytes())
    }
}
