// Where the file of a name lies on the host: its path below the starting folder, and its folder.
ghost use Rattle.std.specs.Prelude.{◌≡◌, ◌≤◌, length, take, true, bytes_eq, is_some, IfSome};
ghost use Rattle.std.specs.List.{list_all};
ghost use Rattle.kl_base.specs.Names.{is_path_byte};
ghost use Rattle.kl_store.specs.Names.{is_scratch};
ghost use Rattle.kl_host.specs.Paths.{folder_of, IsFolder, folder_path, path_of, target_of};

use kl_base::{Name, SCRATCH_SUFFIX};
use std::str;

// The path of the name below the starting folder: the name without its first slash.
pub fn path(name: &Name) -> &str
    ensures { result.now ≡ path_of name.now }
{
    below(name.bytes())
}

// The path of the folder that the file of the name lies in. The starting folder is a dot.
pub fn folder_path(name: &Name) -> &str
    ensures { result.now ≡ folder_path name.now }
{
    let folder = folder(name);
    if folder.is_empty() {
        "."
    } else {
        below(folder)
    }
}

// Whether the files of both names lie in one folder.
pub fn is_same_folder(one: &Name, other: &Name) -> bool
    ensures { result ≡ bytes_eq (folder_of one.now) (folder_of other.now) }
{
    folder(one) == folder(other)
}

// The path of the file whose temporary has the name, where it is a scratch name.
pub fn target_path(name: &Name) -> Option<&str>
    ensures scratch { is_some result ≡ is_scratch name.now }
    ensures path { IfSome result (λ p. p.now ≡ path_of (target_of name.now)) }
{
    let bytes = name.bytes();
    if bytes.ends_with(&SCRATCH_SUFFIX) {
        Some(below(&bytes[..bytes.len() - SCRATCH_SUFFIX.len()]))
    } else {
        None
    }
}

// The bytes before the last slash of the name.
fn folder(name: &Name) -> &[u8]
    ensures folder { result.now ≡ folder_of name.now }
    ensures is_folder { IsFolder result.now name.now }
    ensures path { list_all is_path_byte result.now ≡ true }
{
    let bytes = name.bytes();
    &bytes[..last_slash(bytes)]
}

// The place of the last slash, or 0.
fn last_slash(bytes: &[u8]) -> usize
    ensures bound { result ≤ length bytes.now }
    ensures folder { take result bytes.now ≡ folder_of bytes.now }
{
    let mut last = 0;
    for (at, byte) in bytes.iter().enumerate() {
        if *byte == b'/' {
            last = at;
        }
    }
    last
}

// The text behind the first byte.
fn below(bytes: &[u8]) -> &str
    requires { list_all is_path_byte bytes.now ≡ true }
    ensures { result.now ≡ path_of bytes.now }
{
    match bytes {
        [_, rest @ ..] => str::from_utf8(rest).unwrap(),
        [] => "",
    }
}
