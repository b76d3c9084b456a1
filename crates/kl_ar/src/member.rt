// A member of an archive.
use kl_base::Range;

/// A member: the place of its name in the file, which is no part of its bytes, the place of its first byte, and how many they are.
#[derive(Clone, Copy, Debug, PartialEq, Eq)]
pub struct Member {
    pub name: Range,
    pub start: u64,
    pub len: u64,
}
