// Tables of long names.
ghost use Rattle.std.specs.Prelude.{◌≡◌, ◌+◌, ◌<◌, ◌≤◌, ◌^◌, ℕ, nat_le, List, All, Contains, drop, find, IfOk, IfSome};
ghost use Rattle.std.specs.List.Sorted.{IsNonDecreasing};
ghost use Rattle.kl_ar.specs.Archives.{name_len, range_from};
ghost use Rattle.kl_ar.specs.Readers.{name_ends};
ghost use Rattle.kl_ar.specs.declared.format.TheConstants.{HEADER_LEN};

use crate::format::{HEADER_LEN, LONG_NAME_END};
use kl_base::{Listed, Range};
use std::alloc::{AllocError, Global};

/// A table of long names: the place of its header in the file, and the places in the table at which a name ends. So a name is
/// found without a search through the table, however many members name the same.
#[derive(Drop)]
pub(crate) struct LongNames {
    pub(crate) at: u64,
    pub(crate) ends: Listed<u64>,
}

impl LongNames {
    /// The table of these bytes, whose header stands at this place.
    pub(crate) fn new(alloc: Global, at: u64, table: &[u8]) -> Result<Self, AllocError>
        ensures at { IfOk result (λ names. names.at ≡ at) }
        ensures ends { IfOk result (λ names. names.ends ≡ name_ends 0 table.now) }
    {
        let mut ends = Vec::new(alloc);
        for place in 0..table.len() {
            if table[place..].starts_with(&LONG_NAME_END) {
                ends.push(place as u64)?;
            }
        }
        Ok(LongNames {
            at,
            ends: Listed::from_vec(ends),
        })
    }

    /// The name that begins at this place of the table; `None` where none ends behind it.
    pub(crate) fn name(&self, place: u64) -> Option<Range>
        requires rising { IsNonDecreasing self.now.ends }
        requires within { All (λ end. self.now.at + HEADER_LEN + end < 2 ^ 64) self.now.ends }
        ensures { (table : List ℕ) → self.now.ends ≡ name_ends 0 table → result ≡ range_from (self.now.at + HEADER_LEN + place) (name_len (drop place table)) }
    {
        let end = first_from(self.ends.items(), place)?;
        Some(Range {
            at: self.at + HEADER_LEN as u64 + place,
            len: end - place,
        })
    }
}

/// The first of these places that isn't before this one.
fn first_from(ends: &[u64], place: u64) -> Option<u64>
    requires { IsNonDecreasing ends.now }
    ensures first { result ≡ find (λ end. nat_le place end) ends.now }
    ensures behind { IfSome result (λ end. place ≤ end) }
    ensures one { IfSome result (Contains ends.now) }
{
    let first = ends.partition_point(|end| *end < place);
    ends.get(first).copied()
}
