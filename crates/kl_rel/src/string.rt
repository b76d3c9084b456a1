// String tables, and the names in them.
ghost use Rattle.std.specs.Prelude.{◌≡◌, ◌+◌, ◌*◌, ◌/◌, ◌≤◌, ◌<◌, ◌==◌, length, position, IfOk};
ghost use Rattle.std.specs.List.{position_or_len};
ghost use Rattle.kl_model.specs.Texts.{text_at};
ghost use Rattle.kl_rel.specs.Headers.{string_in};
ghost use Rattle.kl_rel.specs.StringTables.{table_bytes, text_len, AreLens, IsIndexed};
ghost use Rattle.kl_base.specs.declared.limits.TheConstants.{INPUT_LIMIT};

use kl_base::{NoMemory, Range};
use kl_elf::Shdr;
use std::alloc::Global;

/// How many bytes of a string table have one entry in its index.
const BLOCK: usize = 64;

/// A string table of a file, with an index by which each text is found in a few steps, however long it is.
#[derive(Debug, Drop)]
pub(crate) struct StringTable {
    /// Its section header.
    pub(crate) header: Shdr,
    /// By block, from the last to the first: how many bytes stand from the block's start on before the next zero byte, or
    /// before the table's end.
    lens: Vec<usize>,
}

impl StringTable {
    /// The string table that has this header.
    pub(crate) fn new(alloc: Global, bytes: &[u8], header: &Shdr) -> Result<Self, NoMemory>
        requires long { length bytes.now ≤ INPUT_LIMIT }
        requires lies { header.now.offset + header.now.size ≤ length bytes.now }
        ensures header { IfOk result (λ t. t.header ≡ header.now) }
        ensures index { IfOk result (λ t. IsIndexed bytes.now t) }
    {
        Ok(StringTable {
            header: *header,
            lens: text_lens(alloc, table_bytes(bytes, header))?,
        })
    }

    /// The place in the file of the text that begins at a place of the table; `None` where no zero byte of the table ends it.
    pub(crate) fn string(&self, bytes: &[u8], place: u32) -> Option<Range>
        requires long { length bytes.now ≤ INPUT_LIMIT }
        requires index { IsIndexed bytes.now self.now }
        ensures { result ≡ string_in bytes.now self.now.header place }
    {
        let place = u64::from(place);
        if place >= self.header.size {
            return None;
        }
        let len = self.len_at(table_bytes(bytes, &self.header), place as usize) as u64;
        if place + len == self.header.size {
            return None;
        }
        Some(Range {
            at: self.header.offset + place,
            len,
        })
    }

    /// The length of the text that begins at a place of the table.
    fn len_at(&self, table: &[u8], place: usize) -> usize
        requires long { length table.now ≤ INPUT_LIMIT }
        requires lens { AreLens table.now self.now.lens.items }
        requires place { place < length table.now }
        ensures { result ≡ text_len table.now place }
    {
        let next = place / BLOCK + 1;
        if next < self.lens.len() {
            text_len(table, place, self.lens[self.lens.len() - 1 - next])
        } else {
            text_len(table, place, 0)
        }
    }
}

/// The bytes of a string table.
fn table_bytes<'a>(bytes: &'a [u8], header: &Shdr) -> &'a [u8]
    requires { header.now.offset + header.now.size ≤ length bytes.now }
    ensures { result.now ≡ table_bytes bytes.now header.now }
{
    &bytes[header.offset as usize..(header.offset + header.size) as usize]
}

/// By block, from the last to the first, the length of the text that begins with it.
fn text_lens(alloc: Global, table: &[u8]) -> Result<Vec<usize>, NoMemory>
    requires { length table.now ≤ INPUT_LIMIT }
    ensures { IfOk result (λ v. AreLens table.now v.items) }
{
    let blocks = (table.len() + BLOCK - 1) / BLOCK;
    let mut lens = Vec::new(alloc);
    let mut len = 0;
    for done in 0..blocks {
        len = text_len(table, BLOCK * (blocks - 1 - done), len);
        lens.push(len)?;
    }
    Ok(lens)
}

/// The length of the text that begins at a place, where that of the text at the next block is `rest`.
fn text_len(table: &[u8], place: usize, rest: usize) -> usize
    requires long { length table.now ≤ INPUT_LIMIT }
    requires place { place < length table.now }
    requires rest { rest ≡ text_len table.now (64 * (place / 64 + 1)) }
    ensures { result ≡ text_len table.now place }
{
    let end = (BLOCK * (place / BLOCK + 1)).min(table.len());
    let len = zero_or_len(&table[place..end]);
    if len < end - place { len } else { len + rest }
}

/// The place of the first zero byte, or the length.
fn zero_or_len(bytes: &[u8]) -> usize
    ensures { result ≡ position_or_len (λ c. c == 0) bytes.now }
{
    first_zero(bytes).unwrap_or(bytes.len())
}

fn first_zero(bytes: &[u8]) -> Option<usize>
    ensures { result ≡ position (λ c. c == 0) bytes.now }
{
    bytes.iter().position(|c| *c == 0)
}

/// The bytes at a place in the file.
pub(crate) fn text_at<'a>(bytes: &'a [u8], place: &Range) -> &'a [u8]
    requires { place.now.at + place.now.len ≤ length bytes.now }
    ensures { result.now ≡ text_at bytes.now place.now }
{
    &bytes[place.at as usize..(place.at + place.len) as usize]
}
