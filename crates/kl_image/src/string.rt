// Strings, with the ends of the texts in them.
ghost use Rattle.std.specs.Prelude.{◌≡◌, ◌+◌, ◌*◌, ◌/◌, ◌<◌, ◌≤◌, ◌==◌, length, option_map, position, IfOk};
ghost use Rattle.std.specs.List.{position_or_len};
ghost use Rattle.kl_model.specs.Loaded.{text_in};
ghost use Rattle.kl_image.specs.Texts.{AreLens, IsIndexed, text_len};

use kl_base::NoMemory;
use std::alloc::Global;

/// How many bytes have one entry in the index.
const BLOCK: usize = 64;

/// Strings with an index by which the end of each text is found in a few steps, however long it is.
#[derive(Drop)]
pub(crate) struct Strings<'a> {
    pub(crate) bytes: &'a [u8],
    /// By block, from the last to the first: how many bytes stand from the block's start on before the next zero byte, or
    /// before the end.
    pub(crate) lens: Vec<usize>,
}

impl<'a> Strings<'a> {
    /// The strings that these bytes are.
    pub(crate) fn new(alloc: Global, bytes: &'a [u8]) -> Result<Self, NoMemory>
        ensures bytes { IfOk result (λ s. s.bytes.now ≡ bytes.now) }
        ensures index { IfOk result IsIndexed }
    {
        Ok(Strings {
            bytes,
            lens: text_lens(alloc, bytes)?,
        })
    }

    /// The text at a place, where a zero byte ends it there.
    pub(crate) fn text(&self, at: usize) -> Option<&'a [u8]>
        requires { IsIndexed self.now }
        ensures { option_map (λ t. t.now) result ≡ text_in self.now.bytes.now at }
    {
        if at >= self.bytes.len() {
            return None;
        }
        let end = at + self.len_at(at);
        if end == self.bytes.len() {
            return None;
        }
        Some(&self.bytes[at..end])
    }

    /// The length of the text at a place.
    fn len_at(&self, place: usize) -> usize
        requires index { IsIndexed self.now }
        requires place { place < length self.now.bytes.now }
        ensures len { result ≡ text_len self.now.bytes.now place }
        ensures within { place + result ≤ length self.now.bytes.now }
    {
        let next = place / BLOCK + 1;
        if next < self.lens.len() {
            text_len(self.bytes, place, self.lens[self.lens.len() - 1 - next])
        } else {
            text_len(self.bytes, place, 0)
        }
    }
}

/// By block, from the last to the first, the length of the text that begins with it.
fn text_lens(alloc: Global, bytes: &[u8]) -> Result<Vec<usize>, NoMemory>
    ensures { IfOk result (λ v. AreLens bytes.now v.items) }
{
    let blocks = (bytes.len() + BLOCK - 1) / BLOCK;
    let mut lens = Vec::new(alloc);
    let mut len = 0;
    for done in 0..blocks {
        len = text_len(bytes, BLOCK * (blocks - 1 - done), len);
        lens.push(len)?;
    }
    Ok(lens)
}

/// The length of the text at a place, where that of the text at the next block is `rest`.
fn text_len(bytes: &[u8], place: usize, rest: usize) -> usize
    requires place { place < length bytes.now }
    requires rest { rest ≡ text_len bytes.now (BLOCK * (place / BLOCK + 1)) }
    ensures { result ≡ text_len bytes.now place }
{
    let end = (BLOCK * (place / BLOCK + 1)).min(bytes.len());
    let len = zero_or_len(&bytes[place..end]);
    if len < end - place { len } else { len + rest }
}

/// The place of the first zero byte, or the length.
fn zero_or_len(bytes: &[u8]) -> usize
    ensures { result ≡ position_or_len (λ c. c == 0) bytes.now }
{
    first_zero(bytes).unwrap_or(bytes.len())
}

/// The place of the first zero byte.
fn first_zero(bytes: &[u8]) -> Option<usize>
    ensures { result ≡ position (λ c. c == 0) bytes.now }
{
    bytes.iter().position(|c| *c == 0)
}
