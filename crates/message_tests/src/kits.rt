// A kit in memory, and what is told of a cause there.
use kl_base::Name;
use kl_jobs::Cause;
use kl_mem::MemStore;
use kl_messages::{Ended, message};
use std::alloc::Global;
use std::test::Fail;

/// An object as `as` writes it and `objcopy -R .data -R .bss` leaves it, in hexadecimal digits. Its `.text` has a GLOBAL `start`, which calls
/// an undefined `panic`, jumps to `gone` in a section `.debug_x` that isn't allocated, and holds the address of a LOCAL `table`.
/// Symbols stand from 0x60 on, relocations from 0x120 on, section headers from 0x198 on.
pub const OBJECT: &[u8] = b"\
    7f454c4602010100000000000000000001003e00010000000000000000000000000000000000000098010000000000000000000040000000\
    0000400007000600e800000000e9000000000000000000000000000000000000000090000000000000000000000000000000000000000000\
    0000000000000000000000000300010000000000000000000000000000000000010000000000030000000000000000000000000000000000\
    0600000000000100120000000000000000000000000000000000000003000300000000000000000000000000000000000c00000010000100\
    0000000000000000000000000000000012000000100000000000000000000000000000000000000000676f6e65007461626c650073746172\
    740070616e69630001000000000000000400000006000000fcffffffffffffff0a0000000000000001000000010000001200000000000000\
    06000000000000000200000004000000fcffffffffffffff002e73796d746162002e737472746162002e7368737472746162002e72656c61\
    2e74657874002e64656275675f78000000000000000000000000000000000000000000000000000000000000000000000000000000000000\
    0000000000000000000000000000000000000000000000002000000001000000060000000000000000000000000000004000000000000000\
    1a000000000000000000000000000000010000000000000000000000000000001b0000000400000040000000000000000000000000000000\
    2001000000000000480000000000000004000000010000000800000000000000180000000000000026000000010000000000000000000000\
    00000000000000005a0000000000000001000000000000000000000000000000010000000000000000000000000000000100000002000000\
    000000000000000000000000000000006000000000000000a800000000000000050000000500000008000000000000001800000000000000\
    0900000003000000000000000000000000000000000000000801000000000000180000000000000000000000000000000100000000000000\
    000000000000000011000000030000000000000000000000000000000000000068010000000000002f000000000000000000000000000000\
    01000000000000000000000000000000";

/// A kit of that object.
pub const KIT: &[u8] = b"kind kernel\noutput /bsd\nentry start\nhead k.o\n";

/// The object.
pub fn object(alloc: Global) -> Result<Vec<u8>, Fail> {
    Ok(hex::decode(alloc, OBJECT)?)
}

/// A store with a kit text and an object in the folder `/kit`.
pub fn kit_store(alloc: Global, text: &[u8], object: &[u8]) -> Result<MemStore, Fail> {
    let mut store = MemStore::new(alloc);
    store.put(&Name::from_bytes(b"/kit/link.conf")?, text)?;
    store.put(&Name::from_bytes(b"/kit/k.o")?, object)?;
    Ok(store)
}

/// The words of a command line, which bars part.
pub fn words_of(alloc: Global, line: &[u8]) -> Result<Vec<Vec<u8>>, Fail> {
    let mut words = Vec::new(alloc);
    if line.is_empty() {
        return Ok(words);
    }
    for word in line.split(|byte| *byte == b'|') {
        words.push(Vec::from_slice(alloc, word)?)?;
    }
    Ok(words)
}

/// What is told of a cause of `link /kit` in the folder `/somewhere`.
pub fn told(alloc: Global, cause: &Cause, store: &mut MemStore) -> Result<String, Fail> {
    let words = words_of(alloc, b"link|/kit")?;
    told_of_words(alloc, &words, cause, store)
}

/// What is told of a cause of these words in the folder `/somewhere`.
pub fn told_of_words(
    alloc: Global,
    words: &[Vec<u8>],
    cause: &Cause,
    store: &mut MemStore,
) -> Result<String, Fail> {
    told_in(alloc, "/somewhere", words, cause, store)
}

/// What is told of a cause of these words in a folder.
pub fn told_in<'a>(
    alloc: Global,
    folder: &'a str,
    words: &'a [Vec<u8>],
    cause: &'a Cause,
    store: &mut MemStore,
) -> Result<String, Fail> {
    let ended = Ended {
        words: Some(words),
        cause,
        folder: Some(folder),
        failure: None,
    };
    Ok(message(alloc, &ended, store)?)
}
