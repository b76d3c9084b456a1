//! How large a link may be, and other numbers of this project's own.

/// The length of a kit text, in bytes: 4 MiB.
pub const KIT_TEXT_LIMIT: u64 = 4_194_304;

/// The length of one input file, in bytes: 64 MiB.
pub const INPUT_LIMIT: u64 = 67_108_864;

/// The length of all inputs of a kit, in bytes: 256 MiB.
pub const INPUT_BYTES_LIMIT: u64 = 268_435_456;

/// The number of inputs of a kit.
pub const INPUT_COUNT_LIMIT: usize = 16_384;

/// The number of sections of all inputs of a kit: 2^20.
pub const SECTION_COUNT_LIMIT: usize = 1_048_576;

/// The number of symbols of all inputs of a kit: 2^22.
pub const SYMBOL_COUNT_LIMIT: usize = 4_194_304;

/// The number of relocation entries of all inputs of a kit: 2^23.
pub const FIELD_COUNT_LIMIT: usize = 8_388_608;

/// The alignment of a section or a common symbol, in bytes, as a power of two.
pub const ALIGN_POWER_LIMIT: u32 = 21;

/// The alignment of a section or a common symbol, in bytes: 2 MiB.
pub const ALIGN_LIMIT: u64 = 1 << ALIGN_POWER_LIMIT;

/// The size of a section or a common symbol, and the value of a symbol in a section, in bytes: 1 GiB.
pub const SIZE_LIMIT: u64 = 1_073_741_824;

/// The span of an image in memory, in bytes: 512 MiB.
pub const SPAN_LIMIT: u64 = 536_870_912;

/// The base of a kernel: 512 MiB before 2^64.
pub const BASE_LIMIT: u64 = 0xffff_ffff_e000_0000;

/// The base of a kernel whose kit names none.
pub const KERNEL_BASE: u64 = 0xffff_ffff_8100_0000;

/// The page of a kernel, in bytes, and the least page of a library.
pub const PAGE: u64 = 4096;

/// How far from 0 an offset and an addend together may lie in a roomy kit: 1 GiB.
pub const NEAR_LIMIT: u64 = 1_073_741_824;

/// What a roomy kit keeps free for gaps, in bytes: 1 MiB.
pub const GAP_ROOM: u64 = 1_048_576;

/// What a roomy kit keeps free for pages, in bytes: 16 MiB.
pub const PAGE_ROOM: u64 = 16_777_216;

/// The length of a name, in bytes.
pub const NAME_LIMIT: usize = 255;

/// The length of a word of a kit text, in bytes.
pub const WORD_LIMIT: usize = 255;

/// The length of a file's name in a kit text, and of the name of a kit's folder, in bytes.
pub const FILE_LIMIT: usize = 127;

/// The length of the name of an image other than a kernel, in bytes.
pub const OUTPUT_LIMIT: usize = 200;

/// The end of a scratch name.
pub const SCRATCH_SUFFIX: [u8; 7] = *b".relink";

/// The length of a name that has a scratch name, in bytes: that of a name without the suffix.
pub const TARGET_LIMIT: usize = 248;

/// The length of an intent's text, in bytes.
pub const INTENT_LIMIT: usize = 4096;

/// The number of files that are installed together.
pub const ENTRY_LIMIT: usize = 8;

/// The size of the buffer by which files are read in pieces, in bytes.
pub const BUFFER_SIZE: usize = 65_536;
