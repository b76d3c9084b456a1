// The numbers and texts of the format, by ar(5).

/// What an archive begins with.
pub(crate) const MAGIC: [u8; 8] = *b"!<arch>\n";

/// What a thin archive begins with, whose members stand in files of their own.
pub(crate) const THIN_MAGIC: [u8; 8] = *b"!<thin>\n";

/// The length of the magic, and so the place of the first header.
pub(crate) const MAGIC_LEN: usize = 8;

/// The length of a header.
pub(crate) const HEADER_LEN: usize = 60;

/// The length of the name field, with which a header begins.
pub(crate) const NAME_LEN: usize = 16;

/// The place of the size field in a header.
pub(crate) const SIZE_AT: usize = 48;

/// The length of the size field.
pub(crate) const SIZE_LEN: usize = 10;

/// The place in a header of the two bytes that end it.
pub(crate) const END_AT: usize = 58;

/// The bytes that end a header.
pub(crate) const HEADER_END: [u8; 2] = *b"`\n";

/// The multiple at which headers stand.
pub(crate) const HEADER_ALIGN: usize = 2;

/// What ends a name in a table of long names.
pub(crate) const LONG_NAME_END: [u8; 2] = *b"/\n";

/// The base of the numbers in a header.
pub(crate) const RADIX: u64 = 10;
