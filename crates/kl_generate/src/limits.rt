//! How large a made kit is.

/// The number of objects of a made kit.
pub const MADE_LIMIT: usize = 1 << 12;

/// The length of the file of a made object, in bytes: 64 KiB.
pub const MADE_BYTES_LIMIT: usize = 1 << 16;
