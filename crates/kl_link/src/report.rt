// What is told of a linked image.

/// What is told of a linked image.
#[derive(Clone, Copy, Debug, PartialEq, Eq)]
pub struct Report {
    /// How many pieces the kit's graph has, gaps not counted.
    pub pieces: u32,
    /// How many fields it has.
    pub fields: u32,
    /// The length of the image in bytes.
    pub bytes: u64,
    /// The SHA-256 digest of the image (FIPS 180-4).
    pub digest: [u8; 32],
}
