// The parts of an image that opening reads.

/// What opening reads of an image. Bytes that the image does not have are not asked for; nor is the
/// table where the header is refused.
#[derive(Clone, Copy, PartialEq, Eq, Debug)]
pub struct Parts<'a> {
    /// The first 0x440 bytes.
    pub header: &'a [u8],
    /// The bytes of the file table, at the offset that the header gives.
    pub table: &'a [u8],
    /// The first 0xE4 bytes of the executable.
    pub program: &'a [u8],
    /// How many bytes the image has.
    pub length: u64,
}
