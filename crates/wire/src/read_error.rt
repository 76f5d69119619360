// Why a state cannot be read. Takes the place of the texts of `Error::Proto` in src/proto.rs of zetasketch-rs at commit 9abe68bf87
// (Apache-2.0, see NOTICE).

// The number of each is that of document 01's question, so that `e as u8` is what a caller is told.
#[derive(Clone, Copy, Debug, PartialEq, Eq)]
pub enum ReadError {
    // The bytes end inside a varint or a field.
    Truncated = 3,
    // The tenth byte of a varint says that another follows.
    VarintTooLong = 4,
    // A tag is 2^32 or more, or its field number is 0.
    InvalidTag = 5,
    // A field that is skipped has another wire type than 0, 1, 2 and 5.
    InvalidWireType = 6,
}
