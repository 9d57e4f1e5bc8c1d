//! Limits of frames, and of light messages (this project's own choice).

/// How many bytes a frame may have behind its length, which has 32 bits.
pub(crate) const CONTENT_LIMIT: usize = 4_294_967_295;

/// The greatest number of a client in a light message.
pub const CLIENT_LIMIT: u32 = 64;

/// The greatest weight of a light message.
pub const LIGHT_LIMIT: u64 = 20_000;

/// How many partitions a configuration of a light message may have.
pub const PART_LIMIT: usize = 16;

/// How many nodes a list of a light message may have.
pub const NODE_LIMIT: usize = 5;
