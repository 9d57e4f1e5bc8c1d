/// How many steps a script may have.
pub const STEP_LIMIT: u64 = 200_000;

/// Beyond this weight of all messages no node gets anything more.
pub const WEIGHT_LIMIT: u64 = 2_000_000;
