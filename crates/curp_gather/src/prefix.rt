use curp_journal::Item;

/// What a comparison comes to.
#[derive(Clone, Copy)]
pub(crate) enum Prefix<'a> {
    /// All that was due was taken first, and these items are left.
    More(&'a [Item]),
    /// A prefix of what was due was taken, and nothing else.
    Whole,
    /// Something else was taken.
    Differs,
}
