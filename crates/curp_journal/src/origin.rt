/// Since when a node is there.
#[derive(Clone, Copy, PartialEq, Eq)]
pub enum Origin {
    /// It is there before any step.
    Opening,
    /// A recovery or a replacement names it.
    Fresh,
}
