//! What holds after every step of every script, as statements: what messages say, what nodes keep, and which pairs of a
//! backup and a witness are enough to recover from.
//!
//! What messages say, and which pairs are enough, stand in `specs/Facts.antt`; what nodes keep in `specs/Kept.antt`;
//! and the invariant from which it follows in `specs/Invariant.antt`, with `Nodes.antt`, `Said.antt`, `Entries.antt`
//! and `Evidence.antt`. The names of nodes and the lists that were given stand in `specs/Names.antt`, who says what to
//! whom in `Fits.antt`, the chain of adopted lists in `Predecessors.antt`, and migrations in `Routes.antt` and
//! `Migrated.antt`.
#![tactic(auto)]
