//! When who runs the nodes gives the orders that the protocol leaves to a timer: the numbers by which the nodes of
//! `curp live` are run, and with which an embedder may begin. They are this project's own choice: CURP names none, and no
//! law stands on them. More pending requests and rarer orders cost a node memory, and a recovery time.

/// A client is invoked while it has fewer requests pending than this. It refuses an `Invoke` behind 8 only.
pub const PENDING_AT_ONCE: usize = 4;

/// A master is ordered `Sync` after each so many updates and syncs that come to it.
pub const SYNC_AFTER: u64 = 8;

/// A master is ordered `Collect`, behind a `Sync`, after each so many updates and syncs that come to it.
pub const COLLECT_AFTER: u64 = 32;
