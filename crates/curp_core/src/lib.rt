//! The door for who builds a store on the nodes: what an embedder calls, from the crates that have it. There is no code
//! here. `crates/curp_embedded` is a whole program over it.
//!
//! # A node
//!
//! A node is a `Core`: a machine without a network, a clock or a thread. It takes an `Input`, which is a reference to a
//! `Message` or to an order (`Local`), and gives a `Done`. `on` takes either; `on_message` and `on_order` take one of them.
//!
//! - `sent`: the messages that go out now, each to its `to`. Any may be lost, late or repeated, and two may change places.
//! - `invoked`: the request that an order to invoke made, with its id.
//! - `completed`: the request that is done, with its answer. Only a client completes requests, at most one by an input.
//! - `refused`: 0, or why an order wasn't taken: the node is as it was. A message is never refused. An order that isn't a
//!   node's own does nothing.
//! - `Err(NoMemory)`: the node is as it was, and the same input may be given again.
//!
//! A message is delivered to the node that its `to` names, as it was sent: nothing in a node looks for forged or damaged
//! ones. A node takes one input at a time; which thread gives it is all the same.
//!
//! # How nodes begin
//!
//! A `Header` says how many there are: `clients` 1 to 64, `parts` 1 to 16, `f` backups and `f` witnesses a partition, 1 to
//! 5, and `sets` and `ways` of a witness, 1 to 1024 and 1 to 16. `fast` lets clients complete an update in one round trip,
//! and `Protocol::Two` a read. No value has a default here; the program `curp` takes 8 clients, 2 partitions, `f` 3, 64
//! sets, 4 ways, `fast` and `Protocol::One` where its words name no other.
//!
//! `opening` makes all nodes of a header: first the manager, then clients and masters by its `config()`, then
//! `parts * f` backups and as many witnesses. One by one (`ManagerNode` is `Manager` of `curp_config`, and `ClientNode`
//! `Client` of `curp_client`):
//!
//! - `ManagerNode::new(alloc, &Shape { f, parts, clients })`.
//! - `ClientNode::new(alloc, number, fast, protocol, config)`: the configuration may be any that the manager adopted; an
//!   old one costs a `Fetch`.
//! - `MasterNode::new(alloc, part, backups, witnesses, lo, hi)`, `BackupNode::new(alloc, number, 1)`,
//!   `WitnessNode::new(alloc, number, sets, ways, 1)`: at opening alone, at epoch 1.
//! - `MasterNode::fresh`, `BackupNode::fresh`, `WitnessNode::fresh`: those that a recovery or a replacement names later.
//!   They wait for the manager's message. A witness takes all its memory when it is started, by `WitnessNode::new` or by
//!   its `Start`, the others as they need it.
//!
//! # Who is ordered what, and when
//!
//! No node knows the time, so all that a timer would do is an order of yours.
//!
//! | order | to | when |
//! |---|---|---|
//! | `Invoke` | a client | there is a command. `invoked` has the request with its number. Refused by 1 while 8 are pending, by 2 where the client's numbers are at their end, by 3 where no one partition owns all keys |
//! | `Retry` | a client | a request is pending for long, and each that is pending once a new configuration came |
//! | `Fetch` | a client | retries don't help: the lists that it knows may be old |
//! | `Sync` | a master | now and then, since what is answered at once goes to no backup until a round begins; and where a recovery or new lists stand still, since it sends again what they wait for |
//! | `Collect` | a master | behind some syncs, since witnesses drop only what they are told; full ones cost each update a second round trip |
//! | `Recover` | the manager | a master seems to be gone. It may be there all the same: it does no harm |
//! | `Replace` | the manager | a backup or a witness is gone |
//! | `Nudge` | the manager | what it sent may be lost, as after it was opened again: it sends again all that it waits for |
//! | `Migrate`, `Expire` | the manager | hashes are to move; a client is gone for good |
//!
//! Each order to a client or the manager is a call too, as `invoke` of a `ClientNode` and `recover` of a `ManagerNode`: it
//! fails by `Failed` of the reason that refuses it (`InvokeError`, `RecoverError`), whose `number` (`Numbered`) is what the
//! order has as `refused`. A node behind a journal takes orders alone.
//!
//! The nodes have no policy of their own. That of `curp live` has its numbers in `policy`, and its code in
//! `curp_due/src/chores.rt`: a client has at most `PENDING_AT_ONCE` requests pending, and retries all of them in order
//! after each configuration; a master is ordered `Sync` after each `SYNC_AFTER` updates and syncs that come, and behind it
//! `Collect` after each `COLLECT_AFTER`. Clients are ordered `Fetch` once a recovered master serves.
//!
//! # What an embedder owes
//!
//! The laws (`docs/THEOREMS.md`) speak of nodes that keep what they said. So:
//!
//! - **A number is used once.** No two nodes of a kind ever have the same one, also not one after the other: what a
//!   stopped node said still counts. A client that lost its state is a new one.
//! - **After a restart a journal is opened; `new` is for the first time alone.** Any node may have a journal (`durable`).
//!   A master, a backup or a witness that lost its state is gone: its partition is recovered, or it is replaced.
//! - **What is answered goes out once it is kept.** `Durable::on_all` answers only then; what was answered before a crash
//!   is dropped when the journal is opened, and the protocol sends it again. Who keeps a journal of another kind writes
//!   the input before `sent` and `completed` go anywhere.
//! - **Fresh nodes are made before their messages come**, with the numbers that the manager would give next, taken before
//!   the order: `next_master()`, and `keepers()` numbers from `next_backup()` and from `next_witness()` on for a
//!   `Recover`, one for a `Replace`. Where the order is refused they wait for the next one.
//!
//! # Bytes, journals, tests
//!
//! - `frames`: `encode` writes a message as a frame, or says that it has none (`NoFrame`); `encode_light` does so of a
//!   message that is light, which always has one. `decode` finds the message that bytes begin with and its length, or says
//!   how many bytes are needed (`FrameError::Short`). No frame has a checksum.
//! - `journal`: an `Item` is what came to a node, and what it did then; a message comes with its sender's name for it, and
//!   an order with a stamp (`Arrived`).
//! - `durable`: a journal of any node on any disk. `format` writes an empty one under a title (`title_of` makes that of a
//!   node of a header), once; `Durable::open` gives a fresh node the inputs that stand there; `Durable::on_all` takes the
//!   place of `on`, for as many inputs as there are at a time: they cost two syncs together. `on`, `on_message` and
//!   `on_order` take one, and answer as a `Core`'s do, but that the disk may fail (`DurableError`). `node` lends the node.
//!   After an error that leaves it `spent` the disk is taken out (`into_disk`) and opened again. A `Checkpoint`
//!   (`checkpoint`, with a copy of the node) lets it be opened from there on (`open_from`), while this process lives.
//!   Disks: `FileDisk` is a file of the system; `MemoryDisk` and `StopDisk` are for tests, and tell their bytes, so that all
//!   clauses hold over them.
//! - `world`: all nodes of a header, every message that was ever sent, and one order of the requests, step by step: for
//!   tests of yours that ask what the nodes do with a sequence of messages, losses and stops, as `curp play` does.
#![tactic(auto)]

pub use curp_base::{Boxed, Failed, Items, NoMemory, Shared};
pub use curp_changes::Shape;
pub use curp_client::{InvokeError, RetryError};
pub use curp_cmd::{
    Answer, Command, Keeper, Key, KeyError, MultiError, NodeId, NodeKind, Request, RequestId,
    Value, ValueError,
};
pub use curp_config::{MigrateError, NoClient, RecoverError, ReplaceError};
pub use curp_msg::{
    Capture, Completed, Config, Core, Done, Header, Input, Local, Message, Numbered, PartConfig,
    Protocol,
};
pub use curp_nodes::{BackupNode, ClientNode, ManagerNode, MasterNode, WitnessNode};
pub use curp_slots::BadShape;

/// All nodes of a header, as they are before any step.
pub mod opening {
    pub use curp_nodes::{backups, clients, manager, masters, witnesses};
}

/// What messages say.
pub mod bodies {
    pub use curp_msg::{
        Accepted, Adopted, Append, AppendAnswer, Appended, Ask, Body, Collected, FenceAnswer,
        FenceReply, Gc, GcAnswer, Parcel, Prepare, Probe, Probed, Quick, Reason, Record, Recover,
        Recovered, Refusal, Refuse, Rejected, Reply, Start, TakeOut, Worth,
    };
}

/// Messages as bytes.
pub mod frames {
    pub use curp_wire::{FrameError, NoFrame, decode, encode, encode_light, is_light};
}

/// What came to a node, and what it did.
pub mod journal {
    pub use curp_journal::{Arrived, Item, Named};
}

/// The numbers of a policy: when orders are given.
pub mod policy {
    pub use curp_nodes::{COLLECT_AFTER, PENDING_AT_ONCE, SYNC_AFTER};
}

/// A world of nodes that takes the steps of a script.
pub mod world {
    pub use curp_world::{BeginError, FieldName, Header, Outcome, Step, StepResult, World};
}

/// A journal of any node, on any disk.
pub mod durable {
    pub use curp_disk::{Did, Disk, FileDisk, FileError, Long, MemoryDisk, StopDisk};
    pub use curp_durable::{
        Answered, Checkpoint, Durable, DurableError, FormatError, OpenError, OpenFailed,
        SIZE_LIMIT, format,
    };
    pub use curp_title::{Title, title_in, title_of};
}
