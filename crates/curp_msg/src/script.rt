use curp_base::Shared;
use curp_cmd::{Command, Keeper, NodeId};

/// The first line of a script: how many nodes there are, and how they work.
#[derive(Clone, Copy, Debug, PartialEq, Eq)]
pub struct Header {
    /// How many clients there are, 1 to 64.
    pub clients: u32,
    /// How many backups, and how many witnesses, a partition has, 1 to 5.
    pub f: u32,
    /// Whether a client may complete an update in one round trip, by the witnesses.
    pub fast: bool,
    /// How many partitions there are, 1 to 16.
    pub parts: u32,
    pub protocol: Protocol,
    /// How many sets a witness has, 1 to 1024.
    pub sets: u32,
    /// How many slots a set of a witness has, 1 to 16.
    pub ways: u32,
}

/// How reads are done.
#[derive(Clone, Copy, Debug, PartialEq, Eq)]
pub enum Protocol {
    /// A read waits for a round to all backups.
    One,
    /// A read may complete in one round trip, by the witnesses.
    Two,
}

/// A step of a script.
#[derive(PartialEq, Eq)]
pub enum Step {
    /// A client invokes a command.
    Invoke {
        client: u32,
        command: Shared<Command>,
    },
    /// The message of that number, counted from 1 through the whole run, comes to its addressee.
    Deliver {
        message: u64,
    },
    /// A client sends a pending request of its own again.
    Retry {
        client: u32,
        seq: u32,
    },
    /// A client asks the manager for the configuration.
    Fetch {
        client: u32,
    },
    /// A master sends its backups what they don't have.
    Sync {
        master: u32,
    },
    /// A master tells its witnesses which requests they may drop.
    Collect {
        master: u32,
    },
    /// A new master for a partition is made from what a backup and a witness keep.
    Recover {
        part: u32,
        backup: u32,
        witness: u32,
    },
    /// The keeper in a place of a partition gives way to a fresh one.
    Replace {
        keeper: Keeper,
        part: u32,
        place: u32,
    },
    /// The hashes from `lo` to `hi`, both counted, go to another partition.
    Migrate {
        lo: u64,
        hi: u64,
        to: u32,
    },
    /// The manager sends again what it waits for.
    Nudge,
    /// A client is declared gone, and what is kept for it goes with it.
    Expire {
        client: u32,
    },
    /// A node does nothing from then on.
    Stop {
        node: NodeId,
    },
}

impl Drop for Step {
    fn drop(self) {
        match self {
            Step::Invoke {
                client: _,
                command: _,
            } => {}
            Step::Deliver { message: _ } => {}
            Step::Retry { client: _, seq: _ } => {}
            Step::Fetch { client: _ } => {}
            Step::Sync { master: _ } => {}
            Step::Collect { master: _ } => {}
            Step::Recover {
                part: _,
                backup: _,
                witness: _,
            } => {}
            Step::Replace {
                keeper: _,
                part: _,
                place: _,
            } => {}
            Step::Migrate {
                lo: _,
                hi: _,
                to: _,
            } => {}
            Step::Nudge => {}
            Step::Expire { client: _ } => {}
            Step::Stop { node: _ } => {}
        }
    }
}
