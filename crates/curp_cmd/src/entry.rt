ghost use Rattle.std.specs.Prelude.{◌≡◌, IfOk};
ghost use Rattle.curp_cmd.specs.Entry.{room_of, pairs_put};

use crate::{Command, Package, Request};
use curp_base::{NoMemory, Shared, TryCopy};
use std::alloc::Global;

/// What a log has in one place.
pub enum Entry {
    /// A request is done, and its client has the answers of all its requests below the acknowledged number.
    Op {
        request: Shared<Request>,
        acknowledge: u32,
    },
    /// A range leaves with a migration: its keys go, and the package has what there was.
    Take {
        migration: u32,
        package: Shared<Package>,
    },
    /// A range comes with a migration: what the package has is added.
    Give {
        migration: u32,
        package: Shared<Package>,
    },
    /// A client is gone, and what is kept for it goes with it.
    Expire {
        client: u32,
    },
}

impl Drop for Entry {
    fn drop(self) {
        match self {
            Entry::Op {
                request: _,
                acknowledge: _,
            } => {}
            Entry::Take {
                migration: _,
                package: _,
            } => {}
            Entry::Give {
                migration: _,
                package: _,
            } => {}
            Entry::Expire { client: _ } => {}
        }
    }
}

impl Entry {
    pub fn copy(&self, alloc: Global) -> Result<Entry, NoMemory>
        ensures { IfOk result (λ copy. copy ≡ self.now) }
    {
        match self {
            Entry::Op {
                request,
                acknowledge,
            } => Ok(Entry::Op {
                request: request.share()?,
                acknowledge: *acknowledge,
            }),
            Entry::Take { migration, package } => Ok(Entry::Take {
                migration: *migration,
                package: package.share()?,
            }),
            Entry::Give { migration, package } => Ok(Entry::Give {
                migration: *migration,
                package: package.share()?,
            }),
            Entry::Expire { client } => Ok(Entry::Expire { client: *client }),
        }
    }
}

impl TryCopy for Entry {
    fn try_copy(&self, alloc: Global) -> Result<Entry, NoMemory> {
        self.copy(alloc)
    }
}

/// How much room an entry takes: 1, and 1 more for each pair of a multi-put and for all that a package has. It stands
/// still at 2^64 - 1.
pub fn room(entry: &Entry) -> u64
    ensures { result ≡ room_of entry.now }
{
    let items = match entry {
        Entry::Op { request, .. } => pairs_put(&request.command),
        Entry::Take { package, .. } | Entry::Give { package, .. } => package.len(),
        Entry::Expire { .. } => 0,
    };
    items.saturating_add(1)
}

/// How many pairs a multi-put puts. Of another command none is counted.
pub fn pairs_put(command: &Command) -> u64
    ensures { result ≡ pairs_put command.now }
{
    match command {
        Command::Multi(pairs) => pairs.as_slice().len() as u64,
        _ => 0,
    }
}
