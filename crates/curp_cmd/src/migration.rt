ghost use Rattle.std.specs.Prelude.{◌≡◌, ◌≤◌, ◌-◌, ◌^◌, min, [], IfOk};

use crate::{Answer, Key, RequestId, Value};
use curp_base::{AscendingKeys, AscendingPairs, NoMemory};
use std::alloc::Global;

/// What belongs to a range of hashes, both ends counted: the keys with their values, and what is kept for clients.
pub struct Package {
    pub lo: u64,
    pub hi: u64,
    pub pairs: AscendingPairs<Key, Value>,
    pub table: TablePart,
    pub ghost ordered: { lo ≤ hi },
}

impl Drop for Package {
    fn drop(self) {
        let Package {
            lo: _,
            hi: _,
            pairs: _,
            table: _,
        } = self;
    }
}

impl Package {
    ghost use Rattle.curp_cmd.specs.Migration.{package_len};

    pub fn copy(&self, alloc: Global) -> Result<Package, NoMemory>
        ensures { IfOk result (λ copy. copy ≡ self.now) }
    {
        Ok(Package {
            lo: self.lo,
            hi: self.hi,
            pairs: self.pairs.copy(alloc)?,
            table: self.table.copy(alloc)?,
        })
    }

    /// How many pairs, records, firsts and expired clients it has in all. It stands still at 2^64 - 1.
    pub fn len(&self) -> u64
        ensures { result ≡ min (package_len self.now) (2 ^ 64 - 1) }
    {
        let table = &self.table;
        (self.pairs.len() as u64)
            .saturating_add(table.records.len() as u64)
            .saturating_add(table.firsts.len() as u64)
            .saturating_add(table.gone.len() as u64)
    }
}

/// What is kept for clients so that each request is done once.
pub struct TablePart {
    /// The answer of each request that is done and not acknowledged.
    pub records: AscendingPairs<RequestId, Answer>,
    /// For each client its first request that is not acknowledged.
    pub firsts: AscendingPairs<u32, u32>,
    /// The clients that are expired.
    pub gone: AscendingKeys<u32>,
}

impl Drop for TablePart {
    fn drop(self) {
        let TablePart {
            records: _,
            firsts: _,
            gone: _,
        } = self;
    }
}

impl TablePart {
    /// A part that has nothing. It takes no memory.
    pub fn new(alloc: Global) -> TablePart
        ensures records { result.records ≡ [] }
        ensures firsts { result.firsts ≡ [] }
        ensures gone { result.gone ≡ [] }
    {
        TablePart {
            records: AscendingPairs::new(Vec::new(alloc)),
            firsts: AscendingPairs::new(Vec::new(alloc)),
            gone: AscendingKeys::new(Vec::new(alloc)),
        }
    }

    pub fn copy(&self, alloc: Global) -> Result<TablePart, NoMemory>
        ensures { IfOk result (λ copy. copy ≡ self.now) }
    {
        Ok(TablePart {
            records: self.records.copy(alloc)?,
            firsts: self.firsts.copy(alloc)?,
            gone: self.gone.copy(alloc)?,
        })
    }
}
