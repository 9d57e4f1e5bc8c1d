//! Entries of logs, and the packages of migrations.
use crate::Same;
use curp_cmd::{Entry, Package, TablePart};

impl Same for TablePart {
    fn same(&self, other: &TablePart) -> bool {
        self.records.same(&other.records)
            && self.firsts.same(&other.firsts)
            && self.gone.same(&other.gone)
    }
}

impl Same for Package {
    fn same(&self, other: &Package) -> bool {
        self.lo == other.lo
            && self.hi == other.hi
            && self.pairs.same(&other.pairs)
            && self.table.same(&other.table)
    }
}

impl Same for Entry {
    fn same(&self, other: &Entry) -> bool {
        match self {
            Entry::Op {
                request,
                acknowledge,
            } => {
                matches!(other, Entry::Op { request: r, acknowledge: a } if request.same(r) && acknowledge.same(a))
            }
            Entry::Take { migration, package } => {
                matches!(other, Entry::Take { migration: m, package: p } if migration.same(m) && package.same(p))
            }
            Entry::Give { migration, package } => {
                matches!(other, Entry::Give { migration: m, package: p } if migration.same(m) && package.same(p))
            }
            Entry::Expire { client } => {
                matches!(other, Entry::Expire { client: theirs } if client.same(theirs))
            }
        }
    }
}
