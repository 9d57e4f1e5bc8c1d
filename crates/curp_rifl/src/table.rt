ghost use Rattle.std.specs.Prelude.{◌≡◌, ◌+◌, ◌≤◌, true, IfOk, OnOk};
ghost use Rattle.curp_model.specs.Table.{acknowledge, check, expire, merge, no_records, note, packed, is_gone};
ghost use Rattle.curp_model.specs.declared.Check.TheVariants.{New};
ghost use Rattle.curp_rifl.specs.Stored.{room_of};

use crate::clients::{
    ClientMark, firsts_in, gone_in, mark_all_gone, mark_gone, mark_of, raise_first, raise_firsts,
};
use crate::kept::NotedAnswer;
use crate::records::{add_records, answers_of, drop_below, drop_client, keep_of_use};
use curp_base::{AscendingKeys, AscendingPairs, NoMemory, ReservedPairs};
use curp_cmd::{Answer, RequestId, TablePart};
use curp_model::Check;
use std::alloc::Global;
use std::marker::Model;

/// The reply table of a master (RIFL): the answer to each request that is done and not acknowledged, each client's
/// first request that isn't acknowledged, and the clients that are expired. Contracts see it as the definition's table,
/// and for how many more requests and clients each it has room.
pub struct Table {
    alloc: Global,
    records: ReservedPairs<RequestId, NotedAnswer>,
    clients: ReservedPairs<u32, ClientMark>,
}

impl Drop for Table {
    fn drop(self) {
        let Table {
            alloc: _,
            records: _,
            clients: _,
        } = self;
    }
}

impl Model for Table {
    ghost use Rattle.std.specs.Prelude.{min};
    ghost use Rattle.curp_rifl.specs.Clients.{firsts_of, gone_of};
    ghost use Rattle.curp_rifl.specs.Stored.{StoredTable};

    ghost Value = { StoredTable };

    ghost view = { λ t. record {
      table = record { records = t.records.items; firsts = firsts_of t.clients.items; gone = gone_of t.clients.items };
      spare = min t.records.spare t.clients.spare;
    } };
}

impl Table {
    /// The table before anything was done. It takes no memory.
    pub fn new(alloc: Global) -> Table
        ensures { result.table ≡ no_records }
    {
        Table {
            alloc,
            records: ReservedPairs::new(alloc),
            clients: ReservedPairs::new(alloc),
        }
    }

    /// Makes room for so many more requests and clients each.
    pub fn reserve(&mut self, spare: u64) -> Result<(), NoMemory>
        ensures table { self.new.table ≡ self.old.table }
        ensures room { OnOk result (spare ≤ self.new.spare) }
        ensures kept { self.old.spare ≤ self.new.spare }
    {
        self.records.reserve(spare)?;
        self.clients.reserve(spare)
    }

    /// The duplicate check (RIFL). It makes no more than two binary searches.
    #[tactic(auto, unfolding(curp_model::specs::Table::check))]
    pub fn check(&self, id: &RequestId) -> Check
        ensures { result ≡ check self.now.table id.now }
    {
        let mark = mark_of(&self.clients, id.client);
        if mark.is_gone() {
            return Check::Expired;
        }
        if id.seq < mark.first {
            return Check::Stale { first: mark.first };
        }
        match self.records.value_of(id) {
            Some(kept) => Check::Known {
                answer: kept.answer(),
                index: kept.index(),
            },
            None => Check::New,
        }
    }

    /// Whether the client is gone for good. It makes one binary search.
    pub fn is_gone(&self, client: u32) -> bool
        ensures { result ≡ is_gone self.now.table client }
    {
        mark_of(&self.clients, client).is_gone()
    }

    /// A request is done, with that answer, by the entry with that index. It takes no memory, since there is room.
    pub fn note(&mut self, id: RequestId, answer: Answer, index: u64)
        requires room { 1 ≤ self.old.spare }
        requires new { check self.old.table id ≡ New }
        ensures table { self.new.table ≡ note self.old.table id answer index }
        ensures spare { self.old.spare ≤ self.new.spare + 1 }
    {
        self.records.put_once(id, NotedAnswer::new(answer, index));
    }

    /// The client has the answers to all its requests below that number, so their records are dropped (RIFL). It takes
    /// no memory, since there is room.
    pub fn acknowledge(&mut self, client: u32, first: u32)
        requires room { 1 ≤ self.old.spare }
        ensures table { self.new.table ≡ acknowledge self.old.table client first }
        ensures spare { self.old.spare ≤ self.new.spare + 1 }
    {
        drop_below(&mut self.records, client, first);
        raise_first(&mut self.clients, client, first);
    }

    /// A request is done, and its client has the answers to all its requests below a number: a note and an
    /// acknowledgement, for which the room of one is enough.
    pub fn finish(&mut self, id: RequestId, answer: Answer, index: u64, first: u32)
        requires room { 1 ≤ self.old.spare }
        requires new { check self.old.table id ≡ New }
        ensures table { self.new.table ≡ acknowledge (note self.old.table id answer index) id.client first }
        ensures spare { self.old.spare ≤ self.new.spare + 1 }
    {
        self.records.put_once(id, NotedAnswer::new(answer, index));
        drop_below(&mut self.records, id.client, first);
        raise_first(&mut self.clients, id.client, first);
    }

    /// The client is gone for good, and its records with it. It takes no memory, since there is room.
    pub fn expire(&mut self, client: u32)
        requires room { 1 ≤ self.old.spare }
        ensures table { self.new.table ≡ expire self.old.table client }
        ensures spare { self.old.spare ≤ self.new.spare + 1 }
    {
        drop_client(&mut self.records, client);
        mark_gone(&mut self.clients, client);
    }

    /// What a migration takes along.
    pub fn pack(&self) -> Result<TablePart, NoMemory>
        ensures { IfOk result (λ part. part ≡ packed self.now.table) }
    {
        let records = answers_of(self.alloc, self.records.as_slice())?;
        let firsts = firsts_in(self.alloc, self.clients.as_slice())?;
        let gone = gone_in(self.alloc, self.clients.as_slice())?;
        Ok(TablePart {
            records: AscendingPairs::new(records),
            firsts: AscendingPairs::new(firsts),
            gone: AscendingKeys::new(gone),
        })
    }

    /// Takes in what a migration brings, in the entry with that index: records that weren't there, larger first
    /// numbers, and expired clients; what is of no use then is dropped. It asks for the room of the part, by `room`, and
    /// takes no memory.
    #[tactic(auto, unfolding(curp_model::specs::Table::merge))]
    pub fn merge(&mut self, part: &TablePart, index: u64)
        requires room { room_of part.now ≤ self.old.spare }
        ensures table { self.new.table ≡ merge self.old.table part.now index }
        ensures spare { self.old.spare ≤ self.new.spare + room_of part.now }
    {
        add_records(&mut self.records, part.records.as_slice(), index);
        raise_firsts(&mut self.clients, part.firsts.as_slice());
        mark_all_gone(&mut self.clients, part.gone.as_slice());
        keep_of_use(&mut self.records, &self.clients);
    }
}

/// How much room a part takes: 1 for each record, first number and expired client. It stands still at 2^64 - 1.
pub fn room(part: &TablePart) -> u64
    ensures { result ≡ room_of part.now }
{
    (part.records.len() as u64)
        .saturating_add(part.firsts.len() as u64)
        .saturating_add(part.gone.len() as u64)
}
