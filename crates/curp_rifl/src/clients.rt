//! What is kept of clients: first numbers, and which clients are gone.
ghost use Rattle.std.specs.Prelude.{◌≡◌, ◌+◌, ◌==◌, ◌≤◌, IfOk, length, fold, unwrap_or};
ghost use Rattle.std.specs.BTreeSet.{insert_key};
ghost use Rattle.std.specs.FinMap.Entries.{find};
ghost use Rattle.std.specs.List.{list_any};
ghost use Rattle.std.specs.Ordering.{nat_cmp};
ghost use Rattle.curp_base.specs.Words.{Ascend, KeysAscend};
ghost use Rattle.curp_model.specs.Table.{raise_first};
ghost use Rattle.curp_rifl.specs.Clients.{firsts_of, gone_of, has_left, mark_in};
ghost use Rattle.curp_rifl.specs.Records.{with_firsts};

use curp_base::{NoMemory, ReservedPairs};
use std::alloc::Global;

/// Whether a client is gone for good.
#[derive(Clone, Copy)]
pub enum Presence {
    Present,
    Gone,
}

/// What is kept of a client: its first request that isn't acknowledged, at first 0, and whether it is gone.
#[derive(Clone, Copy)]
pub struct ClientMark {
    pub first: u32,
    pub presence: Presence,
}

impl ClientMark {
    /// Whether the client is gone for good.
    pub fn is_gone(&self) -> bool
        ensures { result ≡ has_left self.now.presence }
    {
        match self.presence {
            Presence::Present => false,
            Presence::Gone => true,
        }
    }
}

/// What is kept of the client, by one binary search.
pub fn mark_of(clients: &ReservedPairs<u32, ClientMark>, client: u32) -> ClientMark
    ensures mark { result ≡ mark_in (find nat_cmp client clients.now.items) }
    ensures first { result.first ≡ unwrap_or (find nat_cmp client (firsts_of clients.now.items)) 0 }
    ensures gone { has_left result.presence ≡ list_any (λ c. c == client) (gone_of clients.now.items) }
    ensures ascend { KeysAscend nat_cmp clients.now.items }
{
    clients.value_of(&client).unwrap_or(ClientMark {
        first: 0,
        presence: Presence::Present,
    })
}

/// The client's first number counts from this one on, if it isn't larger already. It takes no memory.
pub fn raise_first(clients: &mut ReservedPairs<u32, ClientMark>, client: u32, first: u32)
    requires { 1 ≤ clients.old.spare }
    ensures firsts { firsts_of clients.new.items ≡ raise_first (firsts_of clients.old.items) client first }
    ensures gone { gone_of clients.new.items ≡ gone_of clients.old.items }
    ensures spare { clients.old.spare ≤ clients.new.spare + 1 }
{
    if first > 0 {
        let mark = mark_of(clients, client);
        let raised = ClientMark {
            first: first.max(mark.first),
            presence: mark.presence,
        };
        clients.put(client, raised);
    }
}

/// The first numbers that come are counted too. It takes no memory.
pub fn raise_firsts(clients: &mut ReservedPairs<u32, ClientMark>, raised: &[(u32, u32)])
    requires { length raised.now ≤ clients.old.spare }
    ensures firsts { firsts_of clients.new.items ≡ with_firsts (firsts_of clients.old.items) raised.now }
    ensures gone { gone_of clients.new.items ≡ gone_of clients.old.items }
    ensures spare { clients.old.spare ≤ clients.new.spare + length raised.now }
{
    for (client, first) in raised {
        raise_first(clients, *client, *first);
    }
}

/// The client is gone for good. It takes no memory.
pub fn mark_gone(clients: &mut ReservedPairs<u32, ClientMark>, client: u32)
    requires { 1 ≤ clients.old.spare }
    ensures firsts { firsts_of clients.new.items ≡ firsts_of clients.old.items }
    ensures gone { gone_of clients.new.items ≡ insert_key nat_cmp (gone_of clients.old.items) client }
    ensures spare { clients.old.spare ≤ clients.new.spare + 1 }
{
    let mark = mark_of(clients, client);
    let gone = ClientMark {
        first: mark.first,
        presence: Presence::Gone,
    };
    clients.put(client, gone);
}

/// The clients that come are gone too. It takes no memory.
pub fn mark_all_gone(clients: &mut ReservedPairs<u32, ClientMark>, gone: &[u32])
    requires { length gone.now ≤ clients.old.spare }
    ensures firsts { firsts_of clients.new.items ≡ firsts_of clients.old.items }
    ensures gone { gone_of clients.new.items ≡ fold (insert_key nat_cmp) (gone_of clients.old.items) gone.now }
    ensures spare { clients.old.spare ≤ clients.new.spare + length gone.now }
{
    for client in gone {
        mark_gone(clients, *client);
    }
}

/// The first numbers, without those that are 0.
pub fn firsts_in(alloc: Global, clients: &[(u32, ClientMark)]) -> Result<Vec<(u32, u32)>, NoMemory>
    requires { KeysAscend nat_cmp clients.now }
    ensures firsts { IfOk result (λ firsts. firsts.items ≡ firsts_of clients.now) }
    ensures ascend { IfOk result (λ firsts. KeysAscend nat_cmp firsts.items) }
{
    let mut firsts = Vec::new(alloc);
    for (client, mark) in clients {
        if mark.first > 0 {
            firsts.push((*client, mark.first))?;
        }
    }
    Ok(firsts)
}

/// The clients that are gone.
pub fn gone_in(alloc: Global, clients: &[(u32, ClientMark)]) -> Result<Vec<u32>, NoMemory>
    requires { KeysAscend nat_cmp clients.now }
    ensures gone { IfOk result (λ gone. gone.items ≡ gone_of clients.now) }
    ensures ascend { IfOk result (λ gone. Ascend nat_cmp gone.items) }
{
    let mut gone = Vec::new(alloc);
    for (client, mark) in clients {
        if mark.is_gone() {
            gone.push(*client)?;
        }
    }
    Ok(gone)
}
