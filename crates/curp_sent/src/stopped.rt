ghost use Rattle.std.specs.Prelude.{◌≡◌, ◌++◌, ◌∷◌, ◌||◌, ℕ, [], nat_eq, OnOk, OnErr};
ghost use Rattle.std.specs.List.{list_any};
ghost use Rattle.curp_cmd.specs.Node.{same_node};

use curp_base::NoMemory;
use curp_cmd::{NodeId, NodeKind};
use std::alloc::Global;
use std::collections::BTreeSet;
use std::marker::Model;

/// The nodes that get nothing more, in the order in which they were stopped. There are at most as many as nodes.
pub struct Stopped {
    nodes: Vec<NodeId>,
    // Their numbers, by their kinds.
    managers: BTreeSet<u32>,
    clients: BTreeSet<u32>,
    masters: BTreeSet<u32>,
    backups: BTreeSet<u32>,
    witnesses: BTreeSet<u32>,
}

impl Drop for Stopped {
    fn drop(self) {
        let Stopped {
            nodes: _,
            managers: _,
            clients: _,
            masters: _,
            backups: _,
            witnesses: _,
        } = self;
    }
}

impl Model for Stopped {
    ghost use Rattle.std.specs.Prelude.{List};
    ghost use Rattle.curp_cmd.specs.declared.node.NodeId.{NodeId};
    ghost use Rattle.curp_sent.specs.Stopped.{AreNumbersOf};

    ghost Value = { List NodeId };

    ghost view = { λ s. s.nodes.items };

    ghost invariant = { λ s. AreNumbersOf s.nodes.items (record {
      managers = s.managers.keys;
      clients = s.clients.keys;
      masters = s.masters.keys;
      backups = s.backups.keys;
      witnesses = s.witnesses.keys;
    }) };
}

impl Stopped {
    /// None is stopped. It takes no memory.
    pub fn new(alloc: Global) -> Stopped
        ensures { result ≡ [] }
    {
        Stopped {
            nodes: Vec::new(alloc),
            managers: BTreeSet::new(alloc),
            clients: BTreeSet::new(alloc),
            masters: BTreeSet::new(alloc),
            backups: BTreeSet::new(alloc),
            witnesses: BTreeSet::new(alloc),
        }
    }

    /// Whether the node is one of them. It looks at no more of them than the logarithm of their number.
    pub fn contains(&self, node: NodeId) -> bool
        ensures { result ≡ list_any (same_node node) self.now }
    {
        match node.kind {
            NodeKind::Manager => has(&self.managers, node.number),
            NodeKind::Client => has(&self.clients, node.number),
            NodeKind::Master => has(&self.masters, node.number),
            NodeKind::Backup => has(&self.backups, node.number),
            NodeKind::Witness => has(&self.witnesses, node.number),
        }
    }

    /// The node is one of them from then on.
    pub fn add(&mut self, node: NodeId) -> Result<(), NoMemory>
        ensures ok { OnOk result (self.new ≡ self.old ++ node ∷ []) }
        ensures err { OnErr result (self.new ≡ self.old) }
    {
        self.nodes.reserve(1)?;
        match node.kind {
            NodeKind::Manager => insert(&mut self.managers, node.number)?,
            NodeKind::Client => insert(&mut self.clients, node.number)?,
            NodeKind::Master => insert(&mut self.masters, node.number)?,
            NodeKind::Backup => insert(&mut self.backups, node.number)?,
            NodeKind::Witness => insert(&mut self.witnesses, node.number)?,
        }
        self.nodes.push_reserved(node);
        Ok(())
    }
}

fn has(numbers: &BTreeSet<u32>, number: u32) -> bool
    ensures { result ≡ list_any (nat_eq number) numbers.now.keys }
{
    numbers.contains(&number)
}

fn insert(numbers: &mut BTreeSet<u32>, number: u32) -> Result<(), NoMemory>
    ensures ok { OnOk result ((n : ℕ) → list_any (nat_eq n) numbers.new.keys
        ≡ (nat_eq n number || list_any (nat_eq n) numbers.old.keys)) }
    ensures err { OnErr result (numbers.new ≡ numbers.old) }
{
    numbers.insert(number)?;
    Ok(())
}
