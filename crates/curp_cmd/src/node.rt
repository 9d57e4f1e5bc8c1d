ghost use Rattle.std.specs.Prelude.{◌≡◌};
ghost use Rattle.std.specs.Cmp.Rules.{comparing};
ghost use Rattle.std.proofs.Common.{rules};
ghost use Rattle.curp_cmd.specs.Node.{manager_node, client_node, master_node, backup_node, witness_node};
ghost use Rattle.curp_cmd.specs.Node.{same_kind, same_node};

/// What a node is.
#[derive(Clone, Copy, Debug)]
pub enum NodeKind {
    Manager,
    Client,
    Master,
    Backup,
    Witness,
}

impl PartialEq for NodeKind {
    ghost eq = { same_kind };

    ghost laws = { Prim.search (comparing, rules) };

    fn eq(&self, other: &NodeKind) -> bool {
        matches!(
            (self, other),
            (NodeKind::Manager, NodeKind::Manager)
                | (NodeKind::Client, NodeKind::Client)
                | (NodeKind::Master, NodeKind::Master)
                | (NodeKind::Backup, NodeKind::Backup)
                | (NodeKind::Witness, NodeKind::Witness)
        )
    }
}

impl Eq for NodeKind {
    ghost laws = { Prim.search (comparing, rules) };
}

/// The name of a node: its kind, and its number among its kind. The manager has the number 0, all others count from 1.
#[derive(Clone, Copy, Debug)]
pub struct NodeId {
    pub kind: NodeKind,
    pub number: u32,
}

impl NodeId {
    /// The one manager.
    pub fn manager() -> NodeId
        ensures { result ≡ manager_node }
    {
        NodeId {
            kind: NodeKind::Manager,
            number: 0,
        }
    }

    /// The client of this number.
    pub fn client(number: u32) -> NodeId
        ensures { result ≡ client_node number }
    {
        NodeId {
            kind: NodeKind::Client,
            number,
        }
    }

    /// The master of this number.
    pub fn master(number: u32) -> NodeId
        ensures { result ≡ master_node number }
    {
        NodeId {
            kind: NodeKind::Master,
            number,
        }
    }

    /// The backup of this number.
    pub fn backup(number: u32) -> NodeId
        ensures { result ≡ backup_node number }
    {
        NodeId {
            kind: NodeKind::Backup,
            number,
        }
    }

    /// The witness of this number.
    pub fn witness(number: u32) -> NodeId
        ensures { result ≡ witness_node number }
    {
        NodeId {
            kind: NodeKind::Witness,
            number,
        }
    }
}

impl PartialEq for NodeId {
    ghost eq = { same_node };

    ghost laws = { Prim.search (comparing, rules) };

    fn eq(&self, other: &NodeId) -> bool {
        self.kind == other.kind && self.number == other.number
    }
}

impl Eq for NodeId {
    ghost laws = { Prim.search (comparing, rules) };
}

/// The two kinds of node that keep a partition's requests, and that another of their kind may replace.
#[derive(Clone, Copy, Debug, PartialEq, Eq)]
pub enum Keeper {
    Backup,
    Witness,
}
