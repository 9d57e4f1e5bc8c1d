ghost use Rattle.std.proofs.Common.{rules};
ghost use Rattle.std.specs.Cmp.Rules.{comparing, hashing};

use curp_cmd::NodeId;
use std::hash::{Hash, Hasher};

/// A node, as a place is found by it.
#[derive(Clone, Copy)]
pub(crate) struct NodeKey(pub(crate) NodeId);

impl PartialEq for NodeKey {
    ghost use Rattle.curp_cmd.specs.Node.{same_node};

    ghost eq = { λ a b. same_node a.0 b.0 };

    ghost laws = { Prim.search (comparing, rules) };

    fn eq(&self, other: &NodeKey) -> bool {
        self.0 == other.0
    }
}

impl Eq for NodeKey {
    ghost laws = { Prim.search (comparing, rules) };
}

impl Hash for NodeKey {
    ghost use Rattle.std.specs.Hash as fed;

    ghost hash_input = { λ n. fed.u32 n.0.number };

    ghost respects_eq = { Prim.search (hashing, rules) };

    // Nodes of one number and of two kinds are rare here, so the kind isn't asked.
    fn hash<H: Hasher>(&self, state: &mut H) {
        self.0.number.hash(state);
    }
}
