ghost use Rattle.std.proofs.Common.{rules};
ghost use Rattle.std.specs.Cmp.Rules.{comparing, hashing};

use curp_cmd::RequestId;
use std::hash::{Hash, Hasher};

/// A request by its id, as marks are found by it.
#[derive(Clone, Copy)]
pub struct RequestKey(pub RequestId);

impl PartialEq for RequestKey {
    ghost use Rattle.curp_cmd.specs.RequestId.{same_id};

    ghost eq = { λ a b. same_id a.0 b.0 };

    ghost laws = { Prim.search (comparing, rules) };

    fn eq(&self, other: &RequestKey) -> bool {
        self.0 == other.0
    }
}

impl Eq for RequestKey {
    ghost laws = { Prim.search (comparing, rules) };
}

impl Hash for RequestKey {
    ghost use Rattle.std.specs.Prelude.{◌++◌};
    ghost use Rattle.std.specs.Hash as fed;

    ghost hash_input = { λ r. fed.u32 r.0.client ++ fed.u32 r.0.seq };

    ghost respects_eq = { Prim.search (hashing, rules) };

    fn hash<H: Hasher>(&self, state: &mut H) {
        self.0.client.hash(state);
        self.0.seq.hash(state);
    }
}
