ghost use Rattle.std.specs.Prelude.{List};
ghost use Rattle.curp_base.specs.Words.{Each};
ghost use Rattle.curp_durable.specs.Standing.{Standing, taken};
ghost use Rattle.curp_filter.specs.Coming.{arrivals_of};
ghost use Rattle.curp_filter.specs.Taking.{AreJudged, BeginsWithMessage, IsUnbegun};
ghost use Rattle.curp_filter.specs.declared.came.Came.{Came};
ghost use Rattle.curp_filter.specs.declared.came.Role.{Role};
ghost use Rattle.curp_journal.specs.Own.{IsOwn};

use curp_msg::Core;

/// What the node of a process takes, and so what comes into its journal, is its own; and a fresh node takes a message
/// first. There is no code here: a caller has the law by the call.
pub fn only_own_is_taken<N: Core>()
    ensures own { (role : Role) (stand : Standing N) (cames : List Came) → AreJudged N.machine role stand cames
        → Each (IsOwn role.id) (taken N.machine stand (arrivals_of cames)) }
    ensures begins { (role : Role) (stand : Standing N) (cames : List Came) → AreJudged N.machine role stand cames
        → IsUnbegun role stand.count → BeginsWithMessage (taken N.machine stand (arrivals_of cames)) }
{}
