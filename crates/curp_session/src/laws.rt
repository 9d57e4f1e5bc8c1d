//! Laws of sessions. Each is the contract of a function with nothing in it: a caller has it by calling that function.
ghost use Rattle.std.specs.Prelude.{◌≡◌, ℕ, List, None, map};
ghost use Rattle.curp_base.specs.Words.{IsPrefix};
ghost use Rattle.curp_law_served.specs.Served.{answered, header_of, in_turn};
ghost use Rattle.curp_model.specs.World.{world};
ghost use Rattle.curp_resp.specs.Meaning.{meaning};
ghost use Rattle.curp_session.specs.Session.{ShowsReplied, commands_in, replies_of_one_thread, session};
ghost use Rattle.curp_words.specs.Plan.{IsRespPlan};
ghost use Rattle.curp_words.specs.declared.task.RespPlan.{RespPlan};

/// A session replies as one thread, and the run of its steps completes each command before the next, with that answer.
pub fn sessions_are_of_one_thread()
    // The replies are those of one thread to the same requests: all of them, or a prefix where a limit is met.
    ensures prefix { (plan : RespPlan) (requests : List (List (List ℕ))) → IsRespPlan plan
        → IsPrefix (session plan requests).replies (replies_of_one_thread requests) }
    ensures to_the_end { (plan : RespPlan) (requests : List (List (List ℕ))) → IsRespPlan plan
        → (session plan requests).served.stopped ≡ None
        → (session plan requests).replies ≡ replies_of_one_thread requests }
    // Whether a limit is met or not, the run shows what was replied.
    ensures shows { (plan : RespPlan) (requests : List (List (List ℕ))) → IsRespPlan plan
        → ShowsReplied plan.f (map meaning requests) (session plan requests) }
    ensures completes { (plan : RespPlan) (requests : List (List (List ℕ))) → IsRespPlan plan
        → (session plan requests).served.stopped ≡ None
        → (world (header_of plan.f) (session plan requests).served.steps).history
        ≡ in_turn (answered (commands_in (map meaning requests))) }
{
    curp_law_served::served();
}
