// The greatest number of commands between two recoveries, which no session has.
use curp_base::Failed;
use curp_words::{RespPlan, Task, Usage, read};
use std::alloc::Global;

fn task(alloc: Global, words: &[&str]) -> Result<Task, Failed<Usage>> {
    read(alloc, words)
}

fn plan_of(alloc: Global, words: &[&str]) -> Option<RespPlan> {
    match task(alloc, words) {
        Ok(Task::Resp(plan)) => Some(plan),
        _ => None,
    }
}

static SELDOM: [&str; 3] = ["resp", "--every", "1000000"];

#[test]
fn a_recovery_may_be_seldom(rt: HostRuntime) {
    let plan = plan_of(rt.alloc(), &SELDOM).expect(&rt, "no plan");
    assert!(rt; plan.every == 1_000_000);
}
