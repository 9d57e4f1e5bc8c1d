// Lines of steps that no word prints, or whose numbers no run shows: read as exactly these steps, and printed for them.
ghost use Rattle.std.specs.Prelude.{IsTrue};
ghost use Rattle.curp_script.specs.Printed.{NamesNode};

use crate::rows::must_hold;
use curp_cmd::{Keeper, NodeId, NodeKind};
use curp_print::print_line;
use curp_script::{LineReader, Step};
use std::alloc::Global;
use std::process::Abort;

fn names_node(step: &Step) -> bool
    ensures { IsTrue result → NamesNode step.now }
{
    match step {
        Step::Stop { node } => match node.kind {
            NodeKind::Manager => node.number == 0,
            _ => node.number != 0,
        },
        _ => true,
    }
}

/// Whether that step is read of the line.
pub(crate) fn reads_step(reader: &mut LineReader, line: &str, step: &Step) -> bool {
    match reader.parse_line(line.as_bytes()) {
        Ok(found) => found == *step,
        Err(_) => false,
    }
}

/// Whether the step has a line, and it is this.
fn is_printed(alloc: Global, step: &Step, line: &str) -> bool {
    if !names_node(step) {
        return false;
    }
    match print_line(alloc, step) {
        Ok(text) => text.as_slice() == line.as_bytes(),
        Err(_) => false,
    }
}

/// A row of the tables.
fn row(rt: &impl Abort, alloc: Global, step: Step, line: &str) {
    let mut reader = LineReader::new(alloc);
    must_hold(rt, line, reads_step(&mut reader, line, &step));
    must_hold(rt, line, is_printed(alloc, &step, line));
}

#[test]
fn numbers_are_read_and_printed(rt: HostRuntime) {
    let alloc = rt.alloc();
    let least = Step::Deliver { message: 0 };
    row(&rt, alloc, least, r#"{"do":"deliver","msg":0}"#);
    let greatest = Step::Deliver { message: u64::MAX };
    let line = r#"{"do":"deliver","msg":18446744073709551615}"#;
    row(&rt, alloc, greatest, line);
    let retry = Step::Retry { client: 1, seq: 2 };
    row(&rt, alloc, retry, r#"{"client":1,"do":"retry","seq":2}"#);
    let fetch = Step::Fetch { client: u32::MAX };
    row(&rt, alloc, fetch, r#"{"client":4294967295,"do":"fetch"}"#);
    let sync = Step::Sync { master: 0 };
    row(&rt, alloc, sync, r#"{"do":"sync","master":0}"#);
    let collect = Step::Collect { master: 3 };
    row(&rt, alloc, collect, r#"{"do":"collect","master":3}"#);
}

const RECOVER: Step = Step::Recover {
    part: 2,
    backup: 1,
    witness: 3,
};

const MIGRATE: Step = Step::Migrate {
    lo: 0,
    hi: 0x0fff_ffff_ffff_ffff,
    to: 2,
};

const REPLACE_BACKUP: Step = Step::Replace {
    keeper: Keeper::Backup,
    part: 1,
    place: 2,
};

const REPLACE_WITNESS: Step = Step::Replace {
    keeper: Keeper::Witness,
    part: 1,
    place: 2,
};

#[test]
fn orders_are_read_and_printed(rt: HostRuntime) {
    let alloc = rt.alloc();
    let line = r#"{"backup":1,"do":"recover","part":2,"witness":3}"#;
    row(&rt, alloc, RECOVER, line);
    let line = r#"{"do":"replace","kind":"backup","part":1,"place":2}"#;
    row(&rt, alloc, REPLACE_BACKUP, line);
    let line = r#"{"do":"replace","kind":"witness","part":1,"place":2}"#;
    row(&rt, alloc, REPLACE_WITNESS, line);
    let line = r#"{"do":"migrate","hi":"0fffffffffffffff","lo":"0000000000000000","to":2}"#;
    row(&rt, alloc, MIGRATE, line);
    row(&rt, alloc, Step::Nudge, r#"{"do":"nudge"}"#);
    let expire = Step::Expire { client: 1 };
    row(&rt, alloc, expire, r#"{"client":1,"do":"expire"}"#);
}

static STOPS: [(NodeKind, u32, &str); 5] = [
    (NodeKind::Manager, 0, r#"{"do":"stop","node":"G"}"#),
    (NodeKind::Client, 1, r#"{"do":"stop","node":"C1"}"#),
    (NodeKind::Master, 20, r#"{"do":"stop","node":"M20"}"#),
    (
        NodeKind::Backup,
        u32::MAX,
        r#"{"do":"stop","node":"B4294967295"}"#,
    ),
    (NodeKind::Witness, 9, r#"{"do":"stop","node":"W9"}"#),
];

#[test]
fn stops_are_read_and_printed(rt: HostRuntime) {
    for (kind, number, line) in &STOPS {
        let node = NodeId {
            kind: *kind,
            number: *number,
        };
        row(&rt, rt.alloc(), Step::Stop { node }, line);
    }
}
