ghost use Rattle.std.specs.Prelude.{map, length, ◌≤◌, IfOk, IfErr};
ghost use Rattle.curp_base.specs.Words.{Each};
ghost use Rattle.curp_msg.specs.Limits.{step_limit};
ghost use Rattle.curp_msg.specs.Script.{IsHeader};
ghost use Rattle.curp_base.specs.Failing.{IfBecause};
ghost use Rattle.curp_script.specs.Printed.{NamesNode};
ghost use Rattle.curp_collected.specs.Causes.{IsScriptCause};
ghost use Rattle.curp_collected.specs.Collected.{IsScriptOfFiles};

use crate::{ScriptError, collect};
use curp_base::Failed;
use curp_gather::gather;
use curp_law_weave::runs_show_their_journals;
use curp_msg::{Header, Step};
use std::alloc::Global;

/// A script: its first line, and its steps.
#[derive(Drop)]
pub struct FileScript {
    pub header: Header,
    pub steps: Vec<Step>,
}

/// The script of what the nodes did whose journals these files are, up to the stamp `until`, or all that they did. The
/// part that each node has in it is its journal; so each request that completed in a journal completes in it once
/// (`runs_show_their_journals` of `curp_law_weave`).
pub fn script_of(
    alloc: Global,
    files: &[Vec<u8>],
    until: Option<u64>,
) -> Result<FileScript, Failed<ScriptError>>
    ensures script { IfOk result
        (λ s. IsScriptOfFiles (map (λ file. file.items) files.now) until s.header s.steps.items) }
    ensures header { IfOk result (λ s. IsHeader s.header) }
    ensures few { IfOk result (λ s. length s.steps.items ≤ step_limit) }
    // No node stopped, so each step can be printed.
    ensures printable { IfOk result (λ s. Each NamesNode s.steps.items) }
    ensures cause { IfErr result (IfBecause (IsScriptCause (map (λ file. file.items) files.now) until)) }
{
    runs_show_their_journals();
    let (header, journals) = match collect(alloc, files, until) {
        Ok(found) => found,
        Err(Failed::NoMemory) => return Err(Failed::NoMemory),
        Err(Failed::Because(why)) => return Err(Failed::Because(ScriptError::from(why))),
    };
    match gather(alloc, &header, &journals) {
        Ok(steps) => Ok(FileScript { header, steps }),
        Err(Failed::NoMemory) => Err(Failed::NoMemory),
        Err(Failed::Because(why)) => Err(Failed::Because(ScriptError::from(why))),
    }
}
