ghost use Rattle.std.specs.Prelude.{◌≡◌, IfOk};
ghost use Rattle.curp_base.specs.Failing.{Gives};
ghost use Rattle.curp_script.specs.Grammar.{step_of, values_of};
ghost use Rattle.curp_script.specs.Values.{value_data};
ghost use Rattle.curp_script.specs.Unshared.{step_said, said};

use super::command::command_at;
use super::fields::{hash_at, index_at, keeper_at, kind_at, no_other, node_at, number_at};
use crate::kind::Kind;
use crate::{FieldName, LineError, Step};
use curp_base::{Failed, NoMemory, Shared};
use curp_cmd::Command;
use json::Value as Json;
use std::alloc::Global;

// A step as it is read. The command of an invocation isn't shared yet, which alone needs memory.
#[derive(Drop)]
pub(crate) enum Unshared {
    Invoke { client: u32, command: Command },
    Other(Step),
}

impl Unshared {
    fn share(self, alloc: Global) -> Result<Step, NoMemory>
        ensures { IfOk result (λ step. step ≡ step_said self) }
    {
        Ok(match self {
            Unshared::Invoke { client, command } => Step::Invoke {
                client,
                command: Shared::of(alloc, &command)?,
            },
            Unshared::Other(step) => step,
        })
    }
}

pub(crate) fn step_of(alloc: Global, object: &Json<'_>) -> Result<Step, Failed<LineError>>
    ensures { Gives (step_of (value_data object.now)) result }
{
    let unshared = unshared_of(object).map_err(Failed::Because)?;
    Ok(unshared.share(alloc)?)
}

fn unshared_of(object: &Json<'_>) -> Result<Unshared, LineError>
    ensures { said result ≡ step_of (value_data object.now) }
{
    let kind = kind_at(object)?;
    let unshared = values_of(kind, object)?;
    no_other(object, kind.names())?;
    Ok(unshared)
}

// The step of a kind, by the values of its names, in byte order.
fn values_of(kind: Kind, object: &Json<'_>) -> Result<Unshared, LineError>
    ensures { said result ≡ values_of kind (value_data object.now) }
{
    let step = match kind {
        Kind::Invoke => {
            return Ok(Unshared::Invoke {
                client: index_at(object, FieldName::Client)?,
                command: command_at(object)?,
            });
        }
        Kind::Deliver => Step::Deliver {
            message: number_at(object, FieldName::Msg, 0, u64::MAX)?,
        },
        Kind::Retry => Step::Retry {
            client: index_at(object, FieldName::Client)?,
            seq: index_at(object, FieldName::Seq)?,
        },
        Kind::Fetch => Step::Fetch {
            client: index_at(object, FieldName::Client)?,
        },
        Kind::Sync => Step::Sync {
            master: index_at(object, FieldName::Master)?,
        },
        Kind::Collect => Step::Collect {
            master: index_at(object, FieldName::Master)?,
        },
        Kind::Recover => Step::Recover {
            backup: index_at(object, FieldName::Backup)?,
            part: index_at(object, FieldName::Part)?,
            witness: index_at(object, FieldName::Witness)?,
        },
        Kind::Replace => Step::Replace {
            keeper: keeper_at(object)?,
            part: index_at(object, FieldName::Part)?,
            place: index_at(object, FieldName::Place)?,
        },
        Kind::Migrate => Step::Migrate {
            hi: hash_at(object, FieldName::Hi)?,
            lo: hash_at(object, FieldName::Lo)?,
            to: index_at(object, FieldName::To)?,
        },
        Kind::Nudge => Step::Nudge,
        Kind::Expire => Step::Expire {
            client: index_at(object, FieldName::Client)?,
        },
        Kind::Stop => Step::Stop {
            node: node_at(object)?,
        },
    };
    Ok(Unshared::Other(step))
}
