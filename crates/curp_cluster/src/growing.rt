// The fresh nodes that the manager names.
ghost use Rattle.std.specs.Prelude.{◌≡◌};
ghost use Rattle.curp_msg.specs.Input.{input_of};
ghost use Rattle.curp_cluster.specs.Nodes.{most_fresh};

use curp_cmd::Keeper;
use curp_msg::{Input, Local};

/// So many nodes of each kind.
#[derive(Clone, Copy)]
pub(crate) struct Counts {
    pub(crate) masters: u32,
    pub(crate) backups: u32,
    pub(crate) witnesses: u32,
}

/// So many fresh nodes an input lets the manager name at most, where a partition has so many backups and as many
/// witnesses.
pub(crate) fn most_fresh(keepers: u32, input: Input) -> Counts
    ensures masters { result.masters ≡ (most_fresh keepers (input_of input.entry)).masters }
    ensures backups { result.backups ≡ (most_fresh keepers (input_of input.entry)).backups }
    ensures witnesses { result.witnesses ≡ (most_fresh keepers (input_of input.entry)).witnesses }
{
    let (masters, backups, witnesses) = match input {
        Input::Local(Local::Recover { .. }) => (1, keepers, keepers),
        Input::Local(
            Local::Replace {
                keeper: Keeper::Backup,
                ..
            },
        ) => (0, 1, 0),
        Input::Local(
            Local::Replace {
                keeper: Keeper::Witness,
                ..
            },
        ) => (0, 0, 1),
        _ => (0, 0, 0),
    };
    Counts {
        masters,
        backups,
        witnesses,
    }
}
