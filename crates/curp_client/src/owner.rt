ghost use Rattle.std.specs.Prelude.{◌≡◌};
ghost use Rattle.std.specs.Option.{option_copied};
ghost use Rattle.curp_cmd.specs.Hash.{hashes};
ghost use Rattle.curp_model.specs.Client.{owner_of};
ghost use Rattle.curp_model.specs.Ranges.{owns_all};
ghost use Rattle.curp_range.specs.Spans.{is_owned};

use curp_cmd::{Command, Hashes};
use curp_msg::{Config, PartConfig};

/// The first partition that owns all keys of the command.
pub(crate) fn owner_of<'a>(config: &'a Config, command: &Command) -> Option<&'a PartConfig>
    ensures { option_copied result ≡ owner_of config.now command.now }
{
    config
        .parts
        .as_slice()
        .iter()
        .find(|part| owns_all(part, command))
}

fn owns_all(part: &PartConfig, command: &Command) -> bool
    ensures { result ≡ owns_all part.now.ranges (hashes command.now) }
{
    Hashes::of(command)
        .as_slice()
        .iter()
        .all(|hash| owns(part.ranges.as_slice(), *hash))
}

fn owns(spans: &[(u64, u64)], hash: u64) -> bool
    ensures { result ≡ is_owned spans.now hash }
{
    spans.iter().any(|span| span.0 <= hash && hash <= span.1)
}
