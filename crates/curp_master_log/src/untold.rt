// Whether entries of a log of which no tail tells touch a command.
ghost use Rattle.std.specs.Prelude.{◌≡◌, ◌≤◌, ◌++◌, drop, IfOk};
ghost use Rattle.std.specs.List.{list_any};
ghost use Rattle.curp_cmd.specs.Hash.{hashes};
ghost use Rattle.curp_model.specs.Log.{entry_touches, is_touched};

use curp_base::NoMemory;
use curp_cmd::{Command, Entry, Hashes};
use curp_log::Log;
use curp_tail::Touched;
use curp_tail::laws::tail_tells_of_log;

/// The entries from a place on, as far as another place.
pub(crate) fn between(log: &Log, from: u64, to: u64) -> Result<Vec<Entry>, NoMemory>
    requires { from ≤ to }
    ensures { IfOk result (λ entries. drop from log.now.entries ≡ entries.items ++ drop to log.now.entries) }
{
    log.between(from, to)
}

/// Whether some entry touches a hash of the command.
pub(crate) fn touch(entries: &[Entry], command: &Command) -> bool
    ensures { result ≡ is_touched entries.now command.now }
{
    entries.iter().any(|entry| touches_any(entry, command))
}

// Whether an entry touches a hash of the command.
fn touches_any(entry: &Entry, command: &Command) -> bool
    ensures { result ≡ list_any (entry_touches entry.now) (hashes command.now) }
{
    Hashes::of(command)
        .as_slice()
        .iter()
        .any(|hash| touches(entry, *hash))
}

fn touches(entry: &Entry, hash: u64) -> bool
    ensures { result ≡ entry_touches entry.now hash }
{
    tail_tells_of_log();
    Touched::of(entry).touches(hash)
}
