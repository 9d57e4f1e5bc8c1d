//! Laws of the store. Each is the contract of a function that does nothing: a caller has it by calling that function.
ghost use Rattle.std.specs.Prelude.{◌≡◌, ◌≢◌, ℕ, List, Some, false, true};
ghost use Rattle.std.specs.FinMap as map;
ghost use Rattle.curp_cmd.specs.Hash.{conflicts};
ghost use Rattle.curp_cmd.specs.Store.{Contents, NamesKey, applied, is_undone, is_update};

use crate::Command;

/// A command names one to four keys: no multi-put is empty, and none has more than four pairs.
pub fn names_one_to_four_keys(command: &Command)
    ensures { NamesKey command.now }
{
    if let Command::Multi(pairs) = command {
        pairs.as_slice();
    }
}

/// A put gives its key the value, and changes no other key's.
pub fn put_changes_one_key()
    ensures own { (s : Contents) (key value : List ℕ)
        → map.get (applied s (Command.Put key value)).after key ≡ Some value }
    ensures other { (s : Contents) (key value other : List ℕ) → other ≢ key
        → map.get (applied s (Command.Put key value)).after other ≡ map.get s other }
{}

/// A command that is no update leaves the store as it was.
pub fn reads_change_nothing()
    ensures { (s : Contents) (command : Command) → is_update command ≡ false → (applied s command).after ≡ s }
{}

/// A command that isn't done (NotNumber, Overflow, TooLong, Swapped(false)) leaves the store as it was.
pub fn undone_changes_nothing()
    ensures { (s : Contents) (command : Command) → is_undone (applied s command).answer ≡ true
        → (applied s command).after ≡ s }
{}

/// Two commands with no hash in common may be done in either order: the store is the same after both, and each answers
/// as it would without the other.
pub fn apart_commute()
    ensures after { (s : Contents) (a b : Command) → conflicts a b ≡ false
        → (applied (applied s a).after b).after ≡ (applied (applied s b).after a).after }
    ensures first { (s : Contents) (a b : Command) → conflicts a b ≡ false
        → (applied (applied s b).after a).answer ≡ (applied s a).answer }
    ensures second { (s : Contents) (a b : Command) → conflicts a b ≡ false
        → (applied (applied s a).after b).answer ≡ (applied s b).answer }
{}
