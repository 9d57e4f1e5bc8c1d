// Names of nodes and items, by their numbers.
ghost use Rattle.std.specs.Prelude.{◌≡◌, ◌+◌, ◌-◌, ◌≤◌, slice_set, IfOk};
ghost use Rattle.std.specs.Option.{option_copied};
ghost use Rattle.curp_base.specs.Words.{numbered};
ghost use Rattle.curp_model.specs.Manager.{backup_nodes, witness_nodes};

use curp_base::NoMemory;
use curp_cmd::NodeId;
use std::alloc::Global;

/// So many backups, numbered from `first` on.
pub fn backup_names(alloc: Global, first: u32, count: u32) -> Result<Vec<NodeId>, NoMemory>
    requires { first + count ≤ u32.MAX }
    ensures { IfOk result (λ names. names.items ≡ backup_nodes first count) }
{
    let mut names = Vec::with_capacity(alloc, count as usize)?;
    for made in 0..count {
        names.push(NodeId::backup(first + made))?;
    }
    Ok(names)
}

/// So many witnesses, numbered from `first` on.
pub fn witness_names(alloc: Global, first: u32, count: u32) -> Result<Vec<NodeId>, NoMemory>
    requires { first + count ≤ u32.MAX }
    ensures { IfOk result (λ names. names.items ≡ witness_nodes first count) }
{
    let mut names = Vec::with_capacity(alloc, count as usize)?;
    for made in 0..count {
        names.push(NodeId::witness(first + made))?;
    }
    Ok(names)
}

/// The item of that number, counted from 1.
pub fn numbered<T>(items: &[T], number: u32) -> Option<&T>
    ensures { option_copied result ≡ numbered items.now number }
{
    items.get(number.checked_sub(1)? as usize)
}

/// Puts an item into the place of that number, counted from 1, if there is one.
pub fn put_numbered<T: Drop>(items: &mut [T], number: u32, item: T)
    requires { 1 ≤ number }
    ensures { items.new ≡ slice_set items.old (number - 1) item }
{
    let at = (number - 1) as usize;
    if at < items.len() {
        items[at] = item;
    }
}
