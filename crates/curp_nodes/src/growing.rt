// Fresh nodes, behind those that are there.
ghost use Rattle.std.specs.Prelude.{◌≡◌, ◌≤◌, ◌<◌, ◌+◌, ◌-◌, ◌^◌, ◌++◌, length, vec_capacity, OnOk, IfOk};
ghost use Rattle.curp_model.specs.Backup.{fresh_backup};
ghost use Rattle.curp_model.specs.Recovery.{Fresh};
ghost use Rattle.curp_model.specs.Witness.{fresh_witness};
ghost use Rattle.curp_model.specs.World.{grown};
ghost use Rattle.curp_nodes.specs.Nodes.{HasNumbers, IsAhead, states};

use crate::{BackupNode, MasterNode, WitnessNode};
use curp_base::NoMemory;
use curp_slots::BadShape;
use std::alloc::{AllocError, Global};

/// Fresh masters below that number are there. It takes no memory, since there is room.
pub fn add_masters(alloc: Global, masters: &mut Vec<MasterNode>, next: u32)
    requires numbers { HasNumbers masters.old.items }
    requires there { length masters.old.items < next }
    requires room { next - 1 ≤ vec_capacity masters.old }
    ensures states { states masters.new.items ≡ grown (states masters.old.items) Fresh next }
    ensures numbers { HasNumbers masters.new.items }
    ensures there { length masters.new.items + 1 ≡ next }
{
    for number in masters.len() as u32 + 1..next {
        masters.push_reserved(MasterNode::fresh(alloc, number));
    }
}

/// Fresh backups below that number are there. It takes no memory, since there is room.
pub fn add_backups(alloc: Global, backups: &mut Vec<BackupNode>, next: u32)
    requires numbers { HasNumbers backups.old.items }
    requires there { length backups.old.items < next }
    requires room { next - 1 ≤ vec_capacity backups.old }
    ensures states { states backups.new.items ≡ grown (states backups.old.items) fresh_backup next }
    ensures numbers { HasNumbers backups.new.items }
    ensures there { length backups.new.items + 1 ≡ next }
{
    for number in backups.len() as u32 + 1..next {
        backups.push_reserved(BackupNode::fresh(alloc, number));
    }
}

/// Makes so many fresh witnesses, as far as they aren't made yet, numbered behind those that are there. They have no
/// slots before they are started. Where memory wants, what was made stays made.
pub fn make_ahead(
    alloc: Global,
    ahead: &mut Vec<WitnessNode>,
    there: &[WitnessNode],
    count: u32,
    sets: u32,
    ways: u32,
) -> Result<(), NoMemory>
    requires ahead { IsAhead there.now ahead.old.items sets ways }
    requires numbers { length there.now + count < 2 ^ 32 }
    ensures ahead { IsAhead there.now ahead.new.items sets ways }
    ensures made { OnOk result (count ≤ length ahead.new.items) }
{
    for made in ahead.len()..count as usize {
        let number = (there.len() + made) as u32 + 1;
        ahead.push(fresh_witness(alloc, number, sets, ways)?)?;
    }
    Ok(())
}

fn fresh_witness(alloc: Global, number: u32, sets: u32, ways: u32) -> Result<WitnessNode, NoMemory>
    ensures number { IfOk result (λ w. w.number ≡ number) }
    ensures state { IfOk result (λ w. w.state ≡ fresh_witness sets ways) }
{
    match WitnessNode::fresh(alloc, number, sets, ways) {
        Ok(witness) => Ok(witness),
        // The header's shape is in range.
        Err(BadShape) => Err(AllocError),
    }
}

/// Witnesses that were made ahead are there, below that number. It takes no memory, since there is room.
pub fn take_up(witnesses: &mut Vec<WitnessNode>, ahead: &mut Vec<WitnessNode>, next: u32)
    requires there { length witnesses.old.items < next }
    requires made { next ≤ length witnesses.old.items + length ahead.old.items + 1 }
    requires room { next - 1 ≤ vec_capacity witnesses.old }
    ensures all { witnesses.new.items ++ ahead.new.items ≡ witnesses.old.items ++ ahead.old.items }
    ensures there { length witnesses.new.items + 1 ≡ next }
{
    for _taken in witnesses.len() + 1..next as usize {
        witnesses.push_reserved(ahead.remove(0));
    }
}
