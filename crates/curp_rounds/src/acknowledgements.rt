ghost use Rattle.std.specs.Prelude.{◌≡◌, ◌++◌, ◌∷◌, [], length, IfOk, IfSome, IfNone, OnOk, OnErr};
ghost use Rattle.std.specs.HashMap.{get};
ghost use Rattle.curp_cmd.specs.Node.{same_node};
ghost use Rattle.curp_cmd.specs.declared.node.NodeId.{NodeId};
ghost use Rattle.curp_model.specs.Master.{from_backup};
ghost use Rattle.curp_rounds.specs.Backups.{IsFirst, NoneBelow, all_at, all_set, place_or, raised_by};

use crate::acknowledged::Acknowledged;
use crate::node_key::NodeKey;
use crate::reach::Reach;
use curp_base::NoMemory;
use curp_cmd::NodeId;
use std::alloc::Global;
use std::collections::HashMap;
use std::marker::Model;

/// What the backups have acknowledged, in the order in which each did first. Contracts see this list.
///
/// A backup is found by its name, at no more cost however many there were.
#[derive(Drop)]
pub struct Acknowledgements {
    each: Vec<Acknowledged>,
    // Where the first of each backup stands.
    places: HashMap<NodeKey, usize>,
}

impl Model for Acknowledgements {
    ghost use Rattle.std.specs.Prelude.{List};
    ghost use Rattle.std.specs.HashMap.{get};
    ghost use Rattle.curp_cmd.specs.Node.{same_node};
    ghost use Rattle.curp_model.specs.Master.{Acknowledged};
    ghost use Rattle.curp_rounds.specs.Backups.{ArePlaces};

    ghost Value = { List Acknowledged };

    ghost view = { λ a. a.each.items };

    ghost invariant = { λ a. ArePlaces
        (λ backup. get (λ j k. same_node j.0 k.0) a.places (record { 0 = backup }))
        a.each.items };
}

impl Acknowledgements {
    /// Each backup of the list has acknowledged just so much.
    pub fn all_at(
        alloc: Global,
        backups: &[NodeId],
        long: u64,
        round: u64,
    ) -> Result<Acknowledgements, NoMemory>
        ensures { IfOk result (λ all. all ≡ all_at backups.now long round) }
    {
        let mut all = Acknowledgements {
            each: Vec::new(alloc),
            places: HashMap::new(alloc),
        };
        for backup in backups {
            all.add(Acknowledged::new(*backup, long, round))?;
        }
        Ok(all)
    }

    /// Each of these backups has acknowledged just so much. It takes no memory.
    pub fn set_all(&mut self, long: u64, round: u64)
        ensures { self.new ≡ all_set self.old long round }
    {
        set_all(&mut self.each, long, round);
    }

    /// What is acknowledged never falls. Out of memory, nothing has changed.
    pub fn raise(&mut self, more: &Acknowledged) -> Result<(), NoMemory>
        ensures raised { OnOk result (self.new ≡ raised_by self.old more.now) }
        ensures err { OnErr result (self.new ≡ self.old) }
    {
        match self.place_of(&more.backup()) {
            Some(at) => {
                self.each[at].raise(more);
                Ok(())
            }
            None => self.add(more.copy()),
        }
    }

    /// What a backup has acknowledged, at first nothing.
    pub fn reach_of(&self, backup: &NodeId) -> Reach
        ensures long { result.long ≡ (from_backup self.now backup.now).length }
        ensures round { result.round ≡ (from_backup self.now backup.now).round }
    {
        match self.place_of(backup) {
            Some(at) => self.each[at].reach(),
            None => Reach { long: 0, round: 0 },
        }
    }

    // Where the first acknowledgement of a backup stands.
    fn place_of(&self, backup: &NodeId) -> Option<usize>
        ensures first { IfSome result (IsFirst self.now backup.now) }
        ensures none { IfNone result (NoneBelow self.now backup.now (length self.now)) }
    {
        self.places.get(&NodeKey(*backup)).copied()
    }

    // One stands behind the others.
    fn add(&mut self, acknowledged: Acknowledged) -> Result<(), NoMemory>
        ensures added { OnOk result (self.new ≡ self.old ++ acknowledged ∷ []) }
        ensures err { OnErr result (self.new ≡ self.old) }
    {
        self.each.reserve(1)?;
        note(&mut self.places, acknowledged.backup(), self.each.len())?;
        self.each.push_reserved(acknowledged);
        Ok(())
    }
}

fn set_all(each: &mut Vec<Acknowledged>, long: u64, round: u64)
    ensures { each.new.items ≡ all_set each.old.items long round }
{
    for at in 0..each.len() {
        each[at].set(long, round);
    }
}

/// A backup has that place, unless it has one already.
fn note(places: &mut HashMap<NodeKey, usize>, backup: NodeId, at: usize) -> Result<(), NoMemory>
    ensures noted { OnOk result ((other : NodeId) →
        get (λ j k. same_node j.0 k.0) places.new (record { 0 = other })
        ≡ place_or (get (λ j k. same_node j.0 k.0) places.old (record { 0 = other })) (same_node backup other) at) }
    ensures err { OnErr result ((other : NodeId) →
        get (λ j k. same_node j.0 k.0) places.new (record { 0 = other })
        ≡ get (λ j k. same_node j.0 k.0) places.old (record { 0 = other })) }
{
    let key = NodeKey(backup);
    if places.contains_key(&key) {
        return Ok(());
    }
    places.insert(key, at)?;
    Ok(())
}
