ghost use Rattle.std.specs.Prelude.{◌≡◌, ◌≢◌, ◌*◌, ◌<◌, ◌≤◌, IsOk, IfOk, IfSome};
ghost use Rattle.std.specs.Option.{option_copied};
ghost use Rattle.curp_config.specs.Parts.{IsNumbered};
ghost use Rattle.curp_base.specs.Words.{numbered};
ghost use Rattle.curp_model.specs.Manager as model;
ghost use Rattle.curp_msg.specs.declared.machine.Local.TheVariants as local;
ghost use Rattle.curp_msg.specs.Moved.{Moves, done_of};

use crate::gone::same_clients;
use curp_base::{NoMemory, copies_of};
use curp_changes::messages::{one, says};
use curp_changes::names::{numbered, put_numbered};
use curp_changes::{Migration, Next, Shape, Work, opening_config, opening_work};
use curp_cmd::{Keeper, NodeId};
use curp_msg::{Body, Config, Core, Done, Local, Message, PartConfig, told};
use std::alloc::Global;
use std::collections::BTreeSet;
use std::marker::Model;

/// The configuration manager: one reliable node that names the nodes of each partition, and lets them be recovered,
/// replaced and given ranges of others. It stands for CURP's configuration manager; how it works is this project's own.
///
/// An input by which one of its numbers would rise past 2^32 - 1 changes nothing and sends nothing.
pub struct Manager {
    pub(crate) alloc: Global,
    pub(crate) shape: Shape,
    pub(crate) config: Config,
    // For each partition, in the order of their numbers.
    pub(crate) doing: Vec<Work>,
    pub(crate) moving: Option<Migration>,
    pub(crate) gone: BTreeSet<u32>,
    pub(crate) next: Next,
}

impl Drop for Manager {
    fn drop(self) {
        let Manager {
            alloc: _,
            shape: _,
            config: _,
            doing: _,
            moving: _,
            gone: _,
            next: _,
        } = self;
    }
}

impl Model for Manager {
    ghost use Rattle.curp_config.specs.Parts.{PartsNumbered};
    ghost use Rattle.curp_model.specs.Manager as model;

    ghost Value = { model.ManagerState };

    ghost view = { λ m. record {
      shape = m.shape;
      config = m.config;
      doing = m.doing.items;
      moving = m.moving;
      gone = m.gone.keys;
      next = m.next;
    } };

    ghost invariant = { λ m. PartsNumbered m.shape.parts m.config.parts };
}

impl Manager {
    /// The manager before any order. All of its numbers have to fit in 32 bits.
    pub fn new(alloc: Global, shape: &Shape) -> Result<Manager, NoMemory>
        requires masters { shape.now.parts < u32.MAX }
        requires keepers { shape.now.parts * shape.now.f < u32.MAX }
        ensures { IfOk result (λ manager. manager ≡ model.opening_manager shape.now) }
    {
        let config = opening_config(alloc, shape)?;
        let doing = opening_work(alloc, shape.parts)?;
        Ok(Manager {
            alloc,
            shape: Shape {
                f: shape.f,
                parts: shape.parts,
                clients: shape.clients,
            },
            config,
            doing,
            moving: None,
            gone: BTreeSet::new(alloc),
            next: Next::opening(shape),
        })
    }

    /// The same manager. Its memory is that of its configuration, of the clients that are gone, and of what is in work,
    /// but for a package that was taken, which both hold: it doesn't grow with the inputs that led here.
    pub fn copy(&self) -> Result<Manager, NoMemory>
        ensures { IfOk result (λ copy. copy ≡ self.now) }
    {
        let moving = same_migration(&self.moving)?;
        Ok(Manager {
            alloc: self.alloc,
            shape: self.shape.copy(),
            config: self.config.copy(self.alloc)?,
            doing: copies_of(self.alloc, &self.doing)?,
            moving,
            gone: same_clients(&self.gone)?,
            next: self.next.copy(),
        })
    }

    /// The adopted configuration.
    pub fn config(&self) -> &Config
        ensures { result.now ≡ self.now.config }
    {
        &self.config
    }

    /// How many backups and as many witnesses a partition has.
    pub fn keepers(&self) -> u32
        ensures { result ≡ self.now.shape.f }
    {
        self.shape.f
    }

    /// The number that the next fresh master gets.
    pub fn next_master(&self) -> u32
        ensures { result ≡ self.now.next.master }
    {
        self.next.master
    }

    /// The number that the next fresh backup gets.
    pub fn next_backup(&self) -> u32
        ensures { result ≡ self.now.next.backup }
    {
        self.next.backup
    }

    /// The number that the next fresh witness gets.
    pub fn next_witness(&self) -> u32
        ensures { result ≡ self.now.next.witness }
    {
        self.next.witness
    }
}

impl Core for Manager {
    ghost use Rattle.curp_config.specs.Machine.{manager_machine};
    ghost use Rattle.curp_config.specs.Refused.{manager_refusals, manager_taken};

    ghost machine = { manager_machine };

    ghost refusals = { manager_refusals };

    ghost messages_taken = { manager_taken };

    #[tactic(auto, unfolding(crate::specs::Machine::manager_machine, curp_model::specs::Manager::on_manager))]
    fn on_message(&mut self, message: &Message) -> Result<Done, NoMemory> {
        match &message.body {
            Body::Fetch => self.on_fetch(message.from),
            Body::Recovered(recovered) => self.on_recovered(recovered),
            Body::Prepared { version } => self.on_prepared(*version),
            Body::Taken(parcel) => self.on_taken(parcel.get()),
            Body::Given { migration } => self.on_given(*migration),
            _ => Ok(Done::quiet(self.alloc)),
        }
    }

    #[tactic(auto, unfolding(crate::specs::Machine::manager_machine, curp_model::specs::Manager::manager_ordered))]
    fn on_order(&mut self, order: &Local) -> Result<Done, NoMemory> {
        match order {
            Local::Recover {
                part,
                backup,
                witness,
            } => self.told_to_recover(*part, *backup, *witness),
            Local::Replace {
                keeper,
                part,
                place,
            } => self.told_to_replace(*part, *keeper, *place),
            Local::Migrate { lo, hi, to } => self.told_to_migrate(*lo, *hi, *to),
            Local::Nudge => self.nudge(),
            Local::Expire(client) => self.told_to_expire(*client),
            _ => Ok(Done::quiet(self.alloc)),
        }
    }
}

impl Manager {
    fn told_to_recover(&mut self, part: u32, backup: u32, witness: u32) -> Result<Done, NoMemory>
        ensures moves { Moves self.old self.new result
            (model.manager_ordered self.old (local.Recover part backup witness)) }
        ensures refused { (model.manager_ordered self.old (local.Recover part backup witness)).refused ≢ 0
            → IsOk result }
    {
        told(self.alloc, self.recover(part, backup, witness))
    }

    fn told_to_replace(&mut self, part: u32, kind: Keeper, place: u32) -> Result<Done, NoMemory>
        ensures moves { Moves self.old self.new result
            (model.manager_ordered self.old (local.Replace kind part place)) }
        ensures refused { (model.manager_ordered self.old (local.Replace kind part place)).refused ≢ 0 → IsOk result }
    {
        told(self.alloc, self.replace(part, kind, place))
    }

    fn told_to_migrate(&mut self, lo: u64, hi: u64, to: u32) -> Result<Done, NoMemory>
        ensures moves { Moves self.old self.new result (model.manager_ordered self.old (local.Migrate lo hi to)) }
        ensures refused { (model.manager_ordered self.old (local.Migrate lo hi to)).refused ≢ 0 → IsOk result }
    {
        told(self.alloc, self.migrate(lo, hi, to))
    }

    fn told_to_expire(&mut self, client: u32) -> Result<Done, NoMemory>
        ensures moves { Moves self.old self.new result (model.manager_ordered self.old (local.Expire client)) }
        ensures refused { (model.manager_ordered self.old (local.Expire client)).refused ≢ 0 → IsOk result }
    {
        told(self.alloc, self.expire(client))
    }

    // The configuration, as it is asked for.
    fn on_fetch(&self, from: NodeId) -> Result<Done, NoMemory>
        ensures { IfOk result (λ done. done ≡ done_of (model.heard self.now from Body.Fetch)) }
    {
        let config = self.config.copy(self.alloc)?;
        let answer = says(from, Body::Configuration { config });
        Ok(Done::sends(one(self.alloc, answer)?))
    }

    /// The adopted entry of a partition.
    pub(crate) fn part(&self, part: u32) -> Option<&PartConfig>
        ensures value { option_copied result ≡ model.part_at self.now part }
        ensures numbered { IfSome result (λ c. (1 ≤ part) × IsNumbered self.now.shape.parts c.now) }
    {
        numbered(self.config.parts.as_slice(), part)
    }

    /// What is being done with a partition, if there is such a one.
    pub(crate) fn work(&self, part: u32) -> Option<&Work>
        ensures { option_copied result ≡ numbered self.now.doing part }
    {
        numbered(&self.doing, part)
    }

    /// What is being done with a partition has changed.
    pub(crate) fn set_work(&mut self, part: u32, work: Work)
        requires { 1 ≤ part }
        ensures { self.new ≡ model.with_doing self.old part work }
    {
        put_numbered(&mut self.doing, part, work);
    }
}

fn same_migration(moving: &Option<Migration>) -> Result<Option<Migration>, NoMemory>
    ensures { IfOk result (λ copy. copy ≡ moving.now) }
{
    match moving {
        Some(migration) => Ok(Some(migration.copy()?)),
        None => Ok(None),
    }
}
