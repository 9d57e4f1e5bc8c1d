ghost use Rattle.std.specs.Prelude.{◌≡◌, false, ◌<◌, ◌+◌, ◌≤◌, ◌^◌, length, List, ℕ, [], None, IfOk};
ghost use Rattle.curp_disk.specs.InMemory.{crashed};
ghost use Rattle.curp_journal.specs.Given.{given};
ghost use Rattle.curp_journal.specs.declared.arrived.Arrived.{Arrived};
ghost use Rattle.curp_journal.specs.declared.arrived.Arrived.TheVariants as arrived;
ghost use Rattle.curp_manage.specs.Kept.{HasFewNodes, HasJournal, IsJournalOn, IsLeft, IsManaged, IsNumberedBy};
ghost use Rattle.curp_manage.specs.Kept.{IsOpenedAgain, IsSmallInput, done_told, recovered_arrived, standby_of};
ghost use Rattle.curp_manage.specs.Lines.{IsForManager, is_others_order};
ghost use Rattle.curp_manage.specs.Managed.{crash_ordered, input_given, keeps_input, line_done, managed_opening};
ghost use Rattle.curp_model.specs.Manager.{opening_manager};
ghost use Rattle.curp_model.specs.World.{shape_of};
ghost use Rattle.curp_msg.specs.Limits.{step_limit};
ghost use Rattle.curp_msg.specs.declared.machine.Local.TheVariants as order;
ghost use Rattle.curp_msg.specs.declared.script.Header.{Header};
ghost use Rattle.curp_script.specs.Headers.{bad_field};
ghost use Rattle.curp_script.specs.Manage.{HasCall};

use crate::outcome::LineOutcome;
use curp_base::{Failed, Items, NoMemory};
use curp_changes::Shape;
use curp_cmd::{Keeper, NodeId};
use curp_disk::StopDisk;
use curp_durable::laws::{a_stopped_batch_is_kept_or_lost, a_stopped_batch_leaves_what_was};
use curp_durable::{Checkpoint, Durable, DurableError, FormatError, OpenError, SIZE_LIMIT, format};
use curp_journal::{Arrived, Named};
use curp_msg::{Body, Done, Local, Message, Recovered};
use curp_nodes::ManagerNode;
use curp_script::{Header, ManageLine};
use curp_title::title_of;
use std::alloc::{AllocError, Global};
use std::marker::Model;

/// A crash that is to come: the next input that the manager accepts is stopped before that call of the disk, and what the
/// disk hasn't synced is kept, or lost.
#[derive(Clone, Copy)]
pub(crate) struct Crash {
    pub(crate) call: u8,
    pub(crate) kept: bool,
}

impl Crash {
    /// Whether the input that it stops outlives it.
    fn keeps_input(self) -> bool
        ensures { result ≡ keeps_input self }
    {
        self.call == 4 && self.kept
    }
}

/// A manager whose journal is on a disk that stops where a crash is to come.
#[derive(Drop)]
pub(crate) struct Managing {
    alloc: Global,
    header: Header,
    manager: Durable<ManagerNode, StopDisk>,
    // The number of the next message.
    next: u64,
    crash: Option<Crash>,
}

impl Model for Managing {
    ghost use Rattle.curp_manage.specs.Kept.{IsManaged};
    ghost use Rattle.curp_manage.specs.Managed.{Managed};

    ghost Value = { Managed };

    ghost view = { λ m. record {
      state = m.manager.stand.node;
      decisions = m.manager.stand.count;
      next = m.next;
      crash = m.crash;
    } };

    ghost invariant = { λ m. IsManaged m.header m.manager m.crash };
}

impl Managing {
    /// The manager of a header, with an empty journal.
    #[tactic(auto, using(crate::proofs::Headers::few_nodes))]
    pub(crate) fn begin(alloc: Global, header: &Header) -> Result<Managing, NoMemory>
        requires { bad_field header.now ≡ None }
        ensures { IfOk result (λ managing. managing ≡ managed_opening header.now) }
    {
        let disk = formatted(alloc, header)?;
        let manager = open_again(alloc, header, disk)?;
        Ok(Managing::over(alloc, *header, manager, 1))
    }

    /// A manager whose journal was opened, with no crash to come.
    fn over(
        alloc: Global,
        header: Header,
        manager: Durable<ManagerNode, StopDisk>,
        next: u64,
    ) -> Managing
        requires { IsManaged header manager None }
        ensures { result ≡ record {
          state = manager.stand.node;
          decisions = manager.stand.count;
          next = next;
          crash = None;
        } }
    {
        Managing {
            alloc,
            header,
            manager,
            next,
            crash: None,
        }
    }

    /// How many inputs are kept.
    pub(crate) fn decisions(&self) -> u64
        ensures { result ≡ self.now.decisions }
    {
        self.manager.count()
    }

    /// The number of the next message.
    pub(crate) fn next(&self) -> u64
        ensures { result ≡ self.now.next }
    {
        self.next
    }

    /// Does what a line says.
    #[tactic(auto, unfolding(crate::specs::Managed::line_done))]
    pub(crate) fn obey(self, line: &ManageLine) -> Result<(Managing, LineOutcome), NoMemory>
        requires few { self.decisions < step_limit }
        requires own { IsForManager line.now }
        requires call { HasCall line.now }
        ensures done { IfOk result (λ r. record { now = r.0; outcome = r.1 } ≡ line_done self line.now) }
        ensures numbered { IfOk result (λ r. IsNumberedBy self.next r.1) }
    {
        match line {
            ManageLine::Order(order) => self.give(ordered(order)),
            ManageLine::Recovered { part, epoch } => self.give(recovered(*part, *epoch)),
            ManageLine::Crash { call, kept } => Ok(self.order_crash(Crash {
                call: *call,
                kept: *kept,
            })),
        }
    }

    /// A crash is to come.
    fn order_crash(self, crash: Crash) -> (Managing, LineOutcome)
        requires { (1 ≤ crash.call) × (crash.call ≤ 4) }
        ensures done { record { now = result.0; outcome = result.1 } ≡ crash_ordered self crash }
        ensures numbered { IsNumberedBy self.next result.1 }
    {
        let Managing {
            alloc,
            header,
            mut manager,
            next,
            crash: _,
        } = self;
        manager.arm(u64::from(crash.call));
        let managing = Managing {
            alloc,
            header,
            manager,
            next,
            crash: Some(crash),
        };
        (managing, LineOutcome::Done(Items::new(Vec::new(alloc))))
    }

    /// Gives the manager an input.
    fn give(self, arrived: Arrived) -> Result<(Managing, LineOutcome), NoMemory>
        requires few { self.decisions < step_limit }
        requires small { IsSmallInput arrived }
        ensures done { IfOk result (λ r. record { now = r.0; outcome = r.1 } ≡ input_given self (given arrived)) }
        ensures numbered { IfOk result (λ r. IsNumberedBy self.next r.1) }
    {
        a_stopped_batch_is_kept_or_lost::<ManagerNode>();
        a_stopped_batch_leaves_what_was::<ManagerNode>();
        let Managing {
            alloc,
            header,
            mut manager,
            next,
            crash,
        } = self;
        let standby = standby_for(&manager, crash)?;
        match manager.on(arrived) {
            Ok(done) => {
                let managing = Managing {
                    alloc,
                    header,
                    manager,
                    next,
                    crash,
                };
                managing.tell(done)
            }
            Err(Failed::Because(DurableError::DiskFault)) => {
                let Some(stop) = crash else { unreachable!() };
                let Some(checkpoint) = standby else {
                    unreachable!()
                };
                let manager = open_crashed(alloc, manager, checkpoint, stop.kept)?;
                let managing = Managing::over(alloc, header, manager, next);
                let kept = stop.keeps_input();
                Ok((managing, LineOutcome::Stopped { kept }))
            }
            Err(Failed::NoMemory) => Err(AllocError),
            Err(Failed::Because(DurableError::NoEncoding)) => unreachable!(),
            Err(Failed::Because(DurableError::Full)) => unreachable!(),
            Err(Failed::Because(DurableError::Spent)) => unreachable!(),
        }
    }

    /// The manager did this.
    fn tell(mut self, done: Done) -> Result<(Managing, LineOutcome), NoMemory>
        ensures done { IfOk result (λ r. record { now = r.0; outcome = r.1 } ≡ done_told self done) }
        ensures numbered { IfOk result (λ r. IsNumberedBy self.next r.1) }
    {
        if done.refused != 0 {
            let number = done.refused;
            return Ok((self, LineOutcome::Refused { number }));
        }
        self.next = number_behind(self.next, done.sent.as_slice())?;
        Ok((self, LineOutcome::Done(done.sent)))
    }
}

/// The number behind those of messages that go out.
fn number_behind(next: u64, sent: &[Message]) -> Result<u64, NoMemory>
    ensures { IfOk result (λ behind. (behind ≡ next + length sent.now) × (next + length sent.now < 2 ^ 64)) }
{
    next.checked_add(sent.len() as u64).ok_or(AllocError)
}

/// An order of the manager comes, with no stamp.
fn ordered(order: &Local) -> Arrived
    requires { is_others_order order.now ≡ false }
    ensures is { result ≡ arrived.Local order.now 0 }
    ensures small { IsSmallInput result }
{
    match order {
        Local::Recover {
            part,
            backup,
            witness,
        } => to_recover(*part, *backup, *witness),
        Local::Replace {
            keeper,
            part,
            place,
        } => to_replace(*keeper, *part, *place),
        Local::Migrate { lo, hi, to } => to_migrate(*lo, *hi, *to),
        Local::Nudge => to_nudge(),
        Local::Expire(client) => to_expire(*client),
        Local::Invoke(_) | Local::Retry(_) | Local::Fetch | Local::Sync | Local::Collect => {
            unreachable!()
        }
    }
}

fn to_recover(part: u32, backup: u32, witness: u32) -> Arrived
    ensures is { result ≡ arrived.Local (order.Recover part backup witness) 0 }
    ensures small { IsSmallInput result }
{
    let order = Local::Recover {
        part,
        backup,
        witness,
    };
    Arrived::Local(order, 0)
}

fn to_replace(keeper: Keeper, part: u32, place: u32) -> Arrived
    ensures is { result ≡ arrived.Local (order.Replace keeper part place) 0 }
    ensures small { IsSmallInput result }
{
    let order = Local::Replace {
        keeper,
        part,
        place,
    };
    Arrived::Local(order, 0)
}

fn to_migrate(lo: u64, hi: u64, to: u32) -> Arrived
    ensures is { result ≡ arrived.Local (order.Migrate lo hi to) 0 }
    ensures small { IsSmallInput result }
{
    Arrived::Local(Local::Migrate { lo, hi, to }, 0)
}

#[tactic(auto, using(crate::proofs::Orders::small_nudge))]
fn to_nudge() -> Arrived
    ensures is { result ≡ arrived.Local order.Nudge 0 }
    ensures small { IsSmallInput result }
{
    Arrived::Local(Local::Nudge, 0)
}

fn to_expire(client: u32) -> Arrived
    ensures is { result ≡ arrived.Local (order.Expire client) 0 }
    ensures small { IsSmallInput result }
{
    Arrived::Local(Local::Expire(client), 0)
}

/// The first master says that it has recovered a partition. No item of a master has the name with which it comes: items
/// and places count from 1.
fn recovered(part: u32, epoch: u32) -> Arrived
    ensures is { result ≡ recovered_arrived part epoch }
    ensures small { IsSmallInput result }
{
    Arrived::Message(Named {
        from: NodeId::master(1),
        step: 0,
        place: 0,
        stamp: 0,
        message: Message {
            from: NodeId::master(1),
            to: NodeId::manager(),
            body: Body::Recovered(Recovered { part, epoch }),
        },
    })
}

/// An empty journal on a disk.
fn formatted(alloc: Global, header: &Header) -> Result<StopDisk, NoMemory>
    ensures journal { IfOk result (λ disk. IsJournalOn header.now disk [] 36) }
    ensures disarmed { IfOk result (λ disk. disk.armed ≡ None) }
{
    let title = title_of(NodeId::manager(), header);
    let mut disk = StopDisk::new(alloc);
    match format(alloc, &mut disk, &title) {
        Ok(()) => Ok(disk),
        Err(Failed::NoMemory) => Err(AllocError),
        Err(Failed::Because(FormatError::DiskFault)) => unreachable!(),
        Err(Failed::Because(FormatError::NotEmpty)) => unreachable!(),
    }
}

/// From where the journal is to be opened again, if a crash is to come. It takes a copy of the configuration, however
/// many inputs came before.
fn standby_for(
    manager: &Durable<ManagerNode, StopDisk>,
    crash: Option<Crash>,
) -> Result<Option<Checkpoint<ManagerNode>>, NoMemory>
    ensures { IfOk result (λ standby. standby ≡ standby_of manager.now crash) }
{
    match crash {
        Some(_) => {
            let node = manager.node().copy()?;
            Ok(Some(manager.checkpoint(node)))
        }
        None => Ok(None),
    }
}

/// The disk of a journal crashes, and the journal is opened again from where it stood before: what is read is what came
/// since, and not the whole of it.
fn open_crashed(
    alloc: Global,
    manager: Durable<ManagerNode, StopDisk>,
    checkpoint: Checkpoint<ManagerNode>,
    kept: bool,
) -> Result<Durable<ManagerNode, StopDisk>, NoMemory>
    requires { (h : Header)
        × IsLeft h (record manager.disk { played = crashed kept manager.disk.played }) checkpoint }
    ensures { (h : Header) (inputs : List Arrived) (commit : ℕ)
        → IsLeft h (record manager.disk { played = crashed kept manager.disk.played }) checkpoint
        → IsJournalOn h (record manager.disk { played = crashed kept manager.disk.played }) inputs commit
        → IfOk result (λ d. IsOpenedAgain h d inputs commit) }
{
    let mut disk = manager.into_disk();
    disk.crash(kept);
    match Durable::open_from(alloc, disk, checkpoint, SIZE_LIMIT) {
        Ok(manager) => Ok(manager),
        Err(failed) => Err(only_memory(failed.error)),
    }
}

/// Opens the journal of a disk from its start on.
fn open_again(
    alloc: Global,
    header: &Header,
    disk: StopDisk,
) -> Result<Durable<ManagerNode, StopDisk>, NoMemory>
    requires few { HasFewNodes header.now }
    requires journal { HasJournal header.now disk }
    requires disarmed { disk.armed ≡ None }
    ensures { (inputs : List Arrived) (commit : ℕ) → IsJournalOn header.now disk inputs commit
        → IfOk result (λ d. IsOpenedAgain header.now d inputs commit) }
{
    let title = title_of(NodeId::manager(), header);
    let node = opening_node(alloc, header)?;
    match Durable::open(alloc, disk, &title, node, SIZE_LIMIT) {
        Ok(manager) => Ok(manager),
        Err(failed) => Err(only_memory(failed.error)),
    }
}

/// Of a journal that is there, on a disk that isn't armed, nothing but memory can be wanting.
fn only_memory(error: Failed<OpenError>) -> NoMemory
    requires { error ≡ Failed.NoMemory }
{
    match error {
        Failed::NoMemory => AllocError,
        Failed::Because(_) => unreachable!(),
    }
}

/// The manager of a header, before any input.
#[tactic(auto, using(crate::proofs::Headers::few_keepers))]
fn opening_node(alloc: Global, header: &Header) -> Result<ManagerNode, NoMemory>
    requires { HasFewNodes header.now }
    ensures { IfOk result (λ node. node ≡ opening_manager (shape_of header.now)) }
{
    let shape = Shape {
        f: header.f,
        parts: header.parts,
        clients: header.clients,
    };
    ManagerNode::new(alloc, &shape)
}
