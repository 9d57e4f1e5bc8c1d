ghost use Rattle.std.specs.Prelude.{◌≡◌, ◌≢◌, ◌≤◌, ◌∷◌, ◌++◌, [], List, ℕ, Some, true, false, IfOk, IfErr, IsOk, OnOk};
ghost use Rattle.curp_disk.specs.Disk.{LeavesOnly};
ghost use Rattle.curp_io.specs.Streams.{Rose};
ghost use Rattle.curp_journal.specs.declared.arrived.Arrived.{Arrived};
ghost use Rattle.curp_journal.specs.declared.arrived.Arrived.TheVariants as arrived;
ghost use Rattle.curp_durable.specs.Answering.{RefusesBatch};
ghost use Rattle.curp_durable.specs.Appending.{Quiet};
ghost use Rattle.curp_durable.specs.Journal.{HasSettled, HoldsJournal, HoldsUpTo, IsBeforeOrAfter, IsSettled};
ghost use Rattle.curp_durable.specs.Lone.{done_by};
ghost use Rattle.curp_durable.specs.Opening.{Exists, HasLedTo, IsOfTheMoment, IsOnlyCause, IsOpened, LedTo, OpensNot};
ghost use Rattle.curp_durable.specs.Running.{AllMade, RanUntil, calls_for, commit_behind};
ghost use Rattle.curp_durable.specs.Standing.{after, answers_of, stepped, taken};
ghost use Rattle.curp_durable.specs.Value.{checkpoint_of};

use crate::checkpoint::Checkpoint;
use crate::deciding::{Undecided, decide};
use crate::error::{DurableError, OpenError};
use crate::opening::{recover, resume};
use crate::stand::{Answered, Stand, done_in};
use crate::writing::{Kept, append};
use curp_base::{Failed, NoMemory};
use curp_disk::{Disk, StopDisk};
use curp_journal::{Arrived, Named};
use curp_msg::{Core, Done, Local};
use std::alloc::Global;
use std::marker::Model;

/// How many bytes a journal has at most, its last commit byte counted, where the caller has no reason for another limit.
pub const SIZE_LIMIT: u64 = 1_073_741_824;

/// A node whose inputs stand on a disk before what it sends goes out. Of its journal it keeps no item in memory.
#[derive(Drop)]
pub struct Durable<N: Core, D: Disk> {
    alloc: Global,
    disk: D,
    stand: Stand<N>,
    // The place of the last commit byte, which is shut.
    commit: u64,
    size_limit: u64,
    spent: bool,
}

impl<N: Core, D: Disk> Model for Durable<N, D> {
    ghost use Rattle.std.specs.Prelude.{◌≡◌, ◌+◌, ◌<◌, ◌^◌, false, true};
    ghost use Rattle.curp_durable.specs.Value.{DurableParts};
    ghost use Rattle.curp_durable.specs.Journal.{HasSettled};

    ghost Value = { DurableParts N D };

    ghost view = { λ d. record {
      disk = d.disk;
      stand = d.stand;
      commit = d.commit;
      size_limit = d.size_limit;
      spent = d.spent;
    } };

    ghost invariant = { λ d. (D.tells ≡ true → d.spent ≡ false
        → HasSettled N.machine D.seen D.may_leave d.disk d.stand d.commit) × (d.commit + 1 < 2 ^ 64) };
}

/// Why a journal wasn't opened, with its disk.
#[derive(Drop)]
pub struct OpenFailed<D> {
    pub error: Failed<OpenError>,
    pub disk: D,
}

impl<N: Core + Drop, D: Disk> Durable<N, D> {
    /// Opens the journal of a title, on a disk that is synced before it is read: the node, which is to be as before any
    /// input, gets the inputs that stand there. It takes memory for the journal's bytes and for what the node holds;
    /// what the node sends is dropped. Nothing is written.
    ///
    /// The size limit is how many bytes the journal may have, its last commit byte counted (`SIZE_LIMIT` where the caller has
    /// no reason for another). A longer journal is opened too; it takes no more batches.
    pub fn open(
        alloc: Global,
        mut disk: D,
        title: &[u8],
        node: N,
        size_limit: u64,
    ) -> Result<Durable<N, D>, OpenFailed<D>>
        ensures ok { D.tells ≡ true → IfOk result (λ d. (d.spent ≡ false)
            × IsOpened N.machine (D.seen disk) title.now node d.commit d.stand) }
        ensures fresh { IfOk result (λ d. d.spent ≡ false) }
        ensures limit { IfOk result (λ d. d.size_limit ≡ size_limit) }
        ensures quiet { IfOk result (λ d. Quiet D.seen D.may_leave D.moment D.left_since disk d.disk) }
        ensures err { D.tells ≡ true → IfErr result (λ f. OpensNot (D.seen disk) title.now f.error) }
        ensures quiet_err { IfErr result (λ f. Quiet D.seen D.may_leave D.moment D.left_since disk f.disk) }
        ensures cause { IfErr result (λ f. f.error ≡ Failed.Because OpenError.DiskFault → Rose (D.faults disk) (D.faults f.disk)) }
        ensures never_falls { IfOk result (λ d. D.faults disk ≤ D.faults d.disk) }
        ensures sound { D.sound disk → IfOk result (λ d. D.sound d.disk) }
        ensures sound_err { D.sound disk → IfErr result (λ f. (f.error ≢ Failed.Because OpenError.DiskFault) × D.sound f.disk) }
        ensures only_there { D.tells ≡ true → OnOk result (Exists (D.seen disk) title.now) }
        ensures one_cause { D.tells ≡ true → IfErr result (λ f. IsOnlyCause (D.seen disk) title.now f.error) }
        ensures journal { (inputs : List Arrived) → D.tells ≡ true → HoldsJournal (D.seen disk) title.now inputs
            → IfOk result (λ d. IsSettled N.machine D.seen D.may_leave d.disk d.stand d.commit title.now node inputs) }
        ensures commit { (inputs : List Arrived) (commit : ℕ) → D.tells ≡ true
            → HoldsUpTo (D.seen disk) title.now inputs commit → IfOk result (λ d. d.commit ≡ commit) }
        ensures journal_err { (inputs : List Arrived) → D.tells ≡ true → HoldsJournal (D.seen disk) title.now inputs
            → IfErr result (λ f. IsOfTheMoment f.error) }
    {
        match recover(alloc, &mut disk, title, node) {
            Ok((stand, commit)) => Ok(Durable {
                alloc,
                disk,
                stand,
                commit,
                size_limit,
                spent: false,
            }),
            Err(error) => Err(OpenFailed { error, disk }),
        }
    }

    /// Opens a journal from a checkpoint on, of which all before the checkpoint's place is as it was then. It reads only
    /// what stands from that place on, and takes memory for these bytes; else it is as `open`. Nothing is written.
    ///
    /// Where no byte stands at that place, which only a disk may have that doesn't tell its bytes, it is `NotFormatted`.
    pub fn open_from(
        alloc: Global,
        mut disk: D,
        checkpoint: Checkpoint<N>,
        size_limit: u64,
    ) -> Result<Durable<N, D>, OpenFailed<D>>
        requires { D.tells ≡ true → HasLedTo N.machine (D.seen disk) checkpoint }
        ensures ok { (title : List ℕ) (opening : N) → D.tells ≡ true
            → LedTo N.machine (D.seen disk) title opening checkpoint
            → IfOk result (λ d. IsOpened N.machine (D.seen disk) title opening d.commit d.stand) }
        ensures fresh { IfOk result (λ d. d.spent ≡ false) }
        ensures limit { IfOk result (λ d. d.size_limit ≡ size_limit) }
        ensures quiet { IfOk result (λ d. Quiet D.seen D.may_leave D.moment D.left_since disk d.disk) }
        ensures err { (title : List ℕ) (opening : N) → D.tells ≡ true
            → LedTo N.machine (D.seen disk) title opening checkpoint
            → IfErr result (λ f. OpensNot (D.seen disk) title f.error) }
        ensures quiet_err { IfErr result (λ f. Quiet D.seen D.may_leave D.moment D.left_since disk f.disk) }
        ensures cause { IfErr result (λ f. f.error ≡ Failed.Because OpenError.DiskFault → Rose (D.faults disk) (D.faults f.disk)) }
        ensures never_falls { IfOk result (λ d. D.faults disk ≤ D.faults d.disk) }
        ensures sound { D.sound disk → IfOk result (λ d. D.sound d.disk) }
        ensures sound_err { D.sound disk → IfErr result (λ f. (f.error ≢ Failed.Because OpenError.DiskFault) × D.sound f.disk) }
        ensures journal { (title : List ℕ) (opening : N) (inputs : List Arrived) → D.tells ≡ true
            → LedTo N.machine (D.seen disk) title opening checkpoint → HoldsJournal (D.seen disk) title inputs
            → IfOk result (λ d. IsSettled N.machine D.seen D.may_leave d.disk d.stand d.commit title opening inputs) }
        ensures commit { (title : List ℕ) (opening : N) (inputs : List Arrived) (commit : ℕ) → D.tells ≡ true
            → LedTo N.machine (D.seen disk) title opening checkpoint → HoldsUpTo (D.seen disk) title inputs commit
            → IfOk result (λ d. d.commit ≡ commit) }
        ensures journal_err { (title : List ℕ) (opening : N) (inputs : List Arrived) → D.tells ≡ true
            → LedTo N.machine (D.seen disk) title opening checkpoint → HoldsJournal (D.seen disk) title inputs
            → IfErr result (λ f. IsOfTheMoment f.error) }
    {
        let Checkpoint { stand, commit } = checkpoint;
        match resume(alloc, &mut disk, commit, stand) {
            Ok((stand, commit)) => Ok(Durable {
                alloc,
                disk,
                stand,
                commit,
                size_limit,
                spent: false,
            }),
            Err(error) => Err(OpenFailed { error, disk }),
        }
    }

    /// Where the node stands now, from where its journal can be opened again (`open_from`). The caller gives a copy of the
    /// node.
    pub fn checkpoint(&self, node: N) -> Checkpoint<N>
        requires { node ≡ self.now.stand.node }
        ensures { result ≡ checkpoint_of self.now }
    {
        Checkpoint {
            stand: self.stand.with_copy(node),
            commit: self.commit,
        }
    }

    /// A batch comes. Those of it that the node takes stand on the disk, in one record, before anything is answered.
    pub fn on_all(&mut self, inputs: Vec<Arrived>) -> Result<Vec<Answered>, Failed<DurableError>>
        ensures answers { IfOk result (λ answers. answers.items ≡ answers_of N.machine self.old.stand inputs.items) }
        ensures state { OnOk result (self.new.stand ≡ after N.machine self.old.stand inputs.items) }
        ensures goes_on { OnOk result ((self.old.spent ≡ false) × (self.new.spent ≡ false)) }
        ensures limit { self.new.size_limit ≡ self.old.size_limit }
        ensures commit { OnOk result (self.new.commit
            ≡ commit_behind self.old.commit (taken N.machine self.old.stand inputs.items)) }
        ensures ran { OnOk result (AllMade D.wrote D.synced (calls_for self.old.commit
            (taken N.machine self.old.stand inputs.items)) self.old.disk self.new.disk) }
        ensures err { IfErr result (RefusesBatch D.faults self.old self.new inputs.items) }
        ensures ran_err { IfErr result (RanUntil D.wrote D.synced self.old.commit
            (taken N.machine self.old.stand inputs.items) self.old.disk self.new.disk) }
        ensures kept { (title : List ℕ) (opening : N) (so_far : List Arrived) → D.tells ≡ true → IsOk result
            → IsSettled N.machine D.seen D.may_leave self.old.disk self.old.stand self.old.commit title opening so_far
            → IsSettled N.machine D.seen D.may_leave self.new.disk self.new.stand self.new.commit title opening
            (so_far ++ taken N.machine self.old.stand inputs.items) }
        ensures any_moment { (title : List ℕ) (opening : N) (so_far : List Arrived) → D.tells ≡ true
            → self.old.spent ≡ false
            → IsSettled N.machine D.seen D.may_leave self.old.disk self.old.stand self.old.commit title opening so_far
            → LeavesOnly D.moment D.left_since self.old.disk self.new.disk
            (IsBeforeOrAfter title so_far (taken N.machine self.old.stand inputs.items)) }
        ensures sound { D.sound self.old.disk → (result ≢ Err (Failed.Because DurableError.DiskFault)) × D.sound self.new.disk }
        ensures never_falls { D.faults self.old.disk ≤ D.faults self.new.disk }
    {
        if self.spent {
            return Err(Failed::Because(DurableError::Spent));
        }
        let size_limit = self.size_limit;
        match decide(self.alloc, &mut self.stand, self.commit, size_limit, inputs) {
            Ok(decided) => {
                if decided.piece.is_empty() {
                    return Ok(decided.answers);
                }
                match append(&mut self.disk, self.commit, &decided.piece) {
                    Kept::Kept => {
                        self.commit += decided.piece.len() as u64;
                        Ok(decided.answers)
                    }
                    Kept::Failed => {
                        self.spent = true;
                        Err(Failed::Because(DurableError::DiskFault))
                    }
                    Kept::NoMemory => {
                        self.spent = true;
                        Err(Failed::NoMemory)
                    }
                }
            }
            Err(Undecided::Unchanged(why)) => Err(why),
            Err(Undecided::Moved) => {
                self.spent = true;
                Err(Failed::NoMemory)
            }
        }
    }

    /// What comes alone is a batch of one; it is answered by what the node does. Its number is then the count, and its
    /// stamp the last stamp. Where no stamp is left it is refused by 255.
    pub fn on(&mut self, arrived: Arrived) -> Result<Done, Failed<DurableError>>
        ensures done { IfOk result (λ done. done ≡ done_by N.machine self.old.stand arrived) }
        ensures state { OnOk result (self.new.stand ≡ stepped N.machine self.old.stand arrived) }
        ensures goes_on { OnOk result ((self.old.spent ≡ false) × (self.new.spent ≡ false)) }
        ensures limit { self.new.size_limit ≡ self.old.size_limit }
        ensures commit { OnOk result (self.new.commit
            ≡ commit_behind self.old.commit (taken N.machine self.old.stand (arrived ∷ []))) }
        ensures ran { OnOk result (AllMade D.wrote D.synced (calls_for self.old.commit
            (taken N.machine self.old.stand (arrived ∷ []))) self.old.disk self.new.disk) }
        ensures err { IfErr result (RefusesBatch D.faults self.old self.new (arrived ∷ [])) }
        ensures ran_err { IfErr result (RanUntil D.wrote D.synced self.old.commit
            (taken N.machine self.old.stand (arrived ∷ [])) self.old.disk self.new.disk) }
        ensures kept { (title : List ℕ) (opening : N) (so_far : List Arrived) → D.tells ≡ true → IsOk result
            → IsSettled N.machine D.seen D.may_leave self.old.disk self.old.stand self.old.commit title opening so_far
            → IsSettled N.machine D.seen D.may_leave self.new.disk self.new.stand self.new.commit title opening
            (so_far ++ taken N.machine self.old.stand (arrived ∷ [])) }
        ensures any_moment { (title : List ℕ) (opening : N) (so_far : List Arrived) → D.tells ≡ true
            → self.old.spent ≡ false
            → IsSettled N.machine D.seen D.may_leave self.old.disk self.old.stand self.old.commit title opening so_far
            → LeavesOnly D.moment D.left_since self.old.disk self.new.disk
            (IsBeforeOrAfter title so_far (taken N.machine self.old.stand (arrived ∷ []))) }
        ensures sound { D.sound self.old.disk → (result ≢ Err (Failed.Because DurableError.DiskFault)) × D.sound self.new.disk }
        ensures never_falls { D.faults self.old.disk ≤ D.faults self.new.disk }
    {
        if self.spent() {
            return Err(Failed::Because(DurableError::Spent));
        }
        let alloc = self.alloc();
        let Ok(inputs) = alone(alloc, arrived) else {
            return Err(Failed::NoMemory);
        };
        match self.on_all(inputs) {
            Ok(answers) => Ok(done_in(alloc, answers)),
            Err(why) => Err(why),
        }
    }

    /// A message comes to the node, with its sender's name for it.
    pub fn on_message(&mut self, named: Named) -> Result<Done, Failed<DurableError>>
        ensures done { IfOk result (λ done. done ≡ done_by N.machine self.old.stand (arrived.Message named)) }
        ensures state { OnOk result (self.new.stand ≡ stepped N.machine self.old.stand (arrived.Message named)) }
        ensures goes_on { OnOk result ((self.old.spent ≡ false) × (self.new.spent ≡ false)) }
        ensures limit { self.new.size_limit ≡ self.old.size_limit }
        ensures commit { OnOk result (self.new.commit
            ≡ commit_behind self.old.commit (taken N.machine self.old.stand (arrived.Message named ∷ []))) }
        ensures ran { OnOk result (AllMade D.wrote D.synced (calls_for self.old.commit
            (taken N.machine self.old.stand (arrived.Message named ∷ []))) self.old.disk self.new.disk) }
        ensures err { IfErr result (RefusesBatch D.faults self.old self.new (arrived.Message named ∷ [])) }
        ensures ran_err { IfErr result (RanUntil D.wrote D.synced self.old.commit
            (taken N.machine self.old.stand (arrived.Message named ∷ [])) self.old.disk self.new.disk) }
        ensures kept { (title : List ℕ) (opening : N) (so_far : List Arrived) → D.tells ≡ true → IsOk result
            → IsSettled N.machine D.seen D.may_leave self.old.disk self.old.stand self.old.commit title opening so_far
            → IsSettled N.machine D.seen D.may_leave self.new.disk self.new.stand self.new.commit title opening
            (so_far ++ taken N.machine self.old.stand (arrived.Message named ∷ [])) }
        ensures any_moment { (title : List ℕ) (opening : N) (so_far : List Arrived) → D.tells ≡ true
            → self.old.spent ≡ false
            → IsSettled N.machine D.seen D.may_leave self.old.disk self.old.stand self.old.commit title opening so_far
            → LeavesOnly D.moment D.left_since self.old.disk self.new.disk
            (IsBeforeOrAfter title so_far (taken N.machine self.old.stand (arrived.Message named ∷ []))) }
        ensures sound { D.sound self.old.disk → (result ≢ Err (Failed.Because DurableError.DiskFault)) × D.sound self.new.disk }
        ensures never_falls { D.faults self.old.disk ≤ D.faults self.new.disk }
    {
        self.on(Arrived::Message(named))
    }

    /// The node gets an order, with a stamp.
    pub fn on_order(&mut self, order: Local, stamp: u64) -> Result<Done, Failed<DurableError>>
        ensures done { IfOk result (λ done. done ≡ done_by N.machine self.old.stand (arrived.Local order stamp)) }
        ensures state { OnOk result (self.new.stand ≡ stepped N.machine self.old.stand (arrived.Local order stamp)) }
        ensures goes_on { OnOk result ((self.old.spent ≡ false) × (self.new.spent ≡ false)) }
        ensures limit { self.new.size_limit ≡ self.old.size_limit }
        ensures commit { OnOk result (self.new.commit
            ≡ commit_behind self.old.commit (taken N.machine self.old.stand (arrived.Local order stamp ∷ []))) }
        ensures ran { OnOk result (AllMade D.wrote D.synced (calls_for self.old.commit
            (taken N.machine self.old.stand (arrived.Local order stamp ∷ []))) self.old.disk self.new.disk) }
        ensures err { IfErr result (RefusesBatch D.faults self.old self.new (arrived.Local order stamp ∷ [])) }
        ensures ran_err { IfErr result (RanUntil D.wrote D.synced self.old.commit
            (taken N.machine self.old.stand (arrived.Local order stamp ∷ [])) self.old.disk self.new.disk) }
        ensures kept { (title : List ℕ) (opening : N) (so_far : List Arrived) → D.tells ≡ true → IsOk result
            → IsSettled N.machine D.seen D.may_leave self.old.disk self.old.stand self.old.commit title opening so_far
            → IsSettled N.machine D.seen D.may_leave self.new.disk self.new.stand self.new.commit title opening
            (so_far ++ taken N.machine self.old.stand (arrived.Local order stamp ∷ [])) }
        ensures any_moment { (title : List ℕ) (opening : N) (so_far : List Arrived) → D.tells ≡ true
            → self.old.spent ≡ false
            → IsSettled N.machine D.seen D.may_leave self.old.disk self.old.stand self.old.commit title opening so_far
            → LeavesOnly D.moment D.left_since self.old.disk self.new.disk
            (IsBeforeOrAfter title so_far (taken N.machine self.old.stand (arrived.Local order stamp ∷ []))) }
        ensures sound { D.sound self.old.disk → (result ≢ Err (Failed.Because DurableError.DiskFault)) × D.sound self.new.disk }
        ensures never_falls { D.faults self.old.disk ≤ D.faults self.new.disk }
    {
        self.on(Arrived::Local(order, stamp))
    }

    /// Whether an earlier call stopped where the node or the disk may have moved on. The disk is then to be taken out,
    /// and opened again.
    pub fn spent(&self) -> bool
        ensures value { result ≡ self.now.spent }
        ensures settled { D.tells ≡ true → self.now.spent ≡ false
            → HasSettled N.machine D.seen D.may_leave self.now.disk self.now.stand self.now.commit }
    {
        self.spent
    }

    /// How many inputs the node took.
    pub fn count(&self) -> u64
        ensures { result ≡ self.now.stand.count }
    {
        self.stand.count()
    }

    /// The stamp of the last input that the node took, 0 if there is none.
    pub fn last_stamp(&self) -> u64
        ensures { result ≡ self.now.stand.last }
    {
        self.stand.last()
    }

    /// The node, behind all that it took.
    pub fn node(&self) -> &N
        ensures { result.now ≡ self.now.stand.node }
    {
        self.stand.node()
    }

    fn alloc(&self) -> Global {
        self.alloc
    }

    /// Gives the disk back.
    pub fn into_disk(self) -> D
        ensures { result ≡ self.disk }
    {
        let Durable {
            alloc: _,
            disk,
            stand: _,
            commit: _,
            size_limit: _,
            spent: _,
        } = self;
        disk
    }
}

impl<N: Core + Drop> Durable<N, StopDisk> {
    /// Arms the disk, and changes nothing else.
    pub fn arm(&mut self, call: u64)
        ensures { self.new ≡ record self.old { disk = record self.old.disk { armed = Some call } } }
    {
        self.disk.arm(call);
    }
}

/// A batch of one.
fn alone(alloc: Global, arrived: Arrived) -> Result<Vec<Arrived>, NoMemory>
    ensures { IfOk result (λ inputs. inputs.items ≡ arrived ∷ []) }
{
    let mut inputs = Vec::with_capacity(alloc, 1)?;
    inputs.push(arrived)?;
    Ok(inputs)
}
