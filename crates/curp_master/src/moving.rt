ghost use Rattle.std.specs.Prelude.{◌≡◌, true, IfOk};
ghost use Rattle.curp_model.specs.Log.{fits_at, meaning};
ghost use Rattle.curp_range.specs.Spans.{is_covered};
ghost use Rattle.curp_model.specs.Master.{on_expire, on_give, on_take, push_take, state_of, take_after, told_again};
ghost use Rattle.curp_msg.specs.Moved.{Moves};
ghost use Rattle.curp_master.specs.Built.{move_of};
ghost use Rattle.curp_master.specs.Moving.{IsTakenOut, by_retelling, pushes};

use crate::Master;
use curp_base::{NoMemory, Shared};
use curp_cmd::{Entry, Package, room};
use curp_log::Log;
use curp_msg::{Done, Message, Parcel, TakeOut};
use curp_range::laws::one_span_covers;
use curp_rounds::messages;
use std::slice::from_ref;

/// What becomes of a migration, by the last one that the log has.
#[derive(Drop)]
enum Retelling {
    /// It is new.
    New,
    /// It is past.
    Past,
    /// It stands in the log at that index, counted from 0, and the manager is told so again.
    Again { index: u64, message: Message },
}

impl Master {
    /// A client is gone.
    pub(crate) fn expire(&mut self, client: u32) -> Result<Done, NoMemory>
        ensures moves { Moves self.old self.new result
            (move_of self.old (on_expire self.old.number self.old.state client)) }
    {
        if self.master_log.log().table().is_gone(client) {
            return Ok(Done::quiet(self.alloc));
        }
        self.push_moved(Entry::Expire { client })
    }

    /// The manager lets it give a range away.
    pub(crate) fn take_out(&mut self, take: &TakeOut) -> Result<Done, NoMemory>
        ensures moves { Moves self.old self.new result
            (move_of self.old (on_take self.old.number self.old.state take.now)) }
    {
        if !self.phase.is_open() {
            return Ok(Done::quiet(self.alloc));
        }
        match self.retold_take(take)? {
            Retelling::New => self.push_take(take),
            Retelling::Past => Ok(Done::quiet(self.alloc)),
            Retelling::Again { index, message } => self.tell_again(index, message),
        }
    }

    // By the last package that was taken.
    fn retold_take(&self, take: &TakeOut) -> Result<Retelling, NoMemory>
        ensures { IfOk result (λ told. take_after self.now.number self.now.state take.now
            (state_of self.now.state).taken
            ≡ by_retelling self.now.number self.now.state (push_take self.now.number self.now.state take.now) told) }
    {
        match self.master_log.log().package() {
            Some(last) if take.migration == last.migration => Ok(Retelling::Again {
                index: last.index,
                message: messages::taken(self.alloc, self.number, last.migration, last.package)?,
            }),
            Some(last) if take.migration < last.migration => Ok(Retelling::Past),
            _ => Ok(Retelling::New),
        }
    }

    // It is pushed where the range is owned.
    fn push_take(&mut self, take: &TakeOut) -> Result<Done, NoMemory>
        ensures moves { Moves self.old self.new result
            (move_of self.old (push_take self.old.number self.old.state take.now)) }
    {
        let Some(package) = self.package(take)? else {
            return Ok(Done::quiet(self.alloc));
        };
        let package = Shared::new(self.alloc, package)?;
        self.push_moved(Entry::Take {
            migration: take.migration,
            package,
        })
    }

    // What leaves with the range, if it is owned.
    fn package(&self, take: &TakeOut) -> Result<Option<Package>, NoMemory>
        ensures { IfOk result (IsTakenOut (state_of self.now.state) take.now) }
    {
        if owns_range(self.master_log.log(), take) {
            Ok(Some(self.master_log.log().pack(take.lo, take.hi)?))
        } else {
            Ok(None)
        }
    }

    /// The manager gives it a range.
    pub(crate) fn give_in(&mut self, parcel: &Parcel) -> Result<Done, NoMemory>
        ensures moves { Moves self.old self.new result
            (move_of self.old (on_give self.old.number self.old.state parcel.now)) }
    {
        if !self.phase.is_open() {
            return Ok(Done::quiet(self.alloc));
        }
        match self.master_log.log().given() {
            Some(last) if parcel.migration <= last.migration => {
                self.tell_again(last.index, messages::given(self.number, parcel.migration))
            }
            _ => {
                let package = parcel.package.share()?;
                self.push_moved(Entry::Give {
                    migration: parcel.migration,
                    package,
                })
            }
        }
    }

    // An entry that is synced is told again, and one that isn't waits for a round.
    fn tell_again(&mut self, index: u64, message: Message) -> Result<Done, NoMemory>
        ensures moves { Moves self.old self.new result
            (move_of self.old (told_again self.old.number self.old.state index message)) }
    {
        if index < self.synced() {
            self.tell(message)
        } else {
            self.begin_round()
        }
    }

    // The entry stands at the end of the log, and a round begins.
    fn push_moved(&mut self, entry: Entry) -> Result<Done, NoMemory>
        requires fits { fits_at (state_of self.old.state) entry ≡ true }
        ensures moves { Moves self.old self.new result
            (move_of self.old (pushes self.old.number self.old.state entry)) }
    {
        let Some(round) = self.next_round(from_ref(&entry))? else {
            return Ok(Done::quiet(self.alloc));
        };
        self.master_log.reserve(room(&entry))?;
        self.master_log.push(entry, false);
        self.round = round.number;
        Ok(Done::sends(round.appends))
    }
}

fn owns_range(log: &Log, range: &TakeOut) -> bool
    ensures { result ≡ is_covered (meaning log.now.lo log.now.hi log.now.entries).owned range.now.lo range.now.hi }
{
    one_span_covers();
    // For its clauses alone.
    let _spans = log.ranges().spans();
    log.ranges().covers(range.lo, range.hi)
}
