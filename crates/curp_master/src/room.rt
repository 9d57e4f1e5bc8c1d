// What a master has beside its lists, where a request comes in: out of memory, nothing has changed.
ghost use Rattle.std.specs.Prelude.{◌≡◌, ◌≤◌, ◌+◌, length, OnOk, OnErr};
ghost use Rattle.std.specs.BTreeSet.{insert_key};
ghost use Rattle.std.specs.Ordering.{nat_cmp};
ghost use Rattle.curp_cmd.specs.declared.entry.Entry.TheVariants.{Op};
ghost use Rattle.curp_model.specs.Log.{meaning};
ghost use Rattle.curp_model.specs.Master.{queued};
ghost use Rattle.curp_master_log.specs.MasterLog.{CanPush, HasRoom, with_entry};

use curp_base::{NoMemory, Shared};
use curp_cmd::Request;
use curp_master_log::{MasterLog, op_of, op_room};
use curp_rounds::Indexes;
use curp_tail::Queue;

/// Makes room for so many ids, and for entries that take so much.
pub(crate) fn make_room(
    queue: &mut Queue,
    ids: u64,
    master_log: &mut MasterLog,
    units: u64,
) -> Result<(), NoMemory>
    ensures waiting { queue.new.waiting ≡ queue.old.waiting }
    ensures kept { master_log.new.kept ≡ master_log.old.kept }
    ensures ids { OnOk result (ids ≤ queue.new.spare) }
    ensures units { OnOk result (HasRoom master_log.new units) }
{
    queue.reserve(ids)?;
    master_log.reserve(units)
}

/// The request stands at the end of the log, free or not, is queued, and its index is held.
pub(crate) fn push_held(
    held: &mut Indexes,
    queue: &mut Queue,
    master_log: &mut MasterLog,
    request: &Shared<Request>,
    is_free: bool,
) -> Result<(), NoMemory>
    requires { CanPush (meaning master_log.old.kept.lo master_log.old.kept.hi master_log.old.kept.entries) request.now }
    ensures held { OnOk result (held.new.numbers ≡ insert_key nat_cmp held.old.numbers (length master_log.old.kept.entries)) }
    ensures waiting { OnOk result (queue.new.waiting
        ≡ queued queue.old.waiting request.now.id (length master_log.old.kept.entries + 1)) }
    ensures kept { OnOk result (master_log.new.kept
        ≡ with_entry master_log.old.kept (Op request.now request.now.first) is_free) }
    ensures err_held { OnErr result (held.new.numbers ≡ held.old.numbers) }
    ensures err_waiting { OnErr result (queue.new.waiting ≡ queue.old.waiting) }
    ensures err_kept { OnErr result (master_log.new.kept ≡ master_log.old.kept) }
{
    let entry = op_of(request.share()?);
    held.reserve(1)?;
    make_room(queue, 1, master_log, op_room(request))?;
    let index = master_log.log().len();
    master_log.push(entry, is_free);
    queue.add(request.id, index + 1);
    held.insert(index);
    Ok(())
}
