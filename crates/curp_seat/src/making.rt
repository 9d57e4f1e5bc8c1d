ghost use Rattle.std.specs.Prelude.{◌≡◌, ◌≢◌, ◌^◌, ◌<◌, ◌≤◌, IfOk, IfErr, OnErr};
ghost use Rattle.curp_journal.specs.Given.{given};
ghost use Rattle.curp_journal.specs.Journal.{made, next_stamp};
ghost use Rattle.curp_msg.specs.Moved.{Moves};

use curp_base::NoMemory;
use curp_journal::{Arrived, Item};
use curp_msg::{Core, Done};

/// Gives a node with that last stamp what came, and makes an item of it; or it is refused, by a number.
pub(crate) fn made<N: Core>(
    node: &mut N,
    last: u64,
    arrived: Arrived,
) -> Result<Result<Item, u8>, NoMemory>
    ensures item { IfOk result (λ r. IfOk r (λ item. item ≡ made N.machine node.old last arrived)) }
    ensures state { IfOk result (λ r. IfOk r (λ item. node.new ≡ (N.machine node.old (given arrived)).state)) }
    ensures taken { IfOk result (λ r. IfOk r (λ item. (N.machine node.old (given arrived)).refused ≡ 0)) }
    ensures room { IfOk result (λ r. IfOk r (λ item. next_stamp last arrived < 2 ^ 64)) }
    ensures refused { IfOk result (λ r. IfErr r (λ n. n ≢ 0)) }
    ensures full { IfOk result (λ r. IfErr r (λ n. 2 ^ 64 ≤ next_stamp last arrived → n ≡ 255)) }
    ensures number { IfOk result (λ r. IfErr r (λ n. next_stamp last arrived < 2 ^ 64
        → n ≡ (N.machine node.old (given arrived)).refused)) }
    ensures stays { IfOk result (λ r. IfErr r (λ n. node.new ≡ node.old)) }
    ensures err { OnErr result (node.new ≡ node.old) }
{
    let before = last.max(arrived.stamp());
    if before == u64::MAX {
        return Ok(Err(255));
    }
    let done = give(node, &arrived)?;
    if done.refused != 0 {
        return Ok(Err(done.refused));
    }
    Ok(Ok(Item {
        stamp: before + 1,
        input: arrived,
        done,
    }))
}

/// Gives the node what came.
pub(crate) fn give<N: Core>(node: &mut N, arrived: &Arrived) -> Result<Done, NoMemory>
    ensures moves { Moves node.old node.new result (N.machine node.old (given arrived.now)) }
{
    node.on(arrived.given())
}
