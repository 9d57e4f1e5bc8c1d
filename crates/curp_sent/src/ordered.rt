// One order of the requests: that of the marks.
ghost use Rattle.std.specs.Prelude.{◌≡◌, IfOk};
ghost use Rattle.curp_order.specs.Order.{answers};
ghost use Rattle.curp_model.specs.World.{with_answers};

use curp_base::NoMemory;
use curp_cmd::{Answer, KeptCommand, RequestId, Store};
use std::alloc::Global;

/// The requests, each with the answer of one thread.
pub fn answered(
    alloc: Global,
    requests: &[(RequestId, KeptCommand)],
) -> Result<Vec<(RequestId, KeptCommand, Answer)>, NoMemory>
    ensures { IfOk result (λ list. list.items ≡ with_answers requests.now (answers requests.now)) }
{
    let mut store = Store::new(alloc);
    let mut list = Vec::with_capacity(alloc, requests.len())?;
    for (id, command) in requests {
        store.reserve(command.key_count())?;
        let answer = store.apply(command);
        list.push((*id, command.share(alloc)?, answer))?;
    }
    Ok(list)
}
