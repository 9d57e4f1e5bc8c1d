ghost use Rattle.std.specs.Prelude.{◌≡◌, IfOk};
ghost use Rattle.curp_order.specs.Order.{answers};

use curp_base::NoMemory;
use curp_cmd::{Answer, Command, RequestId, Store};
use std::alloc::Global;

/// The answers of one thread that does the requests in their order, begun with the empty store.
pub fn run_order(alloc: Global, requests: &[(RequestId, Command)]) -> Result<Vec<Answer>, NoMemory>
    ensures { IfOk result (λ given. given.items ≡ answers requests.now) }
{
    let mut store = Store::new(alloc);
    let mut given = Vec::new(alloc);
    for (_, command) in requests {
        store.reserve(command.key_count())?;
        given.push(store.apply(command))?;
    }
    Ok(given)
}
