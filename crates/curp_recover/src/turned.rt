// A master that doesn't serve yet refuses requests.
ghost use Rattle.std.specs.Prelude.{◌≡◌, IfOk};
ghost use Rattle.curp_model.specs.Recovery.{Fresh, turns_away, turns_read_away};
ghost use Rattle.curp_msg.specs.Moved.{done_of};
ghost use Rattle.curp_recover.specs.Turned.{turned_away};

use crate::messages::refuse;
use curp_base::NoMemory;
use curp_cmd::{Request, RequestId};
use curp_msg::{Body, Done, Refusal};
use std::alloc::Global;

/// What master `number` says to a message while it doesn't serve: it refuses requests, and says nothing to anything else.
pub fn turned_away(alloc: Global, number: u32, body: &Body) -> Result<Done, NoMemory>
    ensures { IfOk result (λ done. done ≡ done_of (turned_away number Fresh body.now)) }
{
    match body {
        Body::Update(ask) => turn_away(alloc, number, &ask.request.id),
        Body::Sync(ask) => turn_away(alloc, number, &ask.request.id),
        Body::Read(ask) => turn_read_away(alloc, number, &ask.request),
        Body::Glance(ask) => turn_read_away(alloc, number, &ask.request),
        _ => Ok(Done::quiet(alloc)),
    }
}

// A request is refused.
fn turn_away(alloc: Global, number: u32, id: &RequestId) -> Result<Done, NoMemory>
    ensures { IfOk result (λ done. done ≡ done_of (turns_away number Fresh id.now)) }
{
    let refusal = refuse(number, *id, Refusal::Switching);
    Ok(Done::sends(vec![in alloc; refusal]?))
}

// A read too, but nothing else that is sent as one.
fn turn_read_away(alloc: Global, number: u32, request: &Request) -> Result<Done, NoMemory>
    ensures { IfOk result (λ done. done ≡ done_of (turns_read_away number Fresh request.now)) }
{
    if request.command.is_update() {
        return Ok(Done::quiet(alloc));
    }
    turn_away(alloc, number, &request.id)
}
