// Clients that are gone.
ghost use Rattle.std.specs.Prelude.{◌≡◌, OnOk, OnErr, IfOk, IfErr, Ok, Err};
ghost use Rattle.std.specs.BTreeSet.{insert_key};
ghost use Rattle.std.specs.Ordering.{nat_cmp};
ghost use Rattle.curp_config.specs.Refusals.{expire_number};
ghost use Rattle.curp_model.specs.Manager as model;
ghost use Rattle.curp_msg.specs.declared.machine.Local.TheVariants as local;
ghost use Rattle.curp_msg.specs.Moved.{Moves};
ghost use Rattle.curp_msg.specs.Told.{Tells};

use crate::{Manager, NoClient};
use curp_base::{Failed, NoMemory};
use curp_changes::messages::expire_messages;
use curp_msg::{Done, Message};
use std::collections::BTreeSet;

impl Manager {
    /// A client is declared gone, for good, and each partition's master is told. Who decides that stands outside.
    #[tactic(auto, using(crate::proofs::Ordered::expiring))]
    pub fn expire(&mut self, client: u32) -> Result<Done, Failed<NoClient>>
        ensures moves { Moves self.old self.new result (model.manager_ordered self.old (local.Expire client)) }
        ensures refused { Tells expire_number (model.manager_ordered self.old (local.Expire client)).refused result }
    {
        let known = match self.known_client(client) {
            Ok(known) => known,
            Err(why) => return Err(Failed::Because(why)),
        };
        let messages = self.gone_messages(known)?;
        note(&mut self.gone, known)?;
        Ok(Done::sends(messages))
    }

    // What each partition's master is told of a client that is gone.
    pub(crate) fn gone_messages(&self, client: u32) -> Result<Vec<Message>, NoMemory>
        ensures { IfOk result (λ messages. messages.items ≡ model.expire_messages self.now client) }
    {
        expire_messages(self.alloc, self.config.parts.as_slice(), client)
    }

    // A client that the header has.
    fn known_client(&self, client: u32) -> Result<u32, NoClient>
        ensures ok { IfOk result (λ known. model.client_for self.now client ≡ Ok known) }
        ensures err { IfErr result (λ why. model.client_for self.now client ≡ Err (expire_number why)) }
    {
        if 0 < client && client <= self.shape.clients {
            Ok(client)
        } else {
            Err(NoClient)
        }
    }
}

// Notes a client, once.
fn note(gone: &mut BTreeSet<u32>, client: u32) -> Result<(), NoMemory>
    ensures ok { OnOk result (gone.new.keys ≡ insert_key nat_cmp gone.old.keys client) }
    ensures err { OnErr result (gone.new.keys ≡ gone.old.keys) }
{
    gone.insert(client)?;
    Ok(())
}

// The same clients.
pub(crate) fn same_clients(gone: &BTreeSet<u32>) -> Result<BTreeSet<u32>, NoMemory>
    ensures { IfOk result (λ copy. copy.keys ≡ gone.now.keys) }
{
    gone.clone()
}
