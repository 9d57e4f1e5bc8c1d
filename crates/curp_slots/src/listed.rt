ghost use Rattle.std.specs.Prelude.{◌≡◌, IfOk};
ghost use Rattle.curp_cmd.specs.RequestId.{has_id};

use curp_base::NoMemory;
use curp_cmd::RequestId;
use std::alloc::Global;
use std::collections::BTreeSet;
use std::marker::Model;

/// The ids that a collection lists, among which one is found fast, in whatever order and however often they came.
#[derive(Drop)]
pub struct Listed {
    ids: BTreeSet<RequestId>,
}

impl Model for Listed {
    ghost use Rattle.std.specs.Prelude.{List};
    ghost use Rattle.curp_cmd.specs.declared.command.RequestId.{RequestId};

    ghost Value = { List RequestId };

    ghost view = { λ l. l.ids.keys };
}

impl Listed {
    pub fn of(alloc: Global, ids: &[RequestId]) -> Result<Listed, NoMemory>
        ensures { IfOk result (λ listed. (id : RequestId) → has_id id listed ≡ has_id id ids.now) }
    {
        let mut listed = BTreeSet::new(alloc);
        for id in ids {
            listed.insert(*id)?;
        }
        Ok(Listed { ids: listed })
    }

    pub fn has(&self, id: &RequestId) -> bool
        ensures { result ≡ has_id id.now self.now }
    {
        self.ids.contains(id)
    }
}
