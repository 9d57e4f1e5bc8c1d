use crate::Took;
use curp_base::NoMemory;
use curp_cmd::RequestId;
use curp_msg::Local;

/// What a node's own thread orders it to do, by what it has done. It is plain data: it knows no thread and no lock.
pub trait Chores {
    /// Hears of a step that was made: what the node took, and which request it completed.
    fn note(&mut self, took: Took, completed: Option<RequestId>);

    /// The order that is due now, if one is. It counts as given.
    fn due(&mut self) -> Result<Option<Local>, NoMemory>;
}

/// Those of a node that orders itself nothing.
#[derive(Clone, Copy)]
pub struct NoChores;

impl Chores for NoChores {
    fn note(&mut self, _took: Took, _completed: Option<RequestId>) {}

    fn due(&mut self) -> Result<Option<Local>, NoMemory> {
        Ok(None)
    }
}
