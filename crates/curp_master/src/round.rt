use curp_msg::Message;

/// A round that begins: its number, and what it sends to the backups.
#[derive(Drop)]
pub(crate) struct Round {
    pub(crate) number: u64,
    pub(crate) appends: Vec<Message>,
}
