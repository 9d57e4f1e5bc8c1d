ghost use Rattle.std.specs.Prelude.{◌≡◌};

use curp_cmd::NodeId;
use curp_journal::Item;
use std::marker::Model;

/// A node's journal, to be merged with others. Contracts see a `Journal`.
#[derive(Drop)]
pub struct Strand<'a> {
    id: NodeId,
    items: &'a [Item],
    ended: bool,
}

impl<'a> Model for Strand<'a> {
    ghost use Rattle.curp_journal.specs.Turns.{Journal};

    ghost Value = { Journal };

    ghost view = { λ strand. record { id = strand.id; items = strand.items.now; ended = strand.ended } };
}

impl<'a> Strand<'a> {
    /// The journal of that node, with these items; `ended` where it has a last stop.
    pub fn new(id: NodeId, items: &'a [Item], ended: bool) -> Strand<'a>
        ensures { result ≡ record { id = id; items = items.now; ended = ended } }
    {
        Strand { id, items, ended }
    }

    pub fn id(&self) -> NodeId
        ensures { result ≡ self.now.id }
    {
        self.id
    }

    pub fn items(&self) -> &'a [Item]
        ensures { result.now ≡ self.now.items }
    {
        self.items
    }

    /// Whether there is a last stop.
    pub fn ended(&self) -> bool
        ensures { result ≡ self.now.ended }
    {
        self.ended
    }
}
