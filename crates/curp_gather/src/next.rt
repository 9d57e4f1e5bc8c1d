ghost use Rattle.std.specs.Prelude.{◌≡◌, ◌∷◌, [], MatchOption};
ghost use Rattle.curp_gather.specs.Ruled.{taken_of};

use curp_cmd::NodeId;
use curp_journal::{Arrived, Item, Named};

/// A message that was taken, and the items behind it.
#[derive(Clone, Copy)]
pub(crate) struct TakenMessage<'a> {
    pub named: &'a Named,
    pub left: &'a [Item],
}

/// The first message that these items took of a node.
pub(crate) fn next_taken<'a>(items: &'a [Item], from: NodeId) -> Option<TakenMessage<'a>>
    ensures { MatchOption result (taken_of from items.now ≡ [])
        (λ taken. (taken_of from items.now ≡ taken.named.now ∷ taken_of from taken.left.now)
        × (taken.named.now.from ≡ from)) }
{
    let mut index = 0;
    for item in items {
        index += 1;
        if let Arrived::Message(named) = &item.input {
            if named.from == from {
                return Some(TakenMessage {
                    named,
                    left: &items[index..],
                });
            }
        }
    }
    None
}
