ghost use Rattle.std.specs.Prelude.{◌≡◌, ◌↔◌, ℕ, IsTrue};
ghost use Rattle.curp_base.specs.Words.{At};
ghost use Rattle.curp_merge.specs.Held.{AllHeld};
ghost use Rattle.curp_journal.specs.Turns.{AreApart, IsKnown, Journal};
ghost use Rattle.curp_gather.specs.Ruled.{AllKnown, ArePrefixes, AreRuled};

use crate::compare::took_prefix;
use curp_cmd::NodeId;
use curp_journal::{Arrived, Item};
use curp_merge::Strand;

/// A law: in ruled journals of different nodes, each message that came is the one that its sender's journal holds by its
/// name. So merging them finds no mismatch.
pub fn ruled_journals_hold(_strands: &[Strand<'_>])
    requires apart { AreApart _strands.now }
    requires ruled { AreRuled _strands.now }
    ensures { AllHeld _strands.now }
{}

/// Whether each message came from a node with a journal, and what each node took of each is the prefix of what that sent
/// to it. It goes over what a node took once for each other node, and over what that did only where something was taken of
/// it. It takes no memory.
pub fn are_ruled(strands: &[Strand<'_>]) -> bool
    ensures { IsTrue result ↔ AreRuled strands.now }
{
    all_known(strands) && all_prefixes(strands)
}

fn all_known(strands: &[Strand<'_>]) -> bool
    ensures { IsTrue result ↔ ((k : ℕ) (one : Journal) → At strands.now k one → AllKnown strands.now one.items) }
{
    for one in strands {
        if !knows_all(strands, one.items()) {
            return false;
        }
    }
    true
}

/// Whether each message that these items took is of a node with a journal.
#[tactic(auto, unfolding(crate::specs::Ruled::AllKnown))]
fn knows_all(strands: &[Strand<'_>], items: &[Item]) -> bool
    ensures { IsTrue result ↔ AllKnown strands.now items.now }
{
    for item in items {
        if let Arrived::Message(named) = &item.input {
            if !is_known(strands, named.from) {
                return false;
            }
        }
    }
    true
}

fn is_known(strands: &[Strand<'_>], node: NodeId) -> bool
    ensures { IsTrue result ↔ IsKnown strands.now node }
{
    for one in strands {
        if one.id() == node {
            return true;
        }
    }
    false
}

fn all_prefixes(strands: &[Strand<'_>]) -> bool
    ensures { IsTrue result ↔ ((k : ℕ) (one : Journal) → At strands.now k one → ArePrefixes strands.now one.id one.items) }
{
    for one in strands {
        if !took_prefixes(strands, one.id(), one.items()) {
            return false;
        }
    }
    true
}

/// Whether what these items took of each node is the prefix of what that sent to them.
#[tactic(auto, unfolding(crate::specs::Ruled::ArePrefixes))]
fn took_prefixes(strands: &[Strand<'_>], to: NodeId, items: &[Item]) -> bool
    ensures { IsTrue result ↔ ArePrefixes strands.now to items.now }
{
    for other in strands {
        if !took_prefix(to, items, other.id(), other.items()) {
            return false;
        }
    }
    true
}
