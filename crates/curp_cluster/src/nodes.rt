ghost use Rattle.std.specs.Prelude.{◌≡◌, ◌≢◌, ◌≤◌, ◌&&◌, nat_le, nat_lt, true, length, IfOk};
ghost use Rattle.std.specs.Option.{option_copied, option_map};
ghost use Rattle.curp_base.specs.Words.{numbered};
ghost use Rattle.curp_cmd.specs.Node.{manager_node};
ghost use Rattle.curp_msg.specs.Script.{IsHeader};
ghost use Rattle.curp_model.specs.World as world;
ghost use Rattle.curp_model.specs.World.{World, has_node};
ghost use Rattle.curp_msg.specs.Moved.{Moves, within};
ghost use Rattle.curp_msg.specs.Input.{input_of};
ghost use Rattle.curp_line.specs.Due.{IsFewOf, master_at, most_marks};
ghost use Rattle.curp_cluster.specs.Nodes.{nodes_of, with_nodes};

use crate::given::{give, give_one};
use crate::growing::most_fresh;
use curp_base::NoMemory;
use curp_cmd::{NodeId, NodeKind};
use curp_msg::{Done, Header, Input};
use curp_nodes::growing::{add_backups, add_masters, make_ahead, take_up};
use curp_nodes::{BackupNode, ClientNode, ManagerNode, MasterNode, WitnessNode};
use std::alloc::Global;
use std::marker::Model;

/// All nodes. Those of each kind but the manager are numbered from 1. Witnesses whose memory was found for an order of
/// the manager stand behind the others, until it names them.
#[derive(Drop)]
pub(crate) struct Nodes {
    alloc: Global,
    manager: ManagerNode,
    clients: Vec<ClientNode>,
    masters: Vec<MasterNode>,
    backups: Vec<BackupNode>,
    witnesses: Vec<WitnessNode>,
    ahead: Vec<WitnessNode>,
    sets: u32,
    ways: u32,
}

impl Model for Nodes {
    ghost use Rattle.curp_nodes.specs.Nodes.{states};
    ghost use Rattle.curp_cluster.specs.Nodes.{AreNumbered, NodeStates};

    ghost Value = { NodeStates };

    ghost view = { λ n. record {
      clients = states n.clients.items;
      manager = n.manager;
      masters = states n.masters.items;
      backups = states n.backups.items;
      witnesses = states n.witnesses.items;
      sets = n.sets;
      ways = n.ways;
    } };

    ghost invariant = { λ n. AreNumbered n.manager.next n.clients.items n.masters.items n.backups.items
        n.witnesses.items n.ahead.items n.sets n.ways };
}

impl Nodes {
    /// The nodes of a header as at opening.
    #[tactic(auto, using(curp_nodes::proofs::Numbers::few_keepers))]
    pub(crate) fn new(alloc: Global, header: &Header) -> Result<Nodes, NoMemory>
        requires { IsHeader header.now }
        ensures { IfOk result (λ nodes. nodes ≡ nodes_of (world.opening header.now)) }
    {
        let keepers = header.parts * header.f;
        let managing = curp_nodes::manager(alloc, header)?;
        let config = managing.config();
        let clients = curp_nodes::clients(alloc, header, config)?;
        let masters = curp_nodes::masters(alloc, header, config)?;
        Ok(Nodes {
            alloc,
            manager: managing,
            clients,
            masters,
            backups: curp_nodes::backups(alloc, keepers)?,
            witnesses: curp_nodes::witnesses(alloc, keepers, header.sets, header.ways)?,
            ahead: Vec::new(alloc),
            sets: header.sets,
            ways: header.ways,
        })
    }

    pub(crate) fn manager(&self) -> &ManagerNode
        ensures { result.now ≡ self.now.manager }
    {
        &self.manager
    }

    /// The client of that number.
    pub(crate) fn client(&self, number: u32) -> Option<&ClientNode>
        ensures { option_map (λ c. c.now.state) result ≡ numbered self.now.clients number }
    {
        numbered(&self.clients, number)
    }

    /// How many masters there are.
    pub(crate) fn master_count(&self) -> u32
        ensures { result ≡ length self.now.masters }
    {
        self.manager.next_master() - 1
    }

    /// The master of that number.
    pub(crate) fn master(&self, number: u32) -> Option<&MasterNode>
        ensures { option_map (λ m. m.now.state) result ≡ numbered self.now.masters number }
    {
        numbered(&self.masters, number)
    }

    /// Whether there is a node of that name, in a world of these nodes.
    pub(crate) fn has_node(&self, node: NodeId) -> bool
        ensures { (w : World) → result ≡ has_node (with_nodes w self.now) node }
    {
        match node.kind {
            NodeKind::Manager => node.number == 0,
            NodeKind::Client => is_numbered(node.number, self.clients.len()),
            NodeKind::Master => is_numbered(node.number, self.masters.len()),
            NodeKind::Backup => is_numbered(node.number, self.backups.len()),
            NodeKind::Witness => is_numbered(node.number, self.witnesses.len()),
        }
    }

    /// The node of that name, which is there, gets an input, and moves as in a world of these nodes; where it is the
    /// manager, the fresh nodes that it names are there from then on. Of what a master pushes and captures no more than
    /// the bound of the input is new.
    pub(crate) fn give(&mut self, to: NodeId, input: Input) -> Result<Done, NoMemory>
        requires there { (w : World) × (has_node (with_nodes w self.old) to ≡ true) }
        ensures moves { (w : World) → Moves self.old self.new result
            (within nodes_of (world.moves (with_nodes w self.old) to (input_of input.entry))) }
        ensures few { IsFewOf (master_at to.kind to.number self.old.masters)
            (master_at to.kind to.number self.new.masters) (most_marks (input_of input.entry)) }
        ensures refused { IfOk result (λ done. done.refused ≢ 0 → self.new ≡ self.old) }
    {
        match to.kind {
            NodeKind::Client => give(&mut self.clients, to.number, input),
            NodeKind::Master => give(&mut self.masters, to.number, input),
            NodeKind::Backup => give(&mut self.backups, to.number, input),
            NodeKind::Witness => give(&mut self.witnesses, to.number, input),
            NodeKind::Manager => self.give_manager(input),
        }
    }

    // The manager gets an input. The memory of what it may name is found before, so that it moves only where that is
    // there; a witness that it doesn't name waits for the next order.
    fn give_manager(&mut self, input: Input) -> Result<Done, NoMemory>
        ensures moves { (w : World) → Moves self.old self.new result
            (within nodes_of (world.moves (with_nodes w self.old) manager_node (input_of input.entry))) }
        ensures refused { IfOk result (λ done. done.refused ≢ 0 → self.new ≡ self.old) }
    {
        let most = most_fresh(self.manager.keepers(), input);
        self.masters.reserve(most.masters as usize)?;
        self.backups.reserve(most.backups as usize)?;
        self.witnesses.reserve(most.witnesses as usize)?;
        // No number comes past the last one.
        let count = most.witnesses.min(u32::MAX - self.manager.next_witness());
        let there = &self.witnesses;
        make_ahead(
            self.alloc,
            &mut self.ahead,
            there,
            count,
            self.sets,
            self.ways,
        )?;
        let done = give_one(&mut self.manager, input)?;
        add_masters(self.alloc, &mut self.masters, self.manager.next_master());
        add_backups(self.alloc, &mut self.backups, self.manager.next_backup());
        take_up(
            &mut self.witnesses,
            &mut self.ahead,
            self.manager.next_witness(),
        );
        Ok(done)
    }
}

// Whether one of so many nodes, numbered from 1, has this number.
fn is_numbered(number: u32, count: usize) -> bool
    ensures { result ≡ (nat_lt 0 number && nat_le number count) }
{
    0 < number && number as usize <= count
}

// The item of that number, counted from 1.
fn numbered<T>(items: &[T], number: u32) -> Option<&T>
    ensures { option_copied result ≡ numbered items.now number }
{
    items.get(number.checked_sub(1)? as usize)
}
