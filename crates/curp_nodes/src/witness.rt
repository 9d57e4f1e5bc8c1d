ghost use Rattle.std.specs.Prelude.{◌≡◌, ◌<◌, ◌↔◌, ◌⊎◌, Err, IfOk, IsErr};
ghost use Rattle.curp_base.specs.declared.failed.Failed.TheVariants as failed;
ghost use Rattle.curp_cmd.specs.Node.{witness_node};
ghost use Rattle.curp_model.specs.Witness.{HoldsInOrder, fresh_witness, on_witness, start, started_witness};
ghost use Rattle.curp_msg.specs.Moved.{Moves, numbered_move, quiet, says};

use curp_base::{Failed, Items, NoMemory};
use curp_cmd::NodeId;
use curp_msg::{
    Accepted, Body, Collected, Core, Done, Gc, GcAnswer, Local, Message, Probe, Probed, Record,
    Rejected, Start,
};
use curp_slots::{BadShape, NotIdle, RecordAnswer, Stranger, Witness};
use std::alloc::{AllocError, Global};
use std::marker::Model;

/// A witness as a node.
pub struct WitnessNode {
    alloc: Global,
    number: u32,
    witness: Witness,
}

impl Drop for WitnessNode {
    fn drop(self) {
        let WitnessNode {
            alloc: _,
            number: _,
            witness: _,
        } = self;
    }
}

impl Model for WitnessNode {
    ghost use Rattle.curp_msg.specs.Moved.{Node};
    ghost use Rattle.curp_model.specs.Witness.{WitnessState};

    ghost Value = { Node WitnessState };

    ghost view = { λ n. record { number = n.number; state = n.witness } };
}

impl WitnessNode {
    /// A witness of that number that wasn't started, and holds nothing. It takes no memory until it is.
    pub fn fresh(alloc: Global, number: u32, sets: u32, ways: u32) -> Result<WitnessNode, BadShape>
        ensures number { IfOk result (λ w. w.number ≡ number) }
        ensures state { IfOk result (λ w. w.state ≡ fresh_witness sets ways) }
        ensures bad_shape { IsErr result ↔ ((sets < 1) ⊎ ((1024 < sets) ⊎ ((ways < 1) ⊎ (16 < ways)))) }
    {
        let witness = Witness::new(alloc, sets, ways)?;
        Ok(WitnessNode {
            alloc,
            number,
            witness,
        })
    }

    /// A witness of that number as at opening: it was started at that epoch, and holds nothing. All memory for its
    /// slots is taken here.
    pub fn new(
        alloc: Global,
        number: u32,
        sets: u32,
        ways: u32,
        epoch: u32,
    ) -> Result<WitnessNode, Failed<BadShape>>
        ensures number { IfOk result (λ w. w.number ≡ number) }
        ensures state { IfOk result (λ w. w.state ≡ started_witness sets ways epoch) }
        ensures bad_shape { (result ≡ Err (failed.Because (record {})))
            ↔ ((sets < 1) ⊎ ((1024 < sets) ⊎ ((ways < 1) ⊎ (16 < ways)))) }
    {
        let witness = Witness::started(alloc, sets, ways, epoch)?;
        Ok(WitnessNode {
            alloc,
            number,
            witness,
        })
    }

    /// What it holds stands in ascending order of the ids, whatever came.
    pub fn holds_in_order(&self)
        ensures { HoldsInOrder self.now.state }
    {
        self.witness.holds_in_order();
    }

    fn answer(&self, to: NodeId, body: Body) -> Message
        ensures { result ≡ says (witness_node self.now.number) to body }
    {
        Message {
            from: NodeId::witness(self.number),
            to,
            body,
        }
    }

    #[tactic(auto, unfolding(curp_model::specs::Witness::on_witness))]
    fn on_record(&mut self, from: NodeId, asked: &Record) -> Result<Done, NoMemory>
        ensures { Moves self.old self.new result
            (numbered_move self.old.number (on_witness self.old.number self.old.state from (Body.Record asked.now))) }
    {
        let mut messages = Vec::with_capacity(self.alloc, 1)?;
        let request = asked.request.share()?;
        let id = request.id;
        let body = match self.witness.hold(asked.epoch, request) {
            RecordAnswer::Accepted => Body::Accepted(Accepted {
                id,
                epoch: asked.epoch,
            }),
            RecordAnswer::Rejected(reason) => Body::Rejected(Rejected { id, reason }),
        };
        messages.push_reserved(self.answer(from, body));
        Ok(Done::sends(messages))
    }

    #[tactic(auto, unfolding(curp_model::specs::Witness::on_witness))]
    fn on_gc(&mut self, from: NodeId, asked: &Gc) -> Result<Done, NoMemory>
        ensures { Moves self.old self.new result
            (numbered_move self.old.number (on_witness self.old.number self.old.state from (Body.Gc asked.now))) }
    {
        let mut messages = Vec::with_capacity(self.alloc, 1)?;
        let answer = match self.witness.gc(asked.epoch, asked.ids.as_slice()) {
            Ok(suspects) => GcAnswer::Suspects(Items::new(suspects)),
            Err(Failed::Because(Stranger { epoch })) => GcAnswer::Stranger { epoch },
            Err(Failed::NoMemory) => return Err(AllocError),
        };
        let collected = Collected {
            epoch: asked.epoch,
            answer,
        };
        messages.push_reserved(self.answer(from, Body::Collected(collected)));
        Ok(Done::sends(messages))
    }

    // Where there is no memory for its slots it isn't started, and may be when the message comes again.
    fn on_start(&mut self, asked: &Start) -> Result<Done, NoMemory>
        ensures { Moves self.old self.new result
            (numbered_move self.old.number (quiet (start self.old.state asked.now.epoch))) }
    {
        match self.witness.start(asked.part, asked.epoch) {
            Ok(()) => Ok(Done::quiet(self.alloc)),
            // It stays as it was.
            Err(Failed::Because(NotIdle { .. })) => Ok(Done::quiet(self.alloc)),
            Err(Failed::NoMemory) => Err(AllocError),
        }
    }

    #[tactic(auto, unfolding(curp_model::specs::Witness::on_witness))]
    fn on_freeze(&mut self, from: NodeId, epoch: u32) -> Result<Done, NoMemory>
        ensures { Moves self.old self.new result
            (numbered_move self.old.number (on_witness self.old.number self.old.state from (Body.Freeze epoch))) }
    {
        let mut messages = Vec::with_capacity(self.alloc, 1)?;
        let requests = Items::new(self.witness.freeze()?);
        messages.push_reserved(self.answer(from, Body::FrozenAnswer { requests }));
        Ok(Done::sends(messages))
    }

    #[tactic(auto, unfolding(curp_model::specs::Witness::on_witness))]
    fn on_probe(&self, from: NodeId, asked: &Probe) -> Result<Done, NoMemory>
        ensures { Moves self.now self.now result
            (numbered_move self.now.number (on_witness self.now.number self.now.state from (Body.Probe asked.now))) }
    {
        let mut messages = Vec::with_capacity(self.alloc, 1)?;
        let probed = Probed {
            id: asked.id,
            epoch: asked.epoch,
            live: self.witness.probe(asked.epoch),
        };
        messages.push_reserved(self.answer(from, Body::Probed(probed)));
        Ok(Done::sends(messages))
    }
}

impl Core for WitnessNode {
    ghost use Rattle.curp_nodes.specs.Machines.{witness_machine};
    ghost use Rattle.curp_nodes.specs.Refusals.{witness_refusals, witness_taken};

    ghost machine = { witness_machine };

    ghost refusals = { witness_refusals };

    ghost messages_taken = { witness_taken };

    #[tactic(auto, unfolding(crate::specs::Machines::witness_machine, curp_model::specs::Witness::on_witness))]
    fn on_message(&mut self, message: &Message) -> Result<Done, NoMemory> {
        match &message.body {
            Body::Record(asked) => self.on_record(message.from, asked),
            Body::Gc(asked) => self.on_gc(message.from, asked),
            Body::Start(asked) => self.on_start(asked),
            Body::Freeze { epoch } => self.on_freeze(message.from, *epoch),
            Body::Probe(asked) => self.on_probe(message.from, asked),
            _ => Ok(Done::quiet(self.alloc)),
        }
    }

    #[tactic(auto, unfolding(crate::specs::Machines::witness_machine))]
    fn on_order(&mut self, _order: &Local) -> Result<Done, NoMemory> {
        Ok(Done::quiet(self.alloc))
    }
}
