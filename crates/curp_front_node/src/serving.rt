ghost use Rattle.std.specs.Prelude.{◌≡◌, ◌++◌, ◌∷◌, [], true, Err, IfErr, IfOk, OnOk};
ghost use Rattle.curp_io.specs.Streaming.{TellsFault};
ghost use Rattle.curp_base.specs.Words.{Each};
ghost use Rattle.curp_cmd.specs.Node.{client_node};
ghost use Rattle.curp_journal.specs.Own.{IsOwn};
ghost use Rattle.curp_front_node.specs.Ends.{IsEndOfWait, IsOfNode, IsOfWaiting, IsOfWriting, refusal_of, told_of, turned_away};

use curp_base::{Items, NoMemory, Shared};
use curp_client::InvokeError;
use curp_cmd::{Command, NodeId};
use curp_disk::Disk;
use curp_durable::{Answered, Durable};
use curp_filter::{FilterEnd, PassedOver, told_of, write_text};
use curp_front::{
    Admitted, FrontInput, FrontOutput, Fronts, InvokeRefusal, front_input_in, is_short,
    too_many_text, write_front_output,
};
use curp_io::{Sink, Source};
use curp_journal::{Arrived, is_own};
use curp_msg::{Local, Numbered};
use curp_nodes::ClientNode;
use curp_parcels::{NextParcel, Parcels};
use curp_told::{tell, tell_one};
use std::alloc::Global;

/// How many requests of a client are pending at most (this project's own).
const MOST_PENDING: usize = 8;

/// Reads parcels and the bytes of connections until the input ends, and answers both. The client is of this number.
/// Commands of connections are invoked with the last stamp of the node's journal.
pub fn serve<D: Disk, S: Source, K: Sink>(
    alloc: Global,
    client: u32,
    node: &mut Durable<ClientNode, D>,
    source: &mut S,
    sink: &mut K,
) -> FilterEnd
    // Where it ended behind a parcel, nothing is left of the input.
    ensures end { S.tells source.old ≡ true → result ≡ FilterEnd.End → S.left source.new ≡ [] }
    ensures read_fault { TellsFault (result ≡ FilterEnd.ReadFault) (S.faults source.old) (S.faults source.new) }
    ensures write_fault { TellsFault (result ≡ FilterEnd.WriteFault) (K.faults sink.old) (K.faults sink.new) }
{
    let mut parcels = Parcels::new(alloc);
    let mut server = Server {
        alloc,
        client,
        node,
        fronts: Fronts::new(alloc),
        inputs: 0,
        text: Vec::new(alloc),
    };
    for _ in 0..u64::MAX {
        if let Some(stop) = parcels.await_parcel(source) {
            return end_of(&stop);
        }
        if let Err(end) = server.turn(&mut parcels, sink) {
            return end;
        }
    }
    FilterEnd::TooManyInputs
}

/// How a process ends that waits for a parcel.
fn end_of(stop: &NextParcel) -> FilterEnd
    ensures end { IsEndOfWait stop.now result }
    ensures of_waiting { IsOfWaiting result }
{
    match stop {
        NextParcel::Inside { at } => FilterEnd::Inside { at: *at },
        NextParcel::TooLong { at } => FilterEnd::TooLong { at: *at },
        NextParcel::ReadFault => FilterEnd::ReadFault,
        NextParcel::NoMemory => FilterEnd::NoMemory,
        NextParcel::End | NextParcel::Arrived(_) | NextParcel::NoParcel { .. } => FilterEnd::End,
    }
}

/// What was read ahead: inputs of the node, and what stands behind them, if the node isn't given it.
#[derive(Drop)]
struct ReadAhead {
    arrived: Vec<Arrived>,
    last: Option<PassedOver>,
}

/// The node, the connections in front of it, and what is to be written.
struct Server<'a, D: Disk> {
    alloc: Global,
    client: u32,
    node: &'a mut Durable<ClientNode, D>,
    fronts: Fronts,
    /// How many inputs were told of.
    inputs: u64,
    text: Vec<u8>,
}

impl<'a, D: Disk> Drop for Server<'a, D> {
    fn drop(self) {
        let Server {
            alloc: _,
            client: _,
            node: _,
            fronts: _,
            inputs: _,
            text: _,
        } = self;
    }
}

impl<'a, D: Disk> Server<'a, D> {
    /// Answers what is read ahead, and what connections ask for, and writes it at once.
    fn turn<K: Sink>(&mut self, parcels: &mut Parcels, sink: &mut K) -> Result<(), FilterEnd>
        ensures of_writing { IfErr result IsOfWriting }
        ensures write_fault { TellsFault (result ≡ Err FilterEnd.WriteFault) (K.faults sink.old) (K.faults sink.new) }
    {
        self.answer_all(parcels)?;
        write_text(sink, &self.text)?;
        self.text.clear();
        Ok(())
    }

    /// Answers what is read ahead, and what connections ask for.
    fn answer_all(&mut self, parcels: &mut Parcels) -> Result<(), FilterEnd>
        ensures { IfErr result IsOfNode }
    {
        let taken = self.take(parcels)?;
        self.answer(taken.arrived)?;
        self.tell_last(taken.last)?;
        self.tell_connections()?;
        // What connections are told may bring their next commands.
        for _ in 0..u64::MAX {
            if !self.invoke()? {
                break;
            }
            self.tell_connections()?;
        }
        Ok(())
    }

    /// Takes what is read ahead whole, up to what the node isn't given: inputs of the node are given back, and connections
    /// get what is theirs.
    fn take(&mut self, parcels: &mut Parcels) -> Result<ReadAhead, FilterEnd>
        ensures of_node { IfErr result IsOfNode }
        ensures own { IfOk result (λ taken. Each (IsOwn (client_node self.old.client)) taken.arrived.items) }
    {
        let mut arrived = Vec::new(self.alloc);
        for taken in 0..u64::MAX {
            let front = front_ahead(self.alloc, parcels)?;
            let Some(ready) = parcels.ready_parcel() else {
                break;
            };
            match ready {
                NextParcel::Arrived(input) => {
                    if !is_own(NodeId::client(self.client), &input) {
                        let last = Some(PassedOver::Misdirected(input));
                        return Ok(ReadAhead { arrived, last });
                    }
                    add(&mut arrived, input)?;
                }
                NextParcel::NoParcel { at } => {
                    let Some(input) = front else {
                        let last = Some(PassedOver::NoParcel { at });
                        return Ok(ReadAhead { arrived, last });
                    };
                    self.take_front(&input)?;
                }
                NextParcel::NoMemory => return Err(FilterEnd::NoMemory),
                // What stands before it is answered first.
                NextParcel::TooLong { at } if taken == 0 => return Err(FilterEnd::TooLong { at }),
                _ => break,
            }
        }
        Ok(ReadAhead {
            arrived,
            last: None,
        })
    }

    /// Gives connections what is theirs.
    fn take_front(&mut self, input: &FrontInput) -> Result<(), NoMemory>
        ensures client { self.new.client ≡ self.old.client }
    {
        match input {
            FrontInput::Bytes { connection, bytes } => {
                match self.fronts.on_bytes(*connection, bytes.as_slice())? {
                    Admitted::Taken => Ok(()),
                    Admitted::TooMany => self.turn_away(*connection),
                }
            }
            FrontInput::Closed { connection } => {
                self.fronts.on_closed(*connection);
                Ok(())
            }
        }
    }

    fn tell_last(&mut self, last: Option<PassedOver>) -> Result<(), NoMemory> {
        let Some(it) = last else {
            return Ok(());
        };
        self.inputs = self.inputs.saturating_add(1);
        tell_one(self.alloc, &told_of(self.inputs, &it), &mut self.text)
    }

    /// Tells a connection that there are too many.
    fn turn_away(&mut self, connection: u64) -> Result<(), NoMemory>
        ensures told { OnOk result (self.new.text.items ≡ self.old.text.items ++ turned_away connection) }
        ensures client { self.new.client ≡ self.old.client }
    {
        let bytes = Items::new(Vec::from_slice(self.alloc, too_many_text())?);
        self.tell_front(&FrontOutput::Reply { connection, bytes })?;
        self.tell_front(&FrontOutput::Close { connection })
    }

    /// Gives the node its inputs, and tells what it answers.
    fn answer(&mut self, arrived: Vec<Arrived>) -> Result<(), FilterEnd>
        ensures { IfErr result IsOfNode }
    {
        if arrived.is_empty() {
            return Ok(());
        }
        let answers = self.node.on_all(arrived)?;
        let first = self.inputs.saturating_add(1);
        tell(self.alloc, first, &answers, &mut self.text)?;
        self.inputs = self.inputs.saturating_add(answers.len() as u64);
        for answered in answers.iter() {
            self.hear(answered);
        }
        Ok(())
    }

    /// Tells connections of a request that completed.
    fn hear(&mut self, answered: &Answered) {
        if let Answered::Made { item, .. } = answered {
            if let Some(completed) = &item.done.completed {
                self.fronts.on_completed(completed.id, &completed.answer);
            }
        }
    }

    /// Has the node invoke what connections ask for, as much as may be pending, if they ask for anything.
    fn invoke(&mut self) -> Result<bool, FilterEnd>
        ensures { IfErr result IsOfNode }
    {
        let AskedOrders {
            connections,
            orders,
        } = self.next_commands()?;
        if orders.is_empty() {
            return Ok(false);
        }
        let answers = self.node.on_all(orders)?;
        self.settle(&connections, &answers);
        self.tell_messages(&answers)?;
        Ok(true)
    }

    /// The next commands that connections ask for.
    fn next_commands(&mut self) -> Result<AskedOrders, NoMemory> {
        let mut asked = AskedOrders {
            connections: Vec::new(self.alloc),
            orders: Vec::new(self.alloc),
        };
        let pending = self.node.node().pending();
        for more in 0..MOST_PENDING {
            let Some((connection, command)) = self
                .fronts
                .next_command(pending.saturating_add(more))?
            else {
                break;
            };
            let order = self.order(&command)?;
            asked.connections.push(connection)?;
            asked.orders.push(order)?;
        }
        Ok(asked)
    }

    fn order(&self, command: &Command) -> Result<Arrived, NoMemory> {
        let shared = Shared::of(self.alloc, command)?;
        Ok(Arrived::Local(Local::Invoke(shared), self.node.last_stamp()))
    }

    /// Tells each connection which request its command is, or why it is none.
    fn settle(&mut self, connections: &[u64], answers: &[Answered]) {
        for (connection, answered) in connections.iter().zip(answers.iter()) {
            match answered {
                Answered::Made { item, .. } => {
                    if let Some(request) = &item.done.invoked {
                        self.fronts.on_invoked(*connection, request.id);
                    }
                }
                Answered::Refused { number } => {
                    self.fronts.on_refused(*connection, refusal_of(*number));
                }
            }
        }
    }

    /// Tells what invoked requests send. A command that is refused has its reply at its connection.
    fn tell_messages(&mut self, answers: &[Answered]) -> Result<(), NoMemory> {
        for answered in answers {
            if let Answered::Made { .. } = answered {
                let one = std::slice::from_ref(answered);
                tell(self.alloc, self.inputs, one, &mut self.text)?;
            }
        }
        Ok(())
    }

    /// Tells connections what is due.
    fn tell_connections(&mut self) -> Result<(), NoMemory> {
        for _ in 0..u64::MAX {
            match self.fronts.next_output()? {
                Some(output) => self.tell_front(&output)?,
                None => break,
            }
        }
        Ok(())
    }

    fn tell_front(&mut self, output: &FrontOutput) -> Result<(), NoMemory>
        ensures told { OnOk result (self.new.text.items ≡ self.old.text.items ++ told_of output.now) }
        ensures client { self.new.client ≡ self.old.client }
    {
        if is_short(output) {
            write_front_output(output, &mut self.text)
        } else {
            Ok(())
        }
    }
}

/// Commands that connections ask for, as orders, and the connection of each.
#[derive(Drop)]
struct AskedOrders {
    connections: Vec<u64>,
    orders: Vec<Arrived>,
}

fn add(arrived: &mut Vec<Arrived>, input: Arrived) -> Result<(), NoMemory>
    ensures { OnOk result (arrived.new.items ≡ arrived.old.items ++ input ∷ []) }
{
    Ok(arrived.push(input)?)
}

/// What of a connection stands next, if it is that.
fn front_ahead(alloc: Global, parcels: &Parcels) -> Result<Option<FrontInput>, NoMemory> {
    match parcels.ready_content() {
        Some(content) => front_input_in(alloc, content),
        None => Ok(None),
    }
}

/// Why a command wasn't invoked, by the number of the refusal.
fn refusal_of(number: u8) -> InvokeRefusal
    ensures { result ≡ refusal_of number }
{
    if number == InvokeError::Split.number() {
        InvokeRefusal::Split
    } else {
        InvokeRefusal::Spent
    }
}
