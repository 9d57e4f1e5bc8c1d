//! The nodes of a store in one thread, and a network of this program's own: a queue in memory.
//!
//! A client puts a value, loses the reply, retries, and reads. Then the master is recovered, and the client reads again.
//! Each step is printed. All that is used of the nodes comes from `curp_core`.
#![tactic(auto)]

use anyhow::{Context, Result, bail, ensure};
use curp_core::bodies::{AppendAnswer, Body};
use curp_core::{
    Answer, BackupNode, ClientNode, Command, Completed, Core, Done, Header, Input, Key, Local,
    ManagerNode, MasterNode, Message, NoMemory, NodeId, NodeKind, Protocol, Shared, Value,
    WitnessNode, opening,
};
use std::alloc::Global;
use std::collections::VecDeque;
use std::fmt;

/// One client, and one partition with a master, a backup and a witness.
const CLUSTER: Header = Header {
    clients: 1,
    f: 1,
    fast: true,
    parts: 1,
    protocol: Protocol::One,
    sets: 16,
    ways: 4,
};

fn main(rt: HostRuntime) -> Result<()> {
    let mut deployment = Deployment::new(rt.alloc())?;
    update_and_read(&rt, &mut deployment)?;
    recover_and_read(&rt, &mut deployment)
}

fn update_and_read(rt: &impl Print, deployment: &mut Deployment) -> Result<()> {
    let key = Key::new(b"tea").ok().context("no key")?;
    let value = Value::new(b"95").ok().context("no value")?;
    let put = Local::Invoke(Shared::of(deployment.alloc, &Command::Put(key, value))?);
    deployment.ask(rt, "Client 1 puts 95 under tea.", put)?;
    deployment.ask(rt, "Client 1 retries request 1.", Local::Retry(1))?;
    let get = Local::Invoke(Shared::of(deployment.alloc, &Command::Get(key))?);
    deployment.ask(rt, "Client 1 reads tea.", get)
}

fn recover_and_read(rt: &impl Print, deployment: &mut Deployment) -> Result<()> {
    let recover = Local::Recover {
        part: 1,
        backup: 1,
        witness: 1,
    };
    deployment.make_fresh_nodes()?;
    deployment.order(rt, "Master 1 is given up.", NodeId::manager(), recover)?;
    let key = Key::new(b"tea").ok().context("no key")?;
    let get = Local::Invoke(Shared::of(deployment.alloc, &Command::Get(key))?);
    deployment.ask(rt, "Client 1 reads tea, at master 1.", get)?;
    deployment.ask(rt, "Client 1 asks which nodes serve.", Local::Fetch)?;
    deployment.ask(rt, "Client 1 retries request 3.", Local::Retry(3))
}

// snippet: a node
/// A node gets an order or a message. What it sends goes to the network, and what it completes is handed back.
fn give<N: Core>(node: &mut N, input: Input, network: &mut Network) -> Result<Option<Completed>> {
    let Done {
        refused,
        sent,
        completed,
        ..
    } = node.on(input)?;
    for message in sent.into_vec() {
        network.send(message)?;
    }
    ensure!(refused == 0, "the order is refused by {refused}");
    Ok(completed)
}
// snippet ends

/// All nodes, each kind by its numbers from 1, and the network between them.
#[derive(Drop)]
struct Deployment {
    alloc: Global,
    manager: ManagerNode,
    clients: Vec<ClientNode>,
    masters: Vec<MasterNode>,
    backups: Vec<BackupNode>,
    witnesses: Vec<WitnessNode>,
    network: Network,
}

impl Deployment {
    fn new(alloc: Global) -> Result<Deployment, NoMemory> {
        let manager = opening::manager(alloc, &CLUSTER)?;
        Ok(Deployment {
            alloc,
            clients: opening::clients(alloc, &CLUSTER, manager.config())?,
            masters: opening::masters(alloc, &CLUSTER, manager.config())?,
            backups: opening::backups(alloc, 1)?,
            witnesses: opening::witnesses(alloc, 1, CLUSTER.sets, CLUSTER.ways)?,
            network: Network::new(alloc),
            manager,
        })
    }

    /// Makes the nodes that the next recovery will name, so that they are there when its messages come.
    fn make_fresh_nodes(&mut self) -> Result<()> {
        let number = self.manager.next_witness();
        let witness = WitnessNode::fresh(self.alloc, number, CLUSTER.sets, CLUSTER.ways);
        let backup = BackupNode::fresh(self.alloc, self.manager.next_backup());
        let master = MasterNode::fresh(self.alloc, self.manager.next_master());
        self.witnesses.push(witness.ok().context("no witness")?)?;
        self.backups.push(backup)?;
        self.masters.push(master)?;
        Ok(())
    }

    fn ask(&mut self, rt: &impl Print, words: &str, order: Local) -> Result<()> {
        self.order(rt, words, NodeId::client(1), order)
    }

    /// A node gets an order, and then the messages are brought, until none is left.
    fn order(&mut self, rt: &impl Print, words: &str, to: NodeId, order: Local) -> Result<()> {
        println!(rt; "{words}")?;
        self.give(rt, to, Input::Local(&order))?;
        for _ in 0..100 {
            let Some(message) = self.network.take() else {
                return Ok(());
            };
            self.deliver(rt, message)?;
        }
        bail!("too many messages")
    }

    fn deliver(&mut self, rt: &impl Print, message: Message) -> Result<()> {
        let (from, to) = (Name(message.from), Name(message.to));
        let (times, fate) = self.network.fate();
        let said = in_words(&message.body);
        println!(rt; "{}. {from} to {to}: {said}{fate}", self.network.taken)?;
        let input = Input::Message(&message);
        for _ in 0..times {
            self.give(rt, to.0, input)?;
        }
        Ok(())
    }

    fn give(&mut self, rt: &impl Print, to: NodeId, input: Input) -> Result<()> {
        let network = &mut self.network;
        let completed = match to.kind {
            NodeKind::Manager => give(&mut self.manager, input, network)?,
            NodeKind::Client => give(nth(&mut self.clients, to.number)?, input, network)?,
            NodeKind::Master => give(nth(&mut self.masters, to.number)?, input, network)?,
            NodeKind::Backup => give(nth(&mut self.backups, to.number)?, input, network)?,
            NodeKind::Witness => give(nth(&mut self.witnesses, to.number)?, input, network)?,
        };
        if let Some(Completed { id, answer, .. }) = completed {
            println!(rt; "Request {} is completed: {}.", id.seq, told(&answer))?;
        }
        Ok(())
    }
}

fn nth<N>(nodes: &mut [N], number: u32) -> Result<&mut N> {
    let place = (number as usize).wrapping_sub(1);
    nodes.get_mut(place).context("no such node")
}

/// A queue, which loses its third message, and brings the fifth one twice.
#[derive(Drop)]
struct Network {
    waiting: VecDeque<Message>,
    /// The number of the message that was taken last. They are numbered from 1, as they were sent.
    taken: u64,
}

impl Network {
    fn new(alloc: Global) -> Network {
        let waiting = VecDeque::new(alloc);
        Network { waiting, taken: 0 }
    }

    fn send(&mut self, message: Message) -> Result<(), NoMemory> {
        Ok(self.waiting.push_back(message)?)
    }

    fn take(&mut self) -> Option<Message> {
        let message = self.waiting.pop_front()?;
        self.taken = self.taken.saturating_add(1);
        Some(message)
    }

    /// How often the message that was taken last comes, and the same in words.
    fn fate(&self) -> (u32, &'static str) {
        match self.taken {
            3 => (0, " (lost)"),
            5 => (2, " (comes twice)"),
            _ => (1, ""),
        }
    }
}

/// A node in words.
#[derive(Clone, Copy)]
struct Name(NodeId);

impl fmt::Display for Name {
    fn fmt<W: fmt::Write>(&self, f: &mut fmt::Formatter<W>) -> fmt::Result {
        let number = self.0.number;
        match self.0.kind {
            NodeKind::Manager => write!(f, "the manager"),
            NodeKind::Client => write!(f, "client {number}"),
            NodeKind::Master => write!(f, "master {number}"),
            NodeKind::Backup => write!(f, "backup {number}"),
            NodeKind::Witness => write!(f, "witness {number}"),
        }
    }
}

fn told(answer: &Answer) -> &str {
    match answer {
        Answer::Found(Some(value)) => str::from_utf8(value.bytes()).unwrap_or("bytes"),
        Answer::Found(None) => "nothing",
        _ => "done",
    }
}

fn in_words(body: &Body) -> &'static str {
    match body {
        Body::Update(_) => "do this, and answer at once where that is safe",
        Body::Record(_) => "hold this",
        Body::Reply(_) => "it is done",
        Body::Accepted(_) => "it is held",
        Body::Read(_) => "read this",
        Body::Append(_) => "store this",
        Body::Appended(appended) => match appended.answer {
            AppendAnswer::Stored { .. } => "it is stored",
            _ => "it is not stored, since a newer master asked for the log",
        },
        Body::Worth(_) => "this is what was read",
        Body::Install { .. } => "be a backup",
        Body::Start(_) => "be a witness",
        Body::Recover(_) => "recover the partition",
        Body::Fence { .. } => "give me the log, and take nothing of older masters any more",
        Body::FenceAnswer(_) => "this is the log",
        Body::Freeze { .. } => "tell me what you hold, and hold nothing more",
        Body::FrozenAnswer { .. } => "this is what I hold",
        Body::Recovered(_) => "the partition is recovered",
        Body::Adopted(_) => "serve it",
        Body::Fetch => "which nodes serve?",
        Body::Configuration { .. } => "these nodes serve",
        _ => "something else",
    }
}
