// Items that are copied, and what comes to a node given to it.
use curp_cmd::NodeId;
use curp_journal::{Arrived, Item, Named};
use curp_msg::{Body, Done, Input, Local, Message};
use std::alloc::Global;
use std::process::Abort;

fn fetch() -> Message {
    Message {
        from: NodeId::client(1),
        to: NodeId::manager(),
        body: Body::Fetch,
    }
}

fn came() -> Arrived {
    Arrived::Message(Named {
        from: NodeId::client(1),
        step: 2,
        place: 1,
        stamp: 7,
        message: fetch(),
    })
}

// An item that took a message, and sent one.
fn item(rt: &impl Abort, alloc: Global) -> Item {
    let mut sent = Vec::new(alloc);
    assert!(rt; sent.push(fetch()).is_ok());
    Item {
        stamp: 8,
        input: came(),
        done: Done::sends(sent),
    }
}

// The copy has the stamps of the item and of what came, and as many messages.
#[test]
fn items_are_copied(rt: HostRuntime) {
    let item = item(&rt, rt.alloc());
    let copy = item.copy(rt.alloc()).expect(&rt, "no memory");
    drop(item);
    assert!(rt; copy.stamp == 8);
    assert!(rt; copy.input.stamp() == 7);
    assert!(rt; copy.done.sent.len() == 1);
    drop(copy);
}

// A node gets the message, or the order to sync, and it has that stamp.
fn try_given(rt: &impl Abort, came: Arrived, is_message: bool, stamp: u64) {
    let is_given = match came.given() {
        Input::Message(
            Message {
                body: Body::Fetch,
                ..
            },
        ) => is_message,
        Input::Local(Local::Sync) => !is_message,
        _ => false,
    };
    assert!(rt; is_given);
    assert!(rt; came.stamp() == stamp);
    drop(came);
}

#[test]
fn messages_and_orders_are_given(rt: HostRuntime) {
    try_given(&rt, came(), true, 7);
    try_given(&rt, Arrived::Local(Local::Sync, 5), false, 5);
}
