//! What holds of every order of a history. A law is the contract of a function with nothing in it, and a caller has the
//! law by the call.
ghost use Rattle.std.specs.Prelude.{◌≤◌, List, length};
ghost use Rattle.curp_order.specs.Order.{IsOrder, Asked};
ghost use Rattle.curp_order.specs.declared.Event.{Event};

/// An order has no more requests than its history has events.
pub fn orders_are_short()
    ensures { (events : List Event) (order : List Asked) → IsOrder events order → length order ≤ length events }
{}
