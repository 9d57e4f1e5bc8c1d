//! Laws of connections. Each is the contract of a function that does nothing: a caller has it by calling that function.
ghost use Rattle.std.specs.Prelude.{ℕ, List};
ghost use Rattle.curp_front.specs.Talk.{Event, InOrder, begins, talk};

/// Whatever comes at a connection, in whatever pieces, and whenever it is told what is next: what it was told is the
/// replies to its requests, each once and in their order, and at its end all of them, behind them the error that ended it.
pub fn replies_are_in_order()
    ensures { (number : ℕ) (events : List Event) → InOrder (talk events (begins number)) }
{}
