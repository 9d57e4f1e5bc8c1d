// A node gets its input.
ghost use Rattle.std.specs.Prelude.{◌≡◌, ◌≢◌, ◌-◌, ◌≤◌, length, IfOk};
ghost use Rattle.curp_msg.specs.Moved.{Moves, MovesAt};
ghost use Rattle.curp_msg.specs.Input.{input_of};

use curp_base::NoMemory;
use curp_msg::{Core, Done, Input};

/// The node gets it. If it refuses the order, it stays.
pub(crate) fn give_one<N: Core>(node: &mut N, input: Input) -> Result<Done, NoMemory>
    ensures moves { Moves node.old node.new result (N.machine node.old (input_of input.entry)) }
    ensures refused { IfOk result (λ done. done.refused ≢ 0 → node.new ≡ node.old) }
{
    node.on(input)
}

/// The node of that number, counted from 1, gets it, and the others stay. If it refuses the order, it stays too.
pub(crate) fn give<N: Core>(nodes: &mut [N], number: u32, input: Input) -> Result<Done, NoMemory>
    requires low { 1 ≤ number }
    requires high { number ≤ length nodes.old }
    ensures moves { MovesAt (number - 1) nodes.old nodes.new result (λ node. N.machine node (input_of input.entry)) }
    ensures refused { IfOk result (λ done. done.refused ≢ 0 → nodes.new ≡ nodes.old) }
{
    let node = &mut nodes[(number - 1) as usize];
    node.on(input)
}
