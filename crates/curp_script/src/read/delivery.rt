// A delivery in the form in which it is printed. Most lines of a script are that, and need no JSON reader.
ghost use Rattle.std.specs.Prelude.{◌≡◌, IfSome, Ok};
ghost use Rattle.curp_script.specs.Grammar.{step_in};

use super::digits::whole_of;
use crate::Step;

// What stands before the number.
const FRONT: &[u8] = b"{\"do\":\"deliver\",\"msg\":";

pub(crate) fn printed_delivery(line: &[u8]) -> Option<u64>
    ensures { IfSome result (λ message. step_in line.now ≡ Ok (Step.Deliver message)) }
{
    let rest = line.strip_prefix(FRONT)?;
    let digits = rest.strip_suffix(b"}")?;
    whole_of(digits)
}
