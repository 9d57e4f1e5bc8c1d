ghost use Rattle.std.specs.Prelude.{◌≡◌, IfOk};
ghost use Rattle.curp_report.specs.Text.{order_text};

use curp_base::NoMemory;
use curp_cmd::{Answer, KeptCommand, RequestId};
use std::alloc::Global;

/// The lines of an order: how many requests it has, and each with its command and its answer.
#[tactic(auto, unfolding(crate::specs::Text::order_text))]
pub fn order_text(
    alloc: Global,
    order: &[(RequestId, KeptCommand, Answer)],
) -> Result<Vec<u8>, NoMemory>
    ensures { IfOk result (λ text. text.items ≡ order_text order.now) }
{
    let mut text = String::new(alloc);
    writeln!(text, "order {}", order.len())?;
    for (id, command, answer) in order {
        writeln!(text, "{id} {} -> {answer}", **command)?;
    }
    Ok(text.into_bytes())
}
