ghost use Rattle.std.specs.Prelude.{◌≡◌, ◌⊎◌, Some, None, Err, IfOk};
ghost use Rattle.clap.specs.Walk.{texts};
ghost use Rattle.curp_words.specs.Arguments.{asked, words_of};
ghost use Rattle.curp_words.specs.Plan.{fits};

use crate::task::{Task, Usage};
use crate::words::read;
use curp_base::{Failed, NoMemory, past};
use std::alloc::Global;

/// The words behind the program's name, which is the first argument.
pub(crate) fn words_in(alloc: Global, arguments: &[String]) -> Result<Vec<&str>, NoMemory>
    ensures { IfOk result (λ words. texts words.items ≡ words_of arguments.now) }
{
    let mut words = Vec::new(alloc);
    let behind = past(arguments, 1);
    for argument in behind {
        words.push(argument.as_str())?;
    }
    Ok(words)
}

/// What the arguments of the program ask for, as `read` has it of the words behind the program's name.
pub fn task_of(alloc: Global, arguments: &[String]) -> Result<Task, Failed<Usage>>
    ensures task { IfOk result (λ task. asked arguments.now ≡ Some task) }
    ensures usage { result ≡ Err (Failed.Because (record {})) → asked arguments.now ≡ None }
    ensures no_task { asked arguments.now ≡ None
        → (result ≡ Err (Failed.Because (record {}))) ⊎ (result ≡ Err Failed.NoMemory) }
    ensures in_range { IfOk result fits }
{
    let words = words_in(alloc, arguments)?;
    read(alloc, &words)
}
