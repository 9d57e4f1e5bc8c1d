//! The words of the command line, and what they ask for.
//!
//! `read` is exact over `task_in`, both ways, running out of memory aside: it gives the task of the words, or says that they
//! are none. For `make`, `live` and `resp`, `clap`'s parser is one simple command with an argument for the word and one
//! for each option; `make` is tried first, then `live` where the words are none of `make`, and then `resp`. That each
//! takes exactly what `given_by` says with its options, with the same values, is proved once for any options, over what
//! the kit's port states of simple commands (`proofs/Walks.antt`, `proofs/Parses.antt`; `proofs/Tasks.antt` has the
//! three words). `play`, alone or with `--history`, `check`, `manage`, empty words, `--`, and words that begin with one
//! hyphen are decided before the parser. `task_of` reads the words behind the program's name.
//!
//! `blame_of` gives what is wrong with words that are no command line as a value: the first word with which none can begin,
//! or that something is missing at the end. It prints as a line (`Blame`), or as a page for people who ask what the program
//! can do. `write_options` writes the line on the options that there are.
#![tactic(auto)]

mod arguments;
mod blame;
mod help;
mod live;
mod make;
mod options;
mod resp;
mod setting;
mod task;
mod words;
mod wrong_words;

pub use arguments::task_of;
pub use task::{LivePlan, MakePlan, Output, Report, RespOutput, RespPlan, Task, Usage};
pub use words::read;
pub use wrong_words::{Blame, blame_of, write_options};
