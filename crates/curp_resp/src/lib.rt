//! Redis' protocol: requests taken apart from bytes, what they mean, and the replies.
//!
//! A request is `*n\r\n` and `n` bulk strings `$len\r\nbytes\r\n`. The first of them is the word, each letter in either
//! case. One of no arguments, `*0\r\n`, asks nothing and gets no reply; so do `*-1\r\n` and an empty line, `\r\n` or
//! `\n`, which may stand where a request may begin.
//!
//! The words:
//!
//! | request | command | reply |
//! |---|---|---|
//! | `GET k` | get | `$len\r\nbytes\r\n`, or `$-1\r\n` for none |
//! | `SET k v` | put | `+OK\r\n` |
//! | `DEL k` | delete | `:1\r\n` or `:0\r\n` |
//! | `INCR k`, `INCRBY k 1` | increment | `:n\r\n`, above 2^63 - 1 a bulk string of the digits |
//! | `APPEND k v` | append | `:length\r\n` |
//! | `CONDPUT k e v` | conditional put that expects e | `:1\r\n` or `:0\r\n` |
//! | `CONDNEW k v`, `SETNX k v` | conditional put that expects no value | `:1\r\n` or `:0\r\n` |
//! | `MSET k v ..` | multi-put of 1 to 4 pairs | `+OK\r\n` |
//! | `ECHO text` | none | `$len\r\ntext\r\n`, the text of 0 to 128 bytes |
//!
//! The words, their meaning and the bounds are this project's own.
//!
//! - `Requests::next_request`, clause `bytes`: it gives the requests of the bytes in order by their meaning
//!   (`meaning`), whatever the sizes of the pieces in which the source gives them; `asked`, `end`, `bad_request`: each
//!   answer comes exactly where it is due, a bad request at exactly the place where the bytes break off (`BreaksOff`);
//!   `waits`: nothing is read while a whole request is read ahead, which `has_request` tells. `repeats`: after a fault
//!   or a bad request it answers the same for ever. `cause` and `told` are those of a source.
//! - `first_request`: the same of bytes that stand in memory, of which more may come (`IsFirst`).
//! - `reply_text`, `other_text`, `wrong_text`, `protocol_text`: exact (`reply_of`, `other_of`, `wrong_of`,
//!   `protocol_error`).
//! - `laws`: no request begins another, an input is requests and a rest in exactly one way, and that rest is empty or
//!   breaks off at exactly one place.
#![tactic(auto)]

mod argument;
mod arguments;
mod asked;
mod command;
mod first;
mod frame;
mod integer;
pub mod laws;
mod number;
mod reading;
mod reply;
mod requests;
mod window;
mod word;

pub use asked::{Asked, Other, Wrong};
pub use first::{FirstRequest, first_request};
pub use reply::{other_text, protocol_text, reply_text, wrong_text};
pub use requests::{NextRequest, Requests};
