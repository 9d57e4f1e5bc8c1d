//! A session of Redis' protocol that a cluster answers: requests in, replies out, or the script of the steps that the
//! cluster made for them.
//!
//! `answer_requests`: exact over `Session.antt`, which one reads to believe it. Each limit and each bad request is told
//! exactly where it is met. `at_fault`, `passed_on`: where reading fails, the replies to all whole requests that were
//! taken are written, and were passed on before the source was asked. `plays`: a script that is written is read whole.
//! `laws`: the replies are those of one thread's store to the same requests, and the run of the script completes each
//! command with the answer that its reply shows.
//!
//! `Answering.antt` has where a session stands between two requests, for the private functions alone. Of `proofs`,
//! `Texts` has what one request more adds to what is written, `Standing` where it leads, `Taken` what was answered of the
//! bytes that were taken, `OneThread` the laws by induction over the requests, and `Naming` that each command that a
//! request means names a key.
#![tactic(auto)]

pub mod laws;
mod session;

pub use session::answer_requests;
