//! What a batch leads to, before it is kept.
ghost use Rattle.std.specs.Prelude.{◌≡◌, ◌+◌, ◌<◌, ◌≤◌, ◌^◌, ◌∷◌, ◌++◌, [], length, true, false, IfOk, IfErr, OnOk};
ghost use Rattle.curp_durable.specs.Answering.{Decides, Declines, IsRecord, Stops};
ghost use Rattle.curp_durable.specs.Journal.{HasEncoding, behind_length};
ghost use Rattle.curp_durable.specs.Standing.{after, made_inputs, taken};

use crate::error::{DurableError, durable_error};
use crate::stand::{Answered, Stand, count_made, made_inputs};
use curp_base::{Failed, NoMemory};
use curp_batches::encode;
use curp_journal::Arrived;
use curp_msg::Core;
use std::alloc::Global;

/// What a batch leads to: the record of those that were taken, empty where none was, and what is answered.
#[derive(Drop)]
pub(crate) struct Decided {
    pub piece: Vec<u8>,
    pub answers: Vec<Answered>,
}

/// Why nothing is decided.
#[derive(Clone, Copy, Debug, PartialEq, Eq)]
pub(crate) enum Undecided {
    /// Before the node was asked.
    Unchanged(Failed<DurableError>),
    /// Memory ran out once it was asked.
    Moved,
}

/// Whether four bytes tell the length.
fn is_short(bytes: &[u8]) -> bool
    ensures yes { result ≡ true → length bytes.now < 2 ^ 32 }
    ensures no { result ≡ false → 2 ^ 32 ≤ length bytes.now }
{
    bytes.len() <= u32::MAX as usize
}

/// Whether there is room behind a commit byte for the record of so many bytes.
fn has_room(commit: u64, size_limit: u64, length: usize) -> bool
    ensures yes { result ≡ true → commit + 6 + length ≤ size_limit }
    ensures no { result ≡ false → size_limit < commit + 6 + length }
{
    commit <= size_limit
        && length as u64 <= size_limit - commit
        && size_limit - commit - length as u64 >= 6
}

/// Bytes behind their length, and a shut commit byte.
fn piece_of(alloc: Global, bytes: &[u8]) -> Result<Vec<u8>, NoMemory>
    requires { length bytes.now < 2 ^ 32 }
    ensures { IfOk result (λ piece. piece.items ≡ behind_length bytes.now ++ 0 ∷ []) }
{
    let mut piece = Vec::from_slice(alloc, &(bytes.len() as u32).to_be_bytes())?;
    piece.extend_from_slice(bytes)?;
    piece.push(0)?;
    Ok(piece)
}

/// The record of a batch, if a journal takes it and there is room behind the commit byte.
#[tactic(auto, using(crate::proofs::Pieces::encoded, crate::proofs::Pieces::full, crate::proofs::Pieces::none_of_one, crate::proofs::Pieces::record_is, crate::proofs::Pieces::too_long))]
fn record_of(
    alloc: Global,
    commit: u64,
    size_limit: u64,
    inputs: &[Arrived],
) -> Result<Vec<u8>, Failed<DurableError>>
    ensures ok { IfOk result (λ piece. IsRecord commit size_limit inputs.now piece.items) }
    ensures err { IfErr result (Declines commit size_limit inputs.now) }
{
    let bytes = encode(alloc, inputs).map_err(durable_error)?;
    if !is_short(&bytes) {
        return Err(Failed::Because(DurableError::NoEncoding));
    }
    if !has_room(commit, size_limit, bytes.len()) {
        return Err(Failed::Because(DurableError::Full));
    }
    Ok(piece_of(alloc, &bytes)?)
}

/// Encodes a batch, sees that there is room for it, and gives it to the node.
pub(crate) fn decide<N: Core>(
    alloc: Global,
    stand: &mut Stand<N>,
    commit: u64,
    size_limit: u64,
    inputs: Vec<Arrived>,
) -> Result<Decided, Undecided>
    ensures decides { IfOk result (λ d. Decides N.machine stand.old commit size_limit inputs.items d.piece.items
        d.answers.items) }
    ensures nothing { IfOk result (λ d. taken N.machine stand.old inputs.items ≡ [] → d.piece.items ≡ []) }
    ensures state { OnOk result (stand.new ≡ after N.machine stand.old inputs.items) }
    ensures encoded { OnOk result (HasEncoding inputs.items) }
    ensures stops { IfErr result (Stops stand.old stand.new commit size_limit inputs.items) }
{
    let piece = match record_of(alloc, commit, size_limit, &inputs) {
        Ok(piece) => piece,
        Err(why) => return Err(Undecided::Unchanged(why)),
    };
    let count = inputs.len();
    let Ok(answers) = stand.step_all(alloc, inputs) else {
        return Err(Undecided::Moved);
    };
    let made = count_made(&answers);
    if made == 0 {
        let piece = Vec::new(alloc);
        return Ok(Decided { piece, answers });
    }
    if made == count {
        return Ok(Decided { piece, answers });
    }
    match record_again(alloc, commit, size_limit, &answers) {
        Ok(piece) => Ok(Decided { piece, answers }),
        Err(_) => Err(Undecided::Moved),
    }
}

/// The record of those that were made.
fn record_again(
    alloc: Global,
    commit: u64,
    size_limit: u64,
    answers: &[Answered],
) -> Result<Vec<u8>, Failed<DurableError>>
    ensures { IfOk result (λ piece. IsRecord commit size_limit (made_inputs answers.now) piece.items) }
{
    let inputs = made_inputs(alloc, answers)?;
    record_of(alloc, commit, size_limit, &inputs)
}
