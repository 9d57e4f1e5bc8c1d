//! A journal is read from its start on, or from a commit byte on.
ghost use Rattle.std.specs.Prelude.{◌≡◌, ◌≢◌, ◌+◌, ◌-◌, ◌^◌, ◌<◌, ◌≤◌, List, ℕ, true, false, length, drop, IfOk, IfErr, OnOk};
ghost use Rattle.curp_disk.specs.Disk.{Only};
ghost use Rattle.curp_io.specs.Streams.{Rose};
ghost use Rattle.curp_durable.specs.Appending.{Quiet};
ghost use Rattle.curp_durable.specs.Journal.{HoldsJournal, IsNotFormatted};
ghost use Rattle.curp_durable.specs.Opening.{FindsBatch, FindsNext, FindsNot, FindsPiece, IsOfTheMoment, IsOpened, OpensNot, StartsJournal};
ghost use Rattle.curp_durable.specs.Opening.{WalkedBy, WalkedFrom, error_at};

use crate::error::OpenError;
use crate::stand::Stand;
use curp_base::Failed;
use curp_batches::batch_in;
use curp_disk::{Did, Disk, Long};
use curp_journal::Arrived;
use curp_msg::Core;
use std::alloc::Global;

/// A batch behind an open commit byte, and where the next commit byte stands.
#[derive(Drop)]
pub(crate) struct FoundBatch {
    batch: Vec<Arrived>,
    behind: usize,
}

/// What stands at a commit byte.
#[derive(Clone, Copy, Debug, PartialEq, Eq)]
pub(crate) enum AtCommit {
    Shut,
    /// An open commit byte, with a length behind it, and so many bytes and more.
    Piece { length: usize },
    /// An open commit byte with too few bytes behind it.
    Cut,
}

/// What stands at the start of bytes, of which the first is a commit byte.
fn next_in(bytes: &[u8]) -> AtCommit
    requires { 0 < length bytes.now }
    ensures { FindsNext bytes.now result }
{
    match bytes {
        [1, a, b, c, d, rest @ ..] => {
            let length = u32::from_be_bytes([*a, *b, *c, *d]) as usize;
            if length < rest.len() {
                AtCommit::Piece { length }
            } else {
                AtCommit::Cut
            }
        }
        [1, ..] => AtCommit::Cut,
        _ => AtCommit::Shut,
    }
}

/// The batch behind a commit byte; none behind a shut commit byte.
fn batch_at(
    alloc: Global,
    content: &[u8],
    commit: usize,
) -> Result<Option<FoundBatch>, Failed<OpenError>>
    requires within { commit < length content.now }
    ensures ok { IfOk result (FindsBatch content.now commit) }
    ensures err { IfErr result (FindsNot content.now commit) }
    ensures no_fault { IfErr result (λ e. e ≢ Failed.Because OpenError.DiskFault) }
{
    let bytes = &content[commit..];
    match next_in(bytes) {
        AtCommit::Shut => Ok(None),
        AtCommit::Cut => Err(Failed::Because(OpenError::Damaged {
            place: commit as u64,
        })),
        AtCommit::Piece { length } => piece_at(alloc, content, commit, length),
    }
}

/// The batch whose encoding the so many bytes behind a commit byte and their length are.
fn piece_at(
    alloc: Global,
    content: &[u8],
    commit: usize,
    len: usize,
) -> Result<Option<FoundBatch>, Failed<OpenError>>
    requires finds { FindsPiece (drop commit content.now) len }
    requires within { commit + 5 + len < length content.now }
    ensures ok { IfOk result (FindsBatch content.now commit) }
    ensures err { IfErr result (FindsNot content.now commit) }
    ensures no_fault { IfErr result (λ e. e ≢ Failed.Because OpenError.DiskFault) }
{
    let start = commit + 5;
    let behind = start + len;
    let Ok(read) = batch_in(alloc, &content[start..behind]) else {
        return Err(Failed::NoMemory);
    };
    match read {
        Some(batch) => Ok(Some(FoundBatch { batch, behind })),
        None => Err(Failed::Because(OpenError::Damaged {
            place: commit as u64,
        })),
    }
}

/// The same cause, at another place.
fn error_at(error: Failed<OpenError>, place: u64) -> Failed<OpenError>
    ensures { result ≡ error_at place error }
{
    match error {
        Failed::Because(OpenError::Damaged { place: _ }) => {
            Failed::Because(OpenError::Damaged { place })
        }
        other => other,
    }
}

/// Walks along the journal from a commit byte on, and gives the node what stands there. The bytes are those from the
/// place `base` on, and the commit byte is the one at `first` among them.
fn walk<N: Core + Drop>(
    alloc: Global,
    bytes: &[u8],
    base: u64,
    first: usize,
    mut stand: Stand<N>,
) -> Result<(Stand<N>, u64), Failed<OpenError>>
    requires within { first < length bytes.now }
    requires fits { base + length bytes.now < 2 ^ 64 }
    ensures ok { (content title : List ℕ) (opening : N)
        → WalkedFrom N.machine bytes.now base first stand content title opening
        → IfOk result (λ r. IsOpened N.machine content title opening r.1 r.0) }
    ensures within { IfOk result (λ r. r.1 < base + length bytes.now) }
    ensures err { (content title : List ℕ) (opening : N)
        → WalkedFrom N.machine bytes.now base first stand content title opening
        → IfErr result (OpensNot content title) }
    ensures no_fault { IfErr result (λ e. e ≢ Failed.Because OpenError.DiskFault) }
{
    let mut at = first;
    'commits: loop {
        let place = base + at as u64;
        match batch_at(alloc, bytes, at) {
            Ok(Some(found)) => {
                let behind = found.behind;
                match stand.step_all(alloc, found.batch) {
                    Ok(_) => at = behind,
                    Err(_) => return Err(Failed::NoMemory),
                }
            }
            Ok(None) => return Ok((stand, place)),
            Err(error) => return Err(error_at(error, place)),
        }
    }
}

/// Gives the node what stands in these bytes, which are those from a commit byte on, up to which all led it to where it
/// stands; also says where the last commit byte stands.
fn go_on<N: Core + Drop>(
    alloc: Global,
    bytes: &[u8],
    commit: u64,
    stand: Stand<N>,
) -> Result<(Stand<N>, u64), Failed<OpenError>>
    requires fits { commit + length bytes.now < 2 ^ 64 }
    ensures ok { (content title : List ℕ) (opening : N)
        → WalkedFrom N.machine bytes.now commit 0 stand content title opening
        → IfOk result (λ r. IsOpened N.machine content title opening r.1 r.0) }
    ensures within { IfOk result (λ r. r.1 + 1 < 2 ^ 64) }
    ensures err { (content title : List ℕ) (opening : N)
        → WalkedFrom N.machine bytes.now commit 0 stand content title opening
        → IfErr result (OpensNot content title) }
    ensures no_fault { IfErr result (λ e. e ≢ Failed.Because OpenError.DiskFault) }
{
    if bytes.is_empty() {
        return Err(Failed::Because(OpenError::NotFormatted));
    }
    walk(alloc, bytes, commit, 0, stand)
}

/// Reads the journal of a title and gives its inputs to a fresh node; also says where the last commit byte stands.
pub(crate) fn replay<N: Core + Drop>(
    alloc: Global,
    content: &[u8],
    title: &[u8],
    node: N,
) -> Result<(Stand<N>, u64), Failed<OpenError>>
    ensures ok { IfOk result (λ r. IsOpened N.machine content.now title.now node r.1 r.0) }
    ensures within { IfOk result (λ r. r.1 < length content.now) }
    ensures err { IfErr result (OpensNot content.now title.now) }
    ensures no_fault { IfErr result (λ e. e ≢ Failed.Because OpenError.DiskFault) }
{
    if starts(content, title) {
        walk(alloc, content, 0, title.len(), Stand::begin(node))
    } else {
        Err(Failed::Because(OpenError::NotFormatted))
    }
}

/// Walks along the journal from its first commit byte on, and collects what stands there.
fn collect(alloc: Global, content: &[u8], title: &[u8]) -> Result<Vec<Arrived>, Failed<OpenError>>
    requires starts { StartsJournal content.now title.now }
    ensures ok { IfOk result (λ inputs. HoldsJournal content.now title.now inputs.items) }
    ensures err { IfErr result (OpensNot content.now title.now) }
    ensures no_fault { IfErr result (λ e. e ≢ Failed.Because OpenError.DiskFault) }
{
    let mut inputs = Vec::new(alloc);
    let mut commit = title.len();
    'commits: loop {
        match batch_at(alloc, content, commit)? {
            Some(found) => {
                commit = found.behind;
                let mut batch = found.batch;
                inputs.append(&mut batch)?;
            }
            None => return Ok(inputs),
        }
    }
}

/// The inputs of the journal of a title, which these bytes begin with. It takes memory for the inputs. Bytes that were read
/// of a file to which a node still writes are a journal too, of the inputs up to a commit byte that wasn't open yet.
pub fn inputs_in(
    alloc: Global,
    content: &[u8],
    title: &[u8],
) -> Result<Vec<Arrived>, Failed<OpenError>>
    ensures ok { IfOk result (λ inputs. HoldsJournal content.now title.now inputs.items) }
    ensures err { IfErr result (OpensNot content.now title.now) }
    ensures no_fault { IfErr result (λ e. e ≢ Failed.Because OpenError.DiskFault) }
{
    if starts(content, title) {
        collect(alloc, content, title)
    } else {
        Err(Failed::Because(OpenError::NotFormatted))
    }
}

/// Whether the title stands at the start, and a commit byte behind it.
#[tactic(auto, using(crate::proofs::Walking::title_there, crate::proofs::Walking::title_other, crate::proofs::Walking::title_short))]
fn starts(content: &[u8], title: &[u8]) -> bool
    ensures yes { result ≡ true → StartsJournal content.now title.now }
    ensures no { result ≡ false → IsNotFormatted content.now title.now }
{
    if content.len() <= title.len() {
        return false;
    }
    is_same(&content[..title.len()], title)
}

fn is_same(one: &[u8], other: &[u8]) -> bool
    ensures yes { result ≡ true → one.now ≡ other.now }
    ensures no { result ≡ false → one.now ≢ other.now }
{
    one == other
}

/// Syncs, so that what is read is what a crash leaves, and says how many bytes there are.
fn make_ready<D: Disk>(disk: &mut D) -> Result<u64, Failed<OpenError>>
    ensures quiet { Quiet D.seen D.may_leave D.moment D.left_since disk.old disk.new }
    ensures durable { D.tells ≡ true → OnOk result (Only (D.seen disk.new) (D.may_leave disk.new)) }
    ensures size { D.tells ≡ true → IfOk result (λ size. size ≡ length (D.seen disk.old)) }
    ensures err { IfErr result IsOfTheMoment }
    ensures sound { D.sound disk.old → (result ≢ Err (Failed.Because OpenError.DiskFault)) × D.sound disk.new }
    ensures cause { result ≡ Err (Failed.Because OpenError.DiskFault) → Rose (D.faults disk.old) (D.faults disk.new) }
    ensures never_falls { D.faults disk.old ≤ D.faults disk.new }
{
    match disk.sync() {
        Did::Done(_) => match disk.length() {
            Long::Bytes(size) => Ok(size),
            Long::Failed => Err(Failed::Because(OpenError::DiskFault)),
        },
        Did::Failed => Err(Failed::Because(OpenError::DiskFault)),
        Did::NoMemory => Err(Failed::NoMemory),
    }
}

/// The bytes from a place on, of so many, or as many as there are.
fn bytes_from<D: Disk>(
    alloc: Global,
    disk: &mut D,
    at: u64,
    size: u64,
) -> Result<Vec<u8>, Failed<OpenError>>
    requires size { D.tells ≡ true → size ≡ length (D.seen disk.old) }
    ensures quiet { Quiet D.seen D.may_leave D.moment D.left_since disk.old disk.new }
    ensures bytes { D.tells ≡ true → IfOk result (λ bytes. bytes.items ≡ drop at (D.seen disk.old)) }
    ensures short { IfOk result (λ bytes. length bytes.items ≤ size - at) }
    ensures err { IfErr result IsOfTheMoment }
    ensures sound { D.sound disk.old → (result ≢ Err (Failed.Because OpenError.DiskFault)) × D.sound disk.new }
    ensures cause { result ≡ Err (Failed.Because OpenError.DiskFault) → Rose (D.faults disk.old) (D.faults disk.new) }
    ensures never_falls { D.faults disk.old ≤ D.faults disk.new }
{
    let mut bytes = match vec![in alloc; 0; size.saturating_sub(at) as usize] {
        Ok(bytes) => bytes,
        Err(_) => return Err(Failed::NoMemory),
    };
    match disk.read(at, &mut bytes) {
        Did::Done(count) => {
            bytes.truncate(count);
            Ok(bytes)
        }
        Did::Failed => Err(Failed::Because(OpenError::DiskFault)),
        Did::NoMemory => Err(Failed::NoMemory),
    }
}

/// The bytes of a disk from a place on. It is synced first.
fn contents_from<D: Disk>(
    alloc: Global,
    disk: &mut D,
    at: u64,
) -> Result<Vec<u8>, Failed<OpenError>>
    ensures quiet { Quiet D.seen D.may_leave D.moment D.left_since disk.old disk.new }
    ensures bytes { D.tells ≡ true → IfOk result (λ bytes. bytes.items ≡ drop at (D.seen disk.old)) }
    ensures fits { IfOk result (λ bytes. at + length bytes.items < 2 ^ 64) }
    ensures durable { D.tells ≡ true → OnOk result (Only (D.seen disk.new) (D.may_leave disk.new)) }
    ensures err { IfErr result IsOfTheMoment }
    ensures sound { D.sound disk.old → (result ≢ Err (Failed.Because OpenError.DiskFault)) × D.sound disk.new }
    ensures cause { result ≡ Err (Failed.Because OpenError.DiskFault) → Rose (D.faults disk.old) (D.faults disk.new) }
    ensures never_falls { D.faults disk.old ≤ D.faults disk.new }
{
    let size = make_ready(disk)?;
    bytes_from(alloc, disk, at, size)
}

/// Reads the journal on a disk and gives its inputs to a fresh node; also says where the last commit byte stands.
pub(crate) fn recover<N: Core + Drop, D: Disk>(
    alloc: Global,
    disk: &mut D,
    title: &[u8],
    node: N,
) -> Result<(Stand<N>, u64), Failed<OpenError>>
    ensures quiet { Quiet D.seen D.may_leave D.moment D.left_since disk.old disk.new }
    ensures ok { D.tells ≡ true → IfOk result (λ r. IsOpened N.machine (D.seen disk.old) title.now node r.1 r.0) }
    ensures within { IfOk result (λ r. r.1 < 2 ^ 63) }
    ensures durable { D.tells ≡ true → OnOk result (Only (D.seen disk.new) (D.may_leave disk.new)) }
    ensures err { D.tells ≡ true → IfErr result (OpensNot (D.seen disk.old) title.now) }
    ensures sound { D.sound disk.old → IfErr result (λ e. e ≢ Failed.Because OpenError.DiskFault) × D.sound disk.new }
    ensures cause { IfErr result (λ e. e ≡ Failed.Because OpenError.DiskFault → Rose (D.faults disk.old) (D.faults disk.new)) }
    ensures never_falls { D.faults disk.old ≤ D.faults disk.new }
{
    match contents_from(alloc, disk, 0) {
        Ok(content) => replay(alloc, &content, title, node),
        Err(error) => Err(error),
    }
}

/// Reads what stands on a disk from a commit byte on, up to which its bytes led the node to where it stands, and gives
/// that to the node; also says where the last commit byte stands.
pub(crate) fn resume<N: Core + Drop, D: Disk>(
    alloc: Global,
    disk: &mut D,
    commit: u64,
    stand: Stand<N>,
) -> Result<(Stand<N>, u64), Failed<OpenError>>
    ensures quiet { Quiet D.seen D.may_leave D.moment D.left_since disk.old disk.new }
    ensures ok { (title : List ℕ) (opening : N) → D.tells ≡ true
        → WalkedBy N.machine (D.seen disk.old) title opening commit stand
        → IfOk result (λ r. IsOpened N.machine (D.seen disk.old) title opening r.1 r.0) }
    ensures within { IfOk result (λ r. r.1 + 1 < 2 ^ 64) }
    ensures durable { D.tells ≡ true → OnOk result (Only (D.seen disk.new) (D.may_leave disk.new)) }
    ensures err { (title : List ℕ) (opening : N) → D.tells ≡ true
        → WalkedBy N.machine (D.seen disk.old) title opening commit stand
        → IfErr result (OpensNot (D.seen disk.old) title) }
    ensures sound { D.sound disk.old → IfErr result (λ e. e ≢ Failed.Because OpenError.DiskFault) × D.sound disk.new }
    ensures cause { IfErr result (λ e. e ≡ Failed.Because OpenError.DiskFault → Rose (D.faults disk.old) (D.faults disk.new)) }
    ensures never_falls { D.faults disk.old ≤ D.faults disk.new }
{
    match contents_from(alloc, disk, commit) {
        Ok(bytes) => go_on(alloc, &bytes, commit, stand),
        Err(error) => Err(error),
    }
}

/// Reads the inputs of the journal of a title, on a disk that is synced before. It takes memory for the journal's bytes
/// and for its inputs. Nothing is written.
pub fn read_inputs<D: Disk>(
    alloc: Global,
    disk: &mut D,
    title: &[u8],
) -> Result<Vec<Arrived>, Failed<OpenError>>
    ensures ok { D.tells ≡ true → IfOk result (λ inputs. HoldsJournal (D.seen disk.old) title.now inputs.items) }
    ensures quiet { Quiet D.seen D.may_leave D.moment D.left_since disk.old disk.new }
    ensures err { D.tells ≡ true → IfErr result (OpensNot (D.seen disk.old) title.now) }
    ensures sound { D.sound disk.old → (result ≢ Err (Failed.Because OpenError.DiskFault)) × D.sound disk.new }
    ensures cause { result ≡ Err (Failed.Because OpenError.DiskFault) → Rose (D.faults disk.old) (D.faults disk.new) }
    ensures never_falls { D.faults disk.old ≤ D.faults disk.new }
{
    let content = contents_from(alloc, disk, 0)?;
    inputs_in(alloc, &content, title)
}
