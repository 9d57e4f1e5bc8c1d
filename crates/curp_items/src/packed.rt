ghost use Rattle.std.specs.Prelude.{◌≡◌, ◌≢◌, ◌++◌, ℕ, Ok, Err, Some, IfOk, IfSome, OnOk, OnErr};
ghost use Rattle.curp_cmd.specs.declared.entry.Entry.{Entry};
ghost use Rattle.curp_cmd.specs.declared.command.Request.{Request};
ghost use Rattle.curp_items.specs.declared.fault.Fault.{Fault};
ghost use Rattle.curp_items.specs.Items.{entry};
ghost use Rattle.curp_items.specs.Encoding.{HasEncoding, IsEntry, encoding, BeginsWithEntry, FaultsAt, request_in};

use crate::entry::{read_entry_at, skip_entry, write_entry};
use crate::{Fault, Item, Reader, Writer};
use curp_base::{Failed, NoMemory};
use curp_cmd::{Entry, Request};
use std::alloc::Global;
use std::mem;

/// Appends the entry's encoding.
pub fn pack_entry(entry: &Entry, out: &mut Vec<u8>) -> Result<(), NoMemory>
    requires { HasEncoding entry.now }
    ensures ok { OnOk result (out.new.items ≡ out.old.items ++ encoding entry.now) }
    ensures entry { OnOk result (IsEntry entry.now) }
    ensures err { OnErr result (out.new.items ≡ out.old.items) }
{
    let nothing = Vec::new(*out.allocator());
    let mut writer = Writer::new(mem::replace(out, nothing));
    let packed = write_entry(entry, &mut writer);
    *out = writer.into_vec();
    packed
}

/// The entry whose encoding the bytes begin with, and its length.
pub fn read_entry(alloc: Global, bytes: &[u8]) -> Result<(Entry, usize), Failed<Fault>>
    ensures found { IfOk result (λ read. BeginsWithEntry bytes.now read.0 read.1) }
    ensures only { (e : Entry) (len : ℕ) → BeginsWithEntry bytes.now e len
        → result ≢ Err Failed.NoMemory → result ≡ Ok (e, len) }
    ensures bad_entry { (fault : Fault) → result ≡ Err (Failed.Because fault) → FaultsAt bytes.now fault.place }
{
    let mut reader = Reader::new(bytes);
    let entry = read_entry_at(alloc, &mut reader)?;
    Ok((entry, reader.place() as usize))
}

/// The length of the entry whose encoding the bytes begin with. It takes no memory.
pub fn encoded(bytes: &[u8]) -> Option<u64>
    ensures found { IfSome result (λ len. (e : Entry) × BeginsWithEntry bytes.now e len) }
    ensures only { (e : Entry) (len : ℕ) → BeginsWithEntry bytes.now e len → result ≡ Some len }
{
    let mut reader = Reader::new(bytes);
    match skip_entry(&mut reader) {
        Ok(()) => Some(reader.place()),
        Err(_) => None,
    }
}

/// The request of the entry whose encoding the bytes begin with, where it has one. It takes no memory.
pub fn read_request(bytes: &[u8]) -> Option<Request>
    ensures found { IfSome result (λ request. (acknowledge len : ℕ)
        × BeginsWithEntry bytes.now (Entry.Op request acknowledge) len) }
    ensures only { (request : Request) (acknowledge len : ℕ)
        → BeginsWithEntry bytes.now (Entry.Op request acknowledge) len → result ≡ Some request }
{
    op_at(&mut Reader::new(bytes))
}

/// Reads an entry's request, where it has one.
#[tactic(auto, unfolding(crate::specs::Items::entry))]
fn op_at(reader: &mut Reader) -> Option<Request>
    ensures { result ≡ request_in (entry.read reader.old) }
{
    match reader.byte() {
        Ok(1) => {
            let (request, _) = <(Request, u32)>::read(reader).ok()?;
            Some(request)
        }
        _ => None,
    }
}
