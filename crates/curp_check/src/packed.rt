// Values that are kept as their encodings, each at a place among bytes.
ghost use Rattle.std.specs.Prelude.{◌≡◌, ◌++◌, length, IfOk, OnErr, OnOk};
ghost use Rattle.curp_check.specs.Packed.{StandsAt};

use curp_base::{NoMemory, past};
use curp_items::{Item, Reader, Writer};
use std::mem;

/// Puts the value's encoding behind the bytes, and tells where it begins.
pub(crate) fn pack<T: Item>(value: &T, bytes: &mut Vec<u8>) -> Result<usize, NoMemory>
    requires { T.HasEncoding value.now }
    ensures place { IfOk result (λ place. place ≡ length bytes.old.items) }
    ensures ok { OnOk result (bytes.new.items ≡ bytes.old.items ++ T.format.of value.now) }
    ensures fits { OnOk result (T.format.Fits value.now) }
    ensures err { OnErr result (bytes.new.items ≡ bytes.old.items) }
{
    let place = bytes.len();
    let nothing = Vec::new(*bytes.allocator());
    let mut writer = Writer::new(mem::replace(bytes, nothing));
    let written = value.write(&mut writer);
    *bytes = writer.into_vec();
    written?;
    Ok(place)
}

/// The value that stands at a place. It takes no memory.
pub(crate) fn unpack<T: Item>(bytes: &[u8], place: usize) -> T
    requires { (value : T) × StandsAt T.format bytes.now place value }
    ensures { StandsAt T.format bytes.now place result }
{
    match T::read(&mut Reader::new(past(bytes, place as u64))) {
        Ok(value) => value,
        Err(_) => unreachable!(),
    }
}
