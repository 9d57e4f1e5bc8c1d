ghost use Rattle.std.specs.Prelude.{◌≡◌, Some, flat_map, string_bytes, IfOk};
ghost use Rattle.std.specs.Int.{w64, to_be_bytes};
ghost use Rattle.std.specs.Fmt.{WritesOnOk};
ghost use Rattle.curp_script.specs.Digits.{byte_text, hex};
ghost use Rattle.curp_script.specs.Nodes.{numbered_text};

use curp_base::NoMemory;
use curp_cmd::NodeKind;
use std::alloc::Global;
use std::fmt;

// Two lower-case hexadecimal digits for each byte.
pub(crate) fn hex_text(alloc: Global, bytes: &[u8]) -> Result<String, NoMemory>
    ensures { IfOk result (λ text. string_bytes text ≡ hex bytes.now) }
{
    format!(in alloc; "{}", Hex(bytes))
}

#[derive(Clone, Copy)]
struct Hex<'a>(&'a [u8]);

impl fmt::Display for Hex<'_> {
    ghost output = { λ shown. Some (hex shown.0.now) };

    fn fmt<W: fmt::Write>(&self, f: &mut fmt::Formatter<W>) -> fmt::Result {
        for byte in self.0 {
            write_byte(f, *byte)?;
        }
        Ok(())
    }
}

fn write_byte<W: fmt::Write>(f: &mut fmt::Formatter<W>, byte: u8) -> fmt::Result
    ensures { WritesOnOk W.write_str_gives f.old result (byte_text byte) f.new }
{
    write!(f, "{byte:02x}")
}

// The digits of a hash, the highest first.
pub(crate) fn hash_text(alloc: Global, hash: u64) -> Result<String, NoMemory>
    ensures { IfOk result (λ text. string_bytes text ≡ hex (to_be_bytes w64 hash)) }
{
    hex_text(alloc, &hash.to_be_bytes())
}

// The name of a node, as lines have it.
pub(crate) fn node_text(alloc: Global, kind: NodeKind, number: u32) -> Result<String, NoMemory>
    ensures { IfOk result (λ text. string_bytes text ≡ numbered_text kind number) }
{
    match kind {
        NodeKind::Manager => String::from_str(alloc, "G"),
        NodeKind::Client => format!(in alloc; "C{number}"),
        NodeKind::Master => format!(in alloc; "M{number}"),
        NodeKind::Backup => format!(in alloc; "B{number}"),
        NodeKind::Witness => format!(in alloc; "W{number}"),
    }
}
