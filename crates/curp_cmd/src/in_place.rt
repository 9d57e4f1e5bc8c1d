ghost use Rattle.std.specs.Prelude.{◌≡◌, ◌<◌, ◌≤◌, length};
ghost use Rattle.curp_base.specs.Words.{AreBytes};
ghost use Rattle.curp_cmd.specs.InPlace.{padded};

/// The bytes at the prefix of an array, with zeros behind them.
pub(crate) fn hold<const N: usize>(bytes: &[u8]) -> [u8; N]
    requires { length bytes.now ≤ N }
    ensures held { result ≡ padded N bytes.now }
    ensures range { AreBytes result }
{
    let mut array = [0; N];
    array[..bytes.len()].copy_from_slice(bytes);
    array
}
