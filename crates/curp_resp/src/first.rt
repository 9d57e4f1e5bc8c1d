ghost use Rattle.std.specs.Prelude.{◌≡◌, length};
ghost use Rattle.curp_resp.specs.First.{IsFirst, first_in};

use crate::asked::Asked;
use crate::reading::{Progress, Reading};

/// What stands first among bytes of which more may come.
#[derive(Clone, Copy, PartialEq, Eq)]
pub enum FirstRequest {
    /// A request of so many bytes, by what it means.
    Whole { asked: Asked, len: usize },
    /// The bytes, if there are any, are a prefix of a request.
    Part,
    /// They are none, and begin with no request.
    Broken,
}

/// What stands first among bytes. It takes no memory.
pub fn first_request(bytes: &[u8]) -> FirstRequest
    ensures value { result ≡ first_in bytes.now }
    ensures stands { IsFirst bytes.now result }
{
    let mut reading = Reading::new();
    'reads: for at in 0..bytes.len() {
        match reading.take(bytes[at]) {
            Progress::More => {}
            Progress::Whole => {
                return FirstRequest::Whole {
                    asked: reading.meaning(),
                    len: at + 1,
                };
            }
            Progress::Refused => return FirstRequest::Broken,
        }
    }
    FirstRequest::Part
}
