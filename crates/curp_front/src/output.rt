ghost use Rattle.std.specs.Prelude.{◌≡◌, IfOk};
ghost use Rattle.curp_front.specs.Replies.{output_of, said_text, too_many_connections};

use crate::connection::Said;
use curp_base::{Items, NoMemory};
use curp_resp::{other_text, protocol_text, reply_text};
use std::alloc::Global;

/// What is told to who holds the connections.
#[derive(Drop)]
pub enum FrontOutput {
    /// These bytes are for the connection: one reply.
    Reply { connection: u64, bytes: Items<u8> },
    /// The connection ends here. Nothing more is told of it.
    Close { connection: u64 },
    /// More bytes of the connection may come: no whole request of it waits.
    More { connection: u64 },
}

/// The error for a connection that isn't taken, since there are as many as may be.
pub fn too_many_text() -> &'static [u8]
    ensures { result.now ≡ too_many_connections }
{
    b"-ERR too many connections\r\n"
}

impl FrontOutput {
    /// What is told of a connection.
    pub(crate) fn of(alloc: Global, connection: u64, said: &Said) -> Result<FrontOutput, NoMemory>
        ensures { IfOk result (λ output. output ≡ output_of connection said.now) }
    {
        match said {
            Said::More => Ok(FrontOutput::More { connection }),
            Said::Close => Ok(FrontOutput::Close { connection }),
            Said::Answer(_) | Said::Refused(_) | Said::Other(_) | Said::Protocol | Said::TooMuch =>
                Ok(FrontOutput::Reply {
                    connection,
                    bytes: Items::new(said.text(alloc)?),
                }),
        }
    }
}

impl Said {
    /// The reply, if it is one.
    fn text(&self, alloc: Global) -> Result<Vec<u8>, NoMemory>
        ensures { IfOk result (λ text. text.items ≡ said_text self.now) }
    {
        match self {
            Said::Answer(answer) => reply_text(alloc, answer),
            Said::Other(other) => other_text(alloc, other),
            Said::Refused(why) => Ok(Vec::from_slice(alloc, why.text())?),
            Said::Protocol => Ok(Vec::from_slice(alloc, protocol_text())?),
            Said::TooMuch => Ok(Vec::from_slice(alloc, b"-ERR too many bytes\r\n")?),
            Said::More | Said::Close => Ok(Vec::new(alloc)),
        }
    }
}
