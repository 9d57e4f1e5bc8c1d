use curp_cmd::NodeId;
use curp_msg::Header;
use curp_script::LineError;
use thiserror::Error;

/// What a run of the program is to do.
#[derive(Drop)]
pub enum CurpdTask<'a> {
    /// Make the journal of a node that has done nothing.
    Format(Seat<'a>),
    /// Run a node over the standard streams, with its journal.
    Node(Seat<'a>),
    /// The same of a client, with Redis' protocol in front.
    Front(Seat<'a>),
    /// Read journals, and print what their nodes did as one script.
    Gather {
        files: Vec<&'a str>,
        /// Only what has a stamp up to this.
        until: Option<u64>,
    },
}

/// A node of a cluster, and the file of its journal.
#[derive(Clone, Copy)]
pub struct Seat<'a> {
    pub node: NodeId,
    pub header: Header,
    pub journal: &'a str,
}

/// Why there is no task.
#[derive(Debug, Drop, Error)]
pub enum CurpdWordsError {
    /// The words are no command line, or ask for help: what is said to the user.
    #[error("{0}")]
    Words(clap::Error),
    #[error("no node has this name: names are G, C1, M1, B1, W1 and so on, with the numbers of the kind")]
    Name,
    #[error("only a client has connections in front of it")]
    NoClient,
    #[error("no header: {0}")]
    Header(LineError),
}
