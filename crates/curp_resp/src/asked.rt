use curp_cmd::{Command, Value};

/// What a request means.
#[derive(Clone, Copy, PartialEq, Eq)]
pub enum Asked {
    Command(Command),
    /// It means no command. Its reply hangs on nothing else.
    Other(Other),
}

/// What a request means that means no command.
#[derive(Clone, Copy, PartialEq, Eq)]
pub enum Other {
    /// It has no arguments, as an empty line, and gets no reply.
    Nothing,
    /// These bytes are the reply.
    Echo(Value),
    /// It is wrong, for the first of these reasons that holds.
    Wrong(Wrong),
}

/// Why a request is wrong.
#[derive(Clone, Copy, Debug, PartialEq, Eq)]
pub enum Wrong {
    /// Its first argument is no word of the table.
    Unknown,
    /// The word takes another number of arguments.
    Arguments,
    /// A key doesn't have 1 to 32 bytes, or a value has more than 128.
    Size,
    /// A key stands twice among the pairs of an MSET.
    KeyTwice,
    /// What a counter is to grow by is no integer of 64 bits.
    NotInteger,
    /// It is one, but not 1.
    NotOne,
}
