ghost use Rattle.std.specs.Prelude.{◌≡◌};
ghost use Rattle.curp_script.specs.Text.{field_text};

use std::error::Error;
use std::fmt;

/// Why a line is refused.
#[derive(Clone, Copy, Debug, PartialEq, Eq)]
pub enum LineError {
    /// The line is no JSON object.
    BadJson,
    /// The name is absent, or its value is of another type or out of its range.
    BadField { name: FieldName },
}

/// A name that a line may have. `Other` stands for every name that the line's kind doesn't have.
#[derive(Clone, Copy, Debug, PartialEq, Eq)]
pub enum FieldName {
    Ans,
    Backup,
    Call,
    Client,
    Clients,
    Cmd,
    Do,
    Epoch,
    Ev,
    F,
    Fast,
    Hi,
    Id,
    Kept,
    Kind,
    Lo,
    Master,
    Msg,
    Node,
    Other,
    Part,
    Parts,
    Place,
    Protocol,
    Seq,
    Sets,
    To,
    Ways,
    Witness,
}

impl FieldName {
    /// The name as lines have it.
    pub fn as_str(self) -> &'static str
        ensures { result.now ≡ field_text self }
    {
        match self {
            FieldName::Ans => "ans",
            FieldName::Backup => "backup",
            FieldName::Call => "call",
            FieldName::Client => "client",
            FieldName::Clients => "clients",
            FieldName::Cmd => "cmd",
            FieldName::Do => "do",
            FieldName::Epoch => "epoch",
            FieldName::Ev => "ev",
            FieldName::F => "f",
            FieldName::Fast => "fast",
            FieldName::Hi => "hi",
            FieldName::Id => "id",
            FieldName::Kept => "kept",
            FieldName::Kind => "kind",
            FieldName::Lo => "lo",
            FieldName::Master => "master",
            FieldName::Msg => "msg",
            FieldName::Node => "node",
            FieldName::Other => "other",
            FieldName::Part => "part",
            FieldName::Parts => "parts",
            FieldName::Place => "place",
            FieldName::Protocol => "protocol",
            FieldName::Seq => "seq",
            FieldName::Sets => "sets",
            FieldName::To => "to",
            FieldName::Ways => "ways",
            FieldName::Witness => "witness",
        }
    }
}

impl fmt::Display for LineError {
    ghost use Rattle.std.specs.Prelude.{Some};
    ghost use Rattle.curp_script.specs.Text.{reason_text};

    ghost output = { λ reason. Some (reason_text reason) };

    fn fmt<W: fmt::Write>(&self, f: &mut fmt::Formatter<W>) -> fmt::Result {
        match self {
            LineError::BadJson => f.write_str("bad json"),
            LineError::BadField { name } => write!(f, "bad field {name}"),
        }
    }
}

impl Error for LineError {}

impl fmt::Display for FieldName {
    ghost use Rattle.std.specs.Prelude.{Some};
    ghost use Rattle.curp_script.specs.Text.{field_text};

    ghost output = { λ name. Some (field_text name) };

    fn fmt<W: fmt::Write>(&self, f: &mut fmt::Formatter<W>) -> fmt::Result {
        f.write_str(self.as_str())
    }
}
