// The kinds of step with the names in a line of each, and the kinds of command: what reading and printing share.
ghost use Rattle.std.specs.Prelude.{◌≡◌};
ghost use Rattle.curp_script.specs.Kinds.{header_names, kind_of, kind_text, names_of, verb_of};

use crate::FieldName;

/// The names of a header, in byte order.
pub fn header_names() -> &'static [FieldName]
    ensures { result.now ≡ header_names }
{
    &[
        FieldName::Clients,
        FieldName::F,
        FieldName::Fast,
        FieldName::Parts,
        FieldName::Protocol,
        FieldName::Sets,
        FieldName::Ways,
    ]
}

/// The kinds of step.
#[derive(Clone, Copy)]
pub enum Kind {
    Invoke,
    Deliver,
    Retry,
    Fetch,
    Sync,
    Collect,
    Recover,
    Replace,
    Migrate,
    Nudge,
    Expire,
    Stop,
}

impl Kind {
    pub(crate) fn from_text(text: &str) -> Option<Kind>
        ensures { result ≡ kind_of text.now }
    {
        match text {
            "invoke" => Some(Kind::Invoke),
            "deliver" => Some(Kind::Deliver),
            "retry" => Some(Kind::Retry),
            "fetch" => Some(Kind::Fetch),
            "sync" => Some(Kind::Sync),
            "collect" => Some(Kind::Collect),
            "recover" => Some(Kind::Recover),
            "replace" => Some(Kind::Replace),
            "migrate" => Some(Kind::Migrate),
            "nudge" => Some(Kind::Nudge),
            "expire" => Some(Kind::Expire),
            "stop" => Some(Kind::Stop),
            _ => None,
        }
    }

    /// What a line of this kind has under do.
    pub fn as_str(self) -> &'static str
        ensures { result.now ≡ kind_text self }
    {
        match self {
            Kind::Invoke => "invoke",
            Kind::Deliver => "deliver",
            Kind::Retry => "retry",
            Kind::Fetch => "fetch",
            Kind::Sync => "sync",
            Kind::Collect => "collect",
            Kind::Recover => "recover",
            Kind::Replace => "replace",
            Kind::Migrate => "migrate",
            Kind::Nudge => "nudge",
            Kind::Expire => "expire",
            Kind::Stop => "stop",
        }
    }

    /// The names in a line of this kind: do, and the others in byte order.
    pub fn names(self) -> &'static [FieldName]
        ensures { result.now ≡ names_of self }
    {
        match self {
            Kind::Invoke => &[FieldName::Do, FieldName::Client, FieldName::Cmd],
            Kind::Deliver => &[FieldName::Do, FieldName::Msg],
            Kind::Retry => &[FieldName::Do, FieldName::Client, FieldName::Seq],
            Kind::Fetch | Kind::Expire => &[FieldName::Do, FieldName::Client],
            Kind::Sync | Kind::Collect => &[FieldName::Do, FieldName::Master],
            Kind::Recover => &[
                FieldName::Do,
                FieldName::Backup,
                FieldName::Part,
                FieldName::Witness,
            ],
            Kind::Replace => &[
                FieldName::Do,
                FieldName::Kind,
                FieldName::Part,
                FieldName::Place,
            ],
            Kind::Migrate => &[FieldName::Do, FieldName::Hi, FieldName::Lo, FieldName::To],
            Kind::Nudge => &[FieldName::Do],
            Kind::Stop => &[FieldName::Do, FieldName::Node],
        }
    }
}

// The words that commands begin with.
#[derive(Clone, Copy)]
pub(crate) enum Verb {
    Get,
    Put,
    Delete,
    Incr,
    Append,
    CondPut,
    Multi,
}

impl Verb {
    pub(crate) fn from_text(text: &str) -> Option<Verb>
        ensures { result ≡ verb_of text.now }
    {
        match text {
            "get" => Some(Verb::Get),
            "put" => Some(Verb::Put),
            "delete" => Some(Verb::Delete),
            "incr" => Some(Verb::Incr),
            "append" => Some(Verb::Append),
            "condput" => Some(Verb::CondPut),
            "multi" => Some(Verb::Multi),
            _ => None,
        }
    }
}
