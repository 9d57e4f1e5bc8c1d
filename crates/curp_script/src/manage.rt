// The lines of orders for a manager whose journal is kept, and their kinds.
ghost use Rattle.std.specs.Prelude.{◌≡◌};
ghost use Rattle.curp_script.specs.ManageKinds.{manage_kind_of, manage_names};

use crate::FieldName;
use curp_msg::Local;

/// What a line says to `manage`, behind the header.
pub enum ManageLine {
    /// The manager gets an order: `recover`, `replace`, `migrate`, `nudge` or `expire`.
    Order(Local),
    /// The manager hears from M1 that it serves the partition in that epoch.
    Recovered { part: u32, epoch: u32 },
    /// The next accepted input is stopped before that call of the disk, counted from 1, and the disk crashes. What it
    /// hadn't synced is kept, or lost.
    Crash { call: u8, kept: bool },
}

impl Drop for ManageLine {
    fn drop(self) {
        match self {
            ManageLine::Order(_) => {}
            ManageLine::Recovered { part: _, epoch: _ } => {}
            ManageLine::Crash { call: _, kept: _ } => {}
        }
    }
}

// The kinds of line.
#[derive(Clone, Copy)]
pub(crate) enum ManageKind {
    Recover,
    Replace,
    Migrate,
    Nudge,
    Expire,
    Recovered,
    Crash,
}

impl ManageKind {
    pub(crate) fn from_text(text: &str) -> Option<ManageKind>
        ensures { result ≡ manage_kind_of text.now }
    {
        match text {
            "recover" => Some(ManageKind::Recover),
            "replace" => Some(ManageKind::Replace),
            "migrate" => Some(ManageKind::Migrate),
            "nudge" => Some(ManageKind::Nudge),
            "expire" => Some(ManageKind::Expire),
            "recovered" => Some(ManageKind::Recovered),
            "crash" => Some(ManageKind::Crash),
            _ => None,
        }
    }

    // The names in a line of this kind: do, and the others in byte order.
    pub(crate) fn names(self) -> &'static [FieldName]
        ensures { result.now ≡ manage_names self }
    {
        match self {
            ManageKind::Recover => &[
                FieldName::Do,
                FieldName::Backup,
                FieldName::Part,
                FieldName::Witness,
            ],
            ManageKind::Replace => &[
                FieldName::Do,
                FieldName::Kind,
                FieldName::Part,
                FieldName::Place,
            ],
            ManageKind::Migrate => &[FieldName::Do, FieldName::Hi, FieldName::Lo, FieldName::To],
            ManageKind::Nudge => &[FieldName::Do],
            ManageKind::Expire => &[FieldName::Do, FieldName::Client],
            ManageKind::Recovered => &[FieldName::Do, FieldName::Epoch, FieldName::Part],
            ManageKind::Crash => &[FieldName::Do, FieldName::Call, FieldName::Kept],
        }
    }
}
