ghost use Rattle.std.specs.Prelude.{◌≡◌, IfOk};
ghost use Rattle.curp_script.specs.Grammar.{text_as};
ghost use Rattle.curp_script.specs.Manage.{HasCall, manage_of, manage_values};
ghost use Rattle.curp_script.specs.ManageKinds.{manage_kind_of};
ghost use Rattle.curp_script.specs.Values.{value_data};

use super::fields::{flag_at, hash_at, index_at, keeper_at, no_other, number_at};
use super::object::{text_in, value_at};
use crate::manage::ManageKind;
use crate::{FieldName, LineError, ManageLine};
use curp_msg::Local;
use json::Value as Json;

pub(crate) fn manage_of(object: &Json<'_>) -> Result<ManageLine, LineError>
    ensures reads { result ≡ manage_of (value_data object.now) }
    ensures call { IfOk result HasCall }
{
    let kind = manage_kind_at(object)?;
    let line = values_of(kind, object)?;
    no_other(object, kind.names())?;
    Ok(line)
}

fn manage_kind_at(object: &Json<'_>) -> Result<ManageKind, LineError>
    ensures { result ≡ text_as manage_kind_of FieldName.Do (value_data object.now) }
{
    let name = FieldName::Do;
    let text = value_at(object, name).and_then(text_in);
    text.and_then(ManageKind::from_text)
        .ok_or(LineError::BadField { name })
}

// What a line of a kind says, by the values of its names, in byte order.
fn values_of(kind: ManageKind, object: &Json<'_>) -> Result<ManageLine, LineError>
    ensures reads { result ≡ manage_values kind (value_data object.now) }
    ensures call { IfOk result HasCall }
{
    Ok(match kind {
        ManageKind::Recover => ManageLine::Order(Local::Recover {
            backup: index_at(object, FieldName::Backup)?,
            part: index_at(object, FieldName::Part)?,
            witness: index_at(object, FieldName::Witness)?,
        }),
        ManageKind::Replace => ManageLine::Order(Local::Replace {
            keeper: keeper_at(object)?,
            part: index_at(object, FieldName::Part)?,
            place: index_at(object, FieldName::Place)?,
        }),
        ManageKind::Migrate => ManageLine::Order(Local::Migrate {
            hi: hash_at(object, FieldName::Hi)?,
            lo: hash_at(object, FieldName::Lo)?,
            to: index_at(object, FieldName::To)?,
        }),
        ManageKind::Nudge => ManageLine::Order(Local::Nudge),
        ManageKind::Expire => ManageLine::Order(Local::Expire(index_at(
            object,
            FieldName::Client,
        )?)),
        ManageKind::Recovered => ManageLine::Recovered {
            epoch: index_at(object, FieldName::Epoch)?,
            part: index_at(object, FieldName::Part)?,
        },
        ManageKind::Crash => ManageLine::Crash {
            call: number_at(object, FieldName::Call, 1, 4)? as u8,
            kept: flag_at(object, FieldName::Kept)?,
        },
    })
}
