//! What stands in a frame behind its length.
ghost use Rattle.std.specs.Prelude.{◌≡◌, true, OnOk};
ghost use Rattle.curp_items.specs.Calls.{ReadsIfMemory, WritesItem};
ghost use Rattle.curp_wire.specs.Frame.{IsMessage, content, has_content, is_tag, read_message};
ghost use Rattle.curp_fields.specs.Encoding.{HasContent};

use crate::body::{read_fields, tag_of, write_fields};
use curp_base::{Failed, NoMemory};
use curp_fields::has_fields;
use curp_items::{Fault, Item, Reader, Writer, is_node};
use curp_msg::Message;
use std::alloc::Global;

/// Whether the tag, the sender, the addressee and the fields have an encoding.
pub(crate) fn has_content(message: &Message) -> bool
    ensures test { result ≡ has_content message.now }
    ensures encoded { result ≡ true → HasContent message.now }
{
    is_node(&message.from) && is_node(&message.to) && has_fields(&message.body)
}

/// Writes the tag, the sender, the addressee and the fields.
pub(crate) fn write_content(message: &Message, out: &mut Writer) -> Result<(), NoMemory>
    requires { HasContent message.now }
    ensures writes { WritesItem out.old out.new result (content message.now) }
    ensures message { OnOk result (IsMessage message.now) }
{
    out.byte(tag_of(&message.body))?;
    message.from.write(out)?;
    message.to.write(out)?;
    write_fields(&message.body, out)
}

/// Reads what stands behind the tag.
pub(crate) fn read_message(
    tag: u8,
    alloc: Global,
    reader: &mut Reader,
) -> Result<Message, Failed<Fault>>
    ensures { ReadsIfMemory result reader.new (read_message tag reader.old) }
{
    let from = Item::read(reader)?;
    let to = Item::read(reader)?;
    let body = read_fields(tag, alloc, reader)?;
    Ok(Message { from, to, body })
}

/// Whether some body has this tag.
pub(crate) fn is_tag(tag: u8) -> bool
    ensures { result ≡ is_tag tag }
{
    (1..=35).contains(&tag)
}
