//! What a server says, as it is read.

ghost use Rattle.std.specs.Prelude.{◌≡◌, IfOk};
ghost use Rattle.serde_json.specs.View.{view, members_view};
ghost use Rattle.nt_control.specs.Frame.{told_in, untold_in};
ghost use Rattle.nt_control.specs.Server.{server_message, announce_of, unannounce_of, properties_of};

use crate::frame::{Call, elements, take_call};
use crate::message::ServerMsg;
use crate::params::{
    flag_or_false, integer, integer_or_none, take_limited, take_name, take_properties, take_update,
};
use serde_json::{Map, Value};
use std::alloc::{AllocError, Global};

/// What a text frame of a server says: its messages in order, and how many elements are no message
/// (at most the greatest number of the type).
#[derive(Drop)]
pub struct ServerRead {
    pub msgs: Vec<ServerMsg>,
    pub ignored: u32,
}

/// Reads a text frame of a server ("Server to Client Messages"). A text that is no JSON, or no
/// array, is one element that is no message.
#[tactic(auto, unfolding(crate::specs::Frame::told_in, crate::specs::Frame::untold_in))]
pub fn read_server(alloc: Global, text: &[u8]) -> Result<ServerRead, AllocError>
    ensures msgs { IfOk result (λ read. read.msgs.items ≡ told_in text.now) }
    ensures ignored { IfOk result (λ read. read.ignored ≡ untold_in text.now) }
{
    let mut msgs = Vec::new(alloc);
    let Some(elements) = elements(alloc, text)? else {
        return Ok(ServerRead { msgs, ignored: 1 });
    };
    let mut ignored: u32 = 0;
    for element in elements {
        match message(alloc, element)? {
            Some(msg) => msgs.push(msg)?,
            None => ignored = ignored.saturating_add(1),
        }
    }
    Ok(ServerRead { msgs, ignored })
}

/// The message that an element is.
fn message(alloc: Global, element: Value) -> Result<Option<ServerMsg>, AllocError>
    ensures { IfOk result (λ msg. msg ≡ server_message (view element)) }
{
    let Some(Call { method, params }) = take_call(element) else {
        return Ok(None);
    };
    let method = method.as_str();
    if method == "announce" {
        announce(alloc, params)
    } else if method == "unannounce" {
        Ok(unannounce(params))
    } else if method == "properties" {
        properties(alloc, params)
    } else {
        Ok(None)
    }
}

/// The announce of these params.
fn announce(alloc: Global, mut params: Map<String, Value>) -> Result<Option<ServerMsg>, AllocError>
    ensures { IfOk result (λ msg. msg ≡ announce_of (members_view params.entries)) }
{
    let Some(id) = integer(&params, "id") else {
        return Ok(None);
    };
    let Some(pubuid) = integer_or_none(&params, "pubuid") else {
        return Ok(None);
    };
    let Some(name) = take_name(&mut params, "name") else {
        return Ok(None);
    };
    let Some(typ) = take_limited(&mut params, "type") else {
        return Ok(None);
    };
    let Some(props) = take_properties(alloc, &mut params)? else {
        return Ok(None);
    };
    Ok(Some(ServerMsg::Announce {
        name,
        id,
        typ,
        pubuid,
        props,
    }))
}

/// The unannounce of these params.
fn unannounce(mut params: Map<String, Value>) -> Option<ServerMsg>
    ensures { result ≡ unannounce_of (members_view params.entries) }
{
    let id = integer(&params, "id")?;
    let name = take_name(&mut params, "name")?;
    Some(ServerMsg::Unannounce { name, id })
}

/// The change of properties of these params.
fn properties(
    alloc: Global,
    mut params: Map<String, Value>,
) -> Result<Option<ServerMsg>, AllocError>
    ensures { IfOk result (λ msg. msg ≡ properties_of (members_view params.entries)) }
{
    let Some(ack) = flag_or_false(&params, "ack") else {
        return Ok(None);
    };
    let Some(name) = take_name(&mut params, "name") else {
        return Ok(None);
    };
    let Some(update) = take_update(alloc, &mut params)? else {
        return Ok(None);
    };
    Ok(Some(ServerMsg::Properties { name, ack, update }))
}
