//! What a client says, as it is read.

ghost use Rattle.std.specs.Prelude.{◌≡◌, IfOk};
ghost use Rattle.serde_json.specs.View.{view, members_view};
ghost use Rattle.nt_control.specs.Frame.{said_in, ignored_in};
ghost use Rattle.nt_control.specs.Client.{client_message, publish_of, set_props_of, subscribe_of};

use crate::frame::{Call, elements, take_call};
use crate::message::ClientMsg;
use crate::params::{integer, take_limited, take_properties, take_update};
use crate::subscription::{take_names, take_options};
use nt_subs::Sub;
use serde_json::{Map, Value};
use std::alloc::{AllocError, Global};

/// What a text frame of a client says: its messages in order, and how many elements are no message
/// (at most the greatest number of the type).
#[derive(Drop)]
pub struct ClientRead {
    pub msgs: Vec<ClientMsg>,
    pub ignored: u32,
}

/// Reads a text frame of a client ("Client to Server Messages"). A text that is no JSON, or no
/// array, is one element that is no message.
#[tactic(auto, unfolding(crate::specs::Frame::said_in, crate::specs::Frame::ignored_in))]
pub fn read_client(alloc: Global, text: &[u8]) -> Result<ClientRead, AllocError>
    ensures msgs { IfOk result (λ read. read.msgs.items ≡ said_in text.now) }
    ensures ignored { IfOk result (λ read. read.ignored ≡ ignored_in text.now) }
{
    let mut msgs = Vec::new(alloc);
    let Some(elements) = elements(alloc, text)? else {
        return Ok(ClientRead { msgs, ignored: 1 });
    };
    let mut ignored: u32 = 0;
    for element in elements {
        match message(alloc, element)? {
            Some(msg) => msgs.push(msg)?,
            None => ignored = ignored.saturating_add(1),
        }
    }
    Ok(ClientRead { msgs, ignored })
}

/// The message that an element is.
fn message(alloc: Global, element: Value) -> Result<Option<ClientMsg>, AllocError>
    ensures { IfOk result (λ msg. msg ≡ client_message (view element)) }
{
    let Some(Call { method, params }) = take_call(element) else {
        return Ok(None);
    };
    let method = method.as_str();
    if method == "publish" {
        publish(alloc, params)
    } else if method == "unpublish" {
        let uid = integer(&params, "pubuid");
        Ok(uid.map(|uid| ClientMsg::Unpublish { uid }))
    } else if method == "setproperties" {
        set_props(alloc, params)
    } else if method == "subscribe" {
        subscribe(alloc, params)
    } else if method == "unsubscribe" {
        let uid = integer(&params, "subuid");
        Ok(uid.map(|uid| ClientMsg::Unsubscribe { uid }))
    } else {
        Ok(None)
    }
}

/// The publish of these params.
fn publish(alloc: Global, mut params: Map<String, Value>) -> Result<Option<ClientMsg>, AllocError>
    ensures { IfOk result (λ msg. msg ≡ publish_of (members_view params.entries)) }
{
    let Some(uid) = integer(&params, "pubuid") else {
        return Ok(None);
    };
    let Some(name) = take_limited(&mut params, "name") else {
        return Ok(None);
    };
    let Some(typ) = take_limited(&mut params, "type") else {
        return Ok(None);
    };
    let Some(props) = take_properties(alloc, &mut params)? else {
        return Ok(None);
    };
    Ok(Some(ClientMsg::Publish {
        name,
        uid,
        typ,
        props,
    }))
}

/// The change of properties of these params.
fn set_props(alloc: Global, mut params: Map<String, Value>) -> Result<Option<ClientMsg>, AllocError>
    ensures { IfOk result (λ msg. msg ≡ set_props_of (members_view params.entries)) }
{
    let Some(name) = take_limited(&mut params, "name") else {
        return Ok(None);
    };
    let Some(update) = take_update(alloc, &mut params)? else {
        return Ok(None);
    };
    Ok(Some(ClientMsg::SetProps { name, update }))
}

/// The subscription of these params.
fn subscribe(alloc: Global, mut params: Map<String, Value>) -> Result<Option<ClientMsg>, AllocError>
    ensures { IfOk result (λ msg. msg ≡ subscribe_of (members_view params.entries)) }
{
    let Some(uid) = integer(&params, "subuid") else {
        return Ok(None);
    };
    let Some(names) = take_names(alloc, &mut params, "topics")? else {
        return Ok(None);
    };
    let Some(options) = take_options(&mut params) else {
        return Ok(None);
    };
    let sub = Sub { names, options };
    Ok(Some(ClientMsg::Subscribe { uid, sub }))
}
