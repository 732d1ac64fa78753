//! What a client says, as it is written.

ghost use Rattle.std.specs.Prelude.{◌≡◌, ◌≤◌, Some, All, IfOk};
ghost use Rattle.serde_json.specs.Data.{depth};
ghost use Rattle.nt_control.specs.Frame.{client_text, said_in, ignored_in};
ghost use Rattle.nt_control.specs.Elements.{tree_in};
ghost use Rattle.nt_control.specs.Client.{client_tree, client_object};

use crate::message::ClientMsg;
use crate::write::{
    Message, element_of, frame_text, integer_value, names_value, options_value, put_text, tree,
};
use nt_values::Text;
use serde_json::{Map, Value};
use std::alloc::{AllocError, Global};

/// The text frame that says these messages, without blanks and with keys in byte order. Where what
/// they carry nests at most 124 levels deep, its own object counted, it reads as these messages
/// again.
#[tactic(auto, unfolding(crate::specs::Frame::client_text))]
pub fn write_client(alloc: Global, msgs: &[ClientMsg]) -> Result<Text, AllocError>
    ensures text { IfOk result (λ text. text ≡ client_text msgs.now) }
    ensures tree { IfOk result (λ text. All (λ m. depth (client_object m) ≤ 124) msgs.now
        → tree_in text ≡ Some (client_tree msgs.now)) }
    ensures back { IfOk result (λ text. All (λ m. depth (client_object m) ≤ 124) msgs.now
        → said_in text ≡ msgs.now) }
    ensures none_ignored { IfOk result (λ text. All (λ m. depth (client_object m) ≤ 124) msgs.now
        → ignored_in text ≡ 0) }
{
    let tree = tree(alloc, msgs)?;
    let text = frame_text(alloc, &tree)?;
    Ok(text)
}

impl Message for ClientMsg {
    ghost use Rattle.nt_control.specs.Client.{client_element, client_message};

    ghost written = { client_element };

    ghost read = { client_message };

    fn element(&self, alloc: Global) -> Result<Value, AllocError> {
        let mut params = Map::new(alloc);
        match self {
            ClientMsg::Publish {
                name,
                uid,
                typ,
                props,
            } => {
                put_text(alloc, &mut params, "type", typ.as_str())?;
                serde_json::put(&mut params, alloc, "pubuid", integer_value(*uid))?;
                serde_json::put(&mut params, alloc, "properties", props.tree().clone()?)?;
                put_text(alloc, &mut params, "name", name.as_str())?;
                element_of(alloc, "publish", params)
            }
            ClientMsg::Unpublish { uid } => {
                serde_json::put(&mut params, alloc, "pubuid", integer_value(*uid))?;
                element_of(alloc, "unpublish", params)
            }
            ClientMsg::SetProps { name, update } => {
                serde_json::put(&mut params, alloc, "update", update.tree().clone()?)?;
                put_text(alloc, &mut params, "name", name.as_str())?;
                element_of(alloc, "setproperties", params)
            }
            ClientMsg::Subscribe { uid, sub } => {
                let names = names_value(alloc, &sub.names)?;
                let options = options_value(alloc, sub.options)?;
                serde_json::put(&mut params, alloc, "topics", names)?;
                serde_json::put(&mut params, alloc, "subuid", integer_value(*uid))?;
                serde_json::put(&mut params, alloc, "options", options)?;
                element_of(alloc, "subscribe", params)
            }
            ClientMsg::Unsubscribe { uid } => {
                serde_json::put(&mut params, alloc, "subuid", integer_value(*uid))?;
                element_of(alloc, "unsubscribe", params)
            }
        }
    }
}
