//! What a server says, as it is written.

ghost use Rattle.std.specs.Prelude.{◌≡◌, ◌≤◌, Some, All, IfOk};
ghost use Rattle.serde_json.specs.Data.{depth};
ghost use Rattle.nt_control.specs.Frame.{server_text, told_in, untold_in};
ghost use Rattle.nt_control.specs.Elements.{tree_in};
ghost use Rattle.nt_control.specs.Server.{server_tree, server_object};

use crate::message::ServerMsg;
use crate::write::{Message, element_of, frame_text, integer_value, put_text, put_true, tree};
use nt_values::Text;
use serde_json::{Map, Value};
use std::alloc::{AllocError, Global};

/// The text frame that says these messages, without blanks and with keys in byte order. Where what
/// they carry nests at most 124 levels deep, its own object counted, it reads as these messages
/// again.
#[tactic(auto, unfolding(crate::specs::Frame::server_text))]
pub fn write_server(alloc: Global, msgs: &[ServerMsg]) -> Result<Text, AllocError>
    ensures text { IfOk result (λ text. text ≡ server_text msgs.now) }
    ensures tree { IfOk result (λ text. All (λ m. depth (server_object m) ≤ 124) msgs.now
        → tree_in text ≡ Some (server_tree msgs.now)) }
    ensures back { IfOk result (λ text. All (λ m. depth (server_object m) ≤ 124) msgs.now
        → told_in text ≡ msgs.now) }
    ensures none_ignored { IfOk result (λ text. All (λ m. depth (server_object m) ≤ 124) msgs.now
        → untold_in text ≡ 0) }
{
    let tree = tree(alloc, msgs)?;
    let text = frame_text(alloc, &tree)?;
    Ok(text)
}

impl Message for ServerMsg {
    ghost use Rattle.nt_control.specs.Server.{server_element, server_message};

    ghost written = { server_element };

    ghost read = { server_message };

    fn element(&self, alloc: Global) -> Result<Value, AllocError> {
        let mut params = Map::new(alloc);
        match self {
            ServerMsg::Announce {
                name,
                id,
                typ,
                pubuid,
                props,
            } => {
                put_text(alloc, &mut params, "type", typ.as_str())?;
                if let Some(uid) = *pubuid {
                    serde_json::put(&mut params, alloc, "pubuid", integer_value(uid))?;
                }
                serde_json::put(&mut params, alloc, "properties", props.tree().clone()?)?;
                put_text(alloc, &mut params, "name", name.as_str())?;
                serde_json::put(&mut params, alloc, "id", integer_value(*id))?;
                element_of(alloc, "announce", params)
            }
            ServerMsg::Unannounce { name, id } => {
                put_text(alloc, &mut params, "name", name.as_str())?;
                serde_json::put(&mut params, alloc, "id", integer_value(*id))?;
                element_of(alloc, "unannounce", params)
            }
            ServerMsg::Properties { name, ack, update } => {
                serde_json::put(&mut params, alloc, "update", update.tree().clone()?)?;
                put_text(alloc, &mut params, "name", name.as_str())?;
                put_true(alloc, &mut params, "ack", *ack)?;
                element_of(alloc, "properties", params)
            }
        }
    }
}
