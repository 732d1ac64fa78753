//! What an entry weighs, in a journal that keeps its entries.

ghost use Rattle.std.specs.Prelude.{◌≡◌, ◌^◌, ◌-◌, min};
ghost use Rattle.nt_hall.specs.Weight.{names_weight, client_weight, server_weight, texts_weight, values_weight, deed_weight, entry_weight};

use nt_control::{ClientMsg, ServerMsg};
use nt_frames::ValueMsg;
use nt_rules::{Deed, Entry, Msg};
use nt_topics::Name;

/// What an entry weighs besides, and each message that one hands.
const BASE: u64 = 64;

fn names_weight(names: &[Name]) -> u64
    ensures { result ≡ min (names_weight names.now) (2 ^ 64 - 1) }
{
    let mut weight: u64 = 0;
    for name in names {
        weight = weight.saturating_add(name.as_str().len() as u64);
    }
    weight
}

fn client_weight(msg: &ClientMsg) -> u64
    ensures { result ≡ min (client_weight msg.now) (2 ^ 64 - 1) }
{
    match msg {
        ClientMsg::Publish {
            name,
            typ,
            props,
            ..
        } => (name.as_str().len() as u64)
            .saturating_add(typ.as_str().len() as u64)
            .saturating_add(props.text_len()),
        ClientMsg::SetProps { name, update } => {
            (name.as_str().len() as u64).saturating_add(update.text_len())
        }
        ClientMsg::Subscribe { sub, .. } => names_weight(sub.names.as_slice()),
        ClientMsg::Unpublish { .. } | ClientMsg::Unsubscribe { .. } => 0,
    }
}

fn server_weight(msg: &ServerMsg) -> u64
    ensures { result ≡ min (server_weight msg.now) (2 ^ 64 - 1) }
{
    match msg {
        ServerMsg::Announce {
            name,
            typ,
            props,
            ..
        } => (name.as_str().len() as u64)
            .saturating_add(typ.as_str().len() as u64)
            .saturating_add(props.text_len()),
        ServerMsg::Unannounce { name, .. } => name.as_str().len() as u64,
        ServerMsg::Properties { name, update, .. } => {
            (name.as_str().len() as u64).saturating_add(update.text_len())
        }
    }
}

fn texts_weight(texts: &[ServerMsg]) -> u64
    ensures { result ≡ min (texts_weight texts.now) (2 ^ 64 - 1) }
{
    let mut weight: u64 = 0;
    for text in texts {
        weight = weight
            .saturating_add(BASE)
            .saturating_add(server_weight(text));
    }
    weight
}

fn values_weight(values: &[ValueMsg]) -> u64
    ensures { result ≡ min (values_weight values.now) (2 ^ 64 - 1) }
{
    let mut weight: u64 = 0;
    for message in values {
        weight = weight
            .saturating_add(BASE)
            .saturating_add(message.value.size());
    }
    weight
}

/// The weight of an entry, or the greatest number where the weight passes it.
pub fn entry_weight(made: &Entry) -> u64
    ensures { result ≡ min (entry_weight made.entry.now) (2 ^ 64 - 1) }
{
    let weight = match &made.deed {
        Deed::Opened(name) => name.as_str().len() as u64,
        Deed::Said(Msg::Control(msg)) => client_weight(msg),
        Deed::Said(Msg::Put(message)) => message.value.size(),
        Deed::Drained(batch) => texts_weight(batch.texts.as_slice()).saturating_add(values_weight(
            batch.values.as_slice(),
        )),
        Deed::NotOpened | Deed::Closed | Deed::Permitted | Deed::NoPermit | Deed::Shut => 0,
    };
    weight.saturating_add(BASE)
}
