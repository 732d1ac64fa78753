//! Looking for meta topics by their names.

ghost use Rattle.std.specs.Prelude.{◌≡◌, ◌++◌, [], ◌∷◌, bytes_eq, option_copied, option_map};
ghost use Rattle.std.specs.List.{find};
ghost use Rattle.nt_rules.specs.meta.Meta.{named_in, is_named, clients, server_pub, server_sub};
ghost use Rattle.nt_rules.specs.declared.roster.Roster.{Roster};
ghost use Rattle.nt_meta.specs.Topics.{meta_of};

use crate::topic::MetaTopic;
use nt_rules::{ConnRow, LifeRow, Roster};

/// The meta topic of this name that lives.
pub fn meta_topic<'a>(name: &str, roster: &'a Roster) -> Option<MetaTopic<'a>>
    ensures { option_map (meta_of roster.now) result ≡ named_in roster.now name.now }
{
    let lives = roster.topics.as_slice();
    let conns = roster.conns.as_slice();
    if let Some(life) = life_named("$pub$", name, lives) {
        return Some(MetaTopic::TopicPub(life));
    }
    if let Some(life) = life_named("$sub$", name, lives) {
        return Some(MetaTopic::TopicSub(life));
    }
    if let Some(conn) = conn_named("$client_pub$", name, conns) {
        return Some(MetaTopic::ClientPub(conn));
    }
    if let Some(conn) = conn_named("$client_sub$", name, conns) {
        return Some(MetaTopic::ClientSub(conn));
    }
    server_topic(name)
}

/// One of the server's own meta topics, by its name.
fn server_topic<'a>(name: &str) -> Option<MetaTopic<'a>>
    ensures { (r : Roster) → option_map (meta_of r) result
        ≡ find (is_named name.now) (clients r ∷ server_pub ∷ server_sub ∷ []) }
{
    match name {
        "$clients" => Some(MetaTopic::Clients),
        "$server_pub" => Some(MetaTopic::ServerPub),
        "$server_sub" => Some(MetaTopic::ServerSub),
        _ => None,
    }
}

/// The topic whose name stands behind the prefix.
fn life_named<'a>(prefix: &str, name: &str, lives: &'a [LifeRow]) -> Option<&'a LifeRow>
    ensures { option_copied result
        ≡ find (λ t. bytes_eq (prefix.now ++ t.name) name.now) lives.now }
{
    for life in lives {
        if is_joined(prefix, life.name.as_str(), name) {
            return Some(life);
        }
    }
    None
}

/// The connection whose name stands behind the prefix.
fn conn_named<'a>(prefix: &str, name: &str, conns: &'a [ConnRow]) -> Option<&'a ConnRow>
    ensures { option_copied result
        ≡ find (λ c. bytes_eq (prefix.now ++ c.name) name.now) conns.now }
{
    for conn in conns {
        if is_joined(prefix, conn.name.as_str(), name) {
            return Some(conn);
        }
    }
    None
}

/// Whether a name is a prefix and a key behind it.
fn is_joined(prefix: &str, key: &str, name: &str) -> bool
    ensures { result ≡ bytes_eq (prefix.now ++ key.now) name.now }
{
    match name.as_bytes().strip_prefix(prefix.as_bytes()) {
        Some(rest) => rest == key.as_bytes(),
        None => false,
    }
}
