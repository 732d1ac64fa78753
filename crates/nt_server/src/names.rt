//! The name that a connection is given.

ghost use Rattle.std.specs.Prelude.{◌≡◌, IfOk};
ghost use Rattle.nt_rules.specs.history.Answer.{is_used, numbered, given_name};
ghost use Rattle.nt_rules.specs.history.State.{given_names};

use crate::open::Open;
use nt_topics::{ClientName, Name};
use std::alloc::{AllocError, Global};

/// Whether an open connection has this name.
fn is_used(opens: &[Open], name: &Name) -> bool
    ensures { result ≡ is_used (given_names opens.now) name.now }
{
    for client in opens {
        if client.name.as_str() == name.as_str() {
            return true;
        }
    }
    false
}

/// `name` at 0, and then `name@1`, `name@2` and so on.
fn numbered(alloc: Global, name: &ClientName, number: usize) -> Result<Name, AllocError>
    ensures { IfOk result (λ n. n ≡ numbered name.now number) }
{
    let plain = name.as_str();
    if number == 0 {
        return Name::of(alloc, plain);
    }
    let text = format!(in alloc; "{plain}@{number}")?;
    Name::of(alloc, text.as_str())
}

/// The first of the numbered names that no open connection has.
pub fn given_name(alloc: Global, opens: &[Open], name: &ClientName) -> Result<Name, AllocError>
    ensures { IfOk result (λ n. n ≡ given_name (given_names opens.now) name.now) }
{
    for (number, _client) in opens.iter().enumerate() {
        let tried = numbered(alloc, name, number)?;
        if !is_used(opens, &tried) {
            return Ok(tried);
        }
    }
    numbered(alloc, name, opens.len())
}
