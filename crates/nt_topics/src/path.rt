//! The client's name in the target of a request.

ghost use Rattle.std.specs.Prelude.{◌≡◌, ◌≢◌, IfOk, IfErr, Ok, Err};
ghost use Rattle.percent_encoding.specs.Percent.{percent_decode};
ghost use Rattle.nt_topics.specs.Paths.{before_query, client_name, path_name};
ghost use Rattle.nt_topics.specs.declared.path.PathFault.TheVariants.{Memory};

use crate::{ClientName, NameFault};
use percent_encoding::percent_decode;
use std::alloc::{AllocError, Global};
use std::str;
use thiserror::Error;

/// Why a target names no client.
#[derive(Clone, Copy, Debug, PartialEq, Eq, Error)]
pub enum PathFault {
    /// It doesn't begin with `/nt/`.
    #[error("a path that doesn't begin with /nt/")]
    NotNt,
    /// The name's decoded bytes aren't UTF-8.
    #[error("a name that isn't UTF-8")]
    NotText,
    /// The name is empty.
    #[error("an empty name")]
    Empty,
    /// The name has more than 256 bytes.
    #[error("a name of too many bytes")]
    TooLong,
    /// Want of memory.
    #[error("out of memory")]
    Memory,
}

impl From<AllocError> for PathFault {
    ghost from_gives = { λ _ e. e ≡ Memory };

    fn from(_error: AllocError) -> PathFault {
        PathFault::Memory
    }
}

/// The client's name in the target of a request: what follows `/nt/` up to the first `?`,
/// percent-decoded (a `%3F` is no `?`).
///
/// # Errors
///
/// `NotNt`, `NotText`, `Empty` and `TooLong`, each exactly where its case holds and none before it,
/// and want of memory.
pub fn path_name(alloc: Global, target: &str) -> Result<ClientName, PathFault>
    ensures ok { IfOk result (λ name. Ok name ≡ path_name target.now) }
    ensures err { IfErr result
        (λ fault. fault ≢ PathFault.Memory → Err fault ≡ path_name target.now) }
{
    let path = before_query(target).as_bytes();
    if !path.starts_with(b"/nt/") {
        return Err(PathFault::NotNt);
    }
    let name = decoded(alloc, &path[4..])?;
    client_name(alloc, name.as_slice())
}

/// Bytes, percent-decoded.
fn decoded(alloc: Global, bytes: &[u8]) -> Result<Vec<u8>, AllocError>
    ensures { IfOk result (λ name. name.items ≡ percent_decode bytes.now) }
{
    let mut name = Vec::new(alloc);
    percent_decode(bytes).append_to(&mut name)?;
    Ok(name)
}

/// The client's name of these bytes.
fn client_name(alloc: Global, bytes: &[u8]) -> Result<ClientName, PathFault>
    ensures ok { IfOk result (λ name. Ok name ≡ client_name bytes.now) }
    ensures err { IfErr result
        (λ fault. fault ≢ PathFault.Memory → Err fault ≡ client_name bytes.now) }
{
    let Ok(name) = str::from_utf8(bytes) else {
        return Err(PathFault::NotText);
    };
    match ClientName::of(alloc, name) {
        Ok(name) => Ok(name),
        Err(NameFault::Empty) => Err(PathFault::Empty),
        Err(NameFault::TooLong) => Err(PathFault::TooLong),
        Err(NameFault::Memory) => Err(PathFault::Memory),
    }
}

/// What of a target stands before its query.
fn before_query(target: &str) -> &str
    ensures { result.now ≡ before_query target.now }
{
    match target.split_once('?') {
        Some((path, _query)) => path,
        None => target,
    }
}
