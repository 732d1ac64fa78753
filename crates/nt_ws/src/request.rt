//! Reading the head of a request.

ghost use Rattle.std.specs.Prelude.{◌≡◌, Some, Err};
ghost use Rattle.nt_link.specs.Causes.{Rose, IsLater};
ghost use Rattle.nt_ws.specs.Heads.{Gives, asks_upgrade, picked, key_in, key_of, asked, SaysRequest};
ghost use Rattle.nt_ws.specs.Streams.{ReadsHead};

use crate::fault::HeadFault;
use crate::field::Fields;
use crate::head::read_head;
use crate::text::{base64, protocol_of};
use base64::DecodeAllocError;
use base64::engine::general_purpose::STANDARD;
use httparse::Status;
use httparse::spans::{EMPTY_HEADER_SPAN, parse_request};
use nt_link::Source;
use nt_topics::{ClientName, Name, Version, path_name};
use nt_values::Text;
use std::alloc::Global;
use std::str;

/// The most fields of a head.
pub(crate) const MOST_FIELDS: usize = 64;

/// What a client asks.
#[derive(Drop)]
pub struct Request {
    /// The client's name, by the path.
    pub name: ClientName,
    /// The version that was picked of those that were offered.
    pub version: Version,
    /// The key, as it stood in the head.
    pub key: Name,
}

/// Whether a request asks for an upgrade to a WebSocket of version 13.
fn asks_upgrade(method: &[u8], minor: u8, fields: &Fields<'_>) -> bool
    ensures { result ≡ asks_upgrade method.now minor fields.now }
{
    method == b"GET".as_slice()
        && minor == 1
        && fields.is_upgrade()
        && fields.is_only(b"sec-websocket-version", b"13")
}

/// The version that is picked of those that are offered.
fn picked(fields: &Fields<'_>) -> Option<Version>
    ensures { result ≡ picked fields.now }
{
    if fields.list_member(
        b"sec-websocket-protocol",
        protocol_of(Version::V41).as_bytes(),
    ) {
        Some(Version::V41)
    } else {
        None
    }
}

/// A key, where the text is one. It is spelled anew, which is the text itself.
fn key_in(alloc: Global, text: &[u8]) -> Result<Name, HeadFault>
    ensures { Gives (key_in (Some text.now)) result }
{
    match STANDARD.decode(alloc, text) {
        Ok(nonce) => {
            if nonce.len() != 16 {
                return Err(HeadFault::BadKey);
            }
            let text = base64(alloc, &nonce)?;
            Ok(Name::of_text(Text::of_string(text)))
        }
        Err(DecodeAllocError::DecodeError(_)) => Err(HeadFault::BadKey),
        Err(DecodeAllocError::OutOfMemory) => Err(HeadFault::Memory),
    }
}

/// The key of these fields.
fn key_of(alloc: Global, fields: &Fields<'_>) -> Result<Name, HeadFault>
    ensures { Gives (key_of fields.now) result }
{
    match fields.only_value(b"sec-websocket-key") {
        Some(text) => key_in(alloc, text),
        None => Err(HeadFault::BadKey),
    }
}

/// What a request asks, or the first of its faults.
fn asked(
    alloc: Global,
    method: &[u8],
    target: &str,
    minor: u8,
    fields: &Fields<'_>,
) -> Result<Request, HeadFault>
    ensures { Gives (asked method.now target.now minor fields.now) result }
{
    if !asks_upgrade(method, minor, fields) {
        return Err(HeadFault::NotUpgrade);
    }
    let name = path_name(alloc, target)?;
    let Some(version) = picked(fields) else {
        return Err(HeadFault::NoProtocol);
    };
    let key = key_of(alloc, fields)?;
    Ok(Request { name, version, key })
}

/// What these bytes ask, as the head of a request.
fn request_in(alloc: Global, bytes: &[u8]) -> Result<Request, HeadFault>
    ensures { SaysRequest bytes.now result }
{
    let mut spans = [EMPTY_HEADER_SPAN; MOST_FIELDS];
    let head = match parse_request(bytes, &mut spans) {
        Ok(Status::Complete(head)) if head.len == bytes.len() => head,
        _ => return Err(HeadFault::NotHttp),
    };
    let Ok(target) = str::from_utf8(head.path.of(bytes)) else {
        return Err(HeadFault::NotHttp);
    };
    let fields = Fields::new(bytes, &spans[..head.headers]);
    asked(alloc, head.method.of(bytes), target, head.version, &fields)
}

/// Reads the head of a request from a source, and no byte behind it.
///
/// # Errors
///
/// Those of a head come in the order in which [`HeadFault`] lists them, each exactly where its case
/// holds and none before it. `Read` comes only where the source's count of faults rose. `Write` never
/// comes.
pub fn read_request<R: Source>(alloc: Global, source: &mut R) -> Result<Request, HeadFault>
    ensures head { ReadsHead SaysRequest (R.left source.old) (R.left source.new) result }
    ensures failed { result ≡ Err HeadFault.Read →
        Rose (R.faults source.old) (R.faults source.new) }
    ensures source { IsLater R.faults R.aside source.old source.new }
{
    let head = read_head(alloc, source)?;
    request_in(alloc, head.as_slice())
}
