//! Reading the head of an answer.

ghost use Rattle.std.specs.Prelude.{◌≡◌, Err};
ghost use Rattle.nt_link.specs.Causes.{Rose, IsLater};
ghost use Rattle.nt_ws.specs.Heads.{Gives, agreed, SaysResponse};
ghost use Rattle.nt_ws.specs.Streams.{ReadsHead};
ghost use Rattle.nt_ws.specs.Written.{base64};

use crate::fault::HeadFault;
use crate::field::Fields;
use crate::head::read_head;
use crate::request::MOST_FIELDS;
use crate::text::{accept_of, base64, protocol_of};
use httparse::Status;
use httparse::spans::{EMPTY_HEADER_SPAN, parse_response};
use nt_link::Source;
use nt_topics::Version;
use std::alloc::Global;

/// The version to which an answer agrees, where the request had this key.
fn agreed(alloc: Global, key: &[u8], status: u16, fields: &Fields<'_>) -> Result<Version, HeadFault>
    ensures { Gives (agreed key.now status fields.now) result }
{
    if status != 101 || !fields.is_upgrade() {
        return Err(HeadFault::NotUpgrade);
    }
    let accept = accept_of(alloc, key)?;
    if !fields.is_only(b"sec-websocket-accept", accept.as_bytes()) {
        return Err(HeadFault::BadKey);
    }
    if !fields.is_only(
        b"sec-websocket-protocol",
        protocol_of(Version::V41).as_bytes(),
    ) {
        return Err(HeadFault::NoProtocol);
    }
    Ok(Version::V41)
}

/// What these bytes agree to, as the head of an answer.
fn answer_in(alloc: Global, key: &[u8], bytes: &[u8]) -> Result<Version, HeadFault>
    ensures { SaysResponse key.now bytes.now result }
{
    let mut spans = [EMPTY_HEADER_SPAN; MOST_FIELDS];
    let head = match parse_response(bytes, &mut spans) {
        Ok(Status::Complete(head)) if head.len == bytes.len() => head,
        _ => return Err(HeadFault::NotHttp),
    };
    let fields = Fields::new(bytes, &spans[..head.headers]);
    agreed(alloc, key, head.code, &fields)
}

/// Reads the head of the answer to a request with this key from a source, and no byte behind it.
///
/// # Errors
///
/// `Read`, `NotHttp` and `TooLong` as for a request, then `NotUpgrade`, `BadKey` and `NoProtocol`,
/// each exactly where its case holds and none before it, and want of memory. `Read` comes only where
/// the source's count of faults rose.
pub fn read_answer<R: Source>(
    alloc: Global,
    source: &mut R,
    key: &[u8; 16],
) -> Result<Version, HeadFault>
    ensures head { ReadsHead (SaysResponse (base64 key.now)) (R.left source.old) (R.left source.new)
        result }
    ensures failed { result ≡ Err HeadFault.Read →
        Rose (R.faults source.old) (R.faults source.new) }
    ensures source { IsLater R.faults R.aside source.old source.new }
{
    let key = base64(alloc, key)?;
    let head = read_head(alloc, source)?;
    answer_in(alloc, key.as_bytes(), head.as_slice())
}
