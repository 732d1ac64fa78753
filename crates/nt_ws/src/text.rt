//! The texts of requests, answers and refusals.

ghost use Rattle.std.specs.Prelude.{◌≡◌, ◌++◌, IfOk, OnOk, string_bytes};
ghost use Rattle.nt_ws.specs.Written.{protocol_of, base64, accept_of, field_line, upgrade_lines, answer_of, escaped, request_of, refusal_of};

use crate::fault::HeadFault;
use crate::request::Request;
use base64::engine::general_purpose::STANDARD;
use nt_topics::{ClientName, Version};
use nt_values::Bytes;
use percent_encoding::percent_encode_byte;
use sha1::Sha1;
use std::alloc::{AllocError, Global};

/// The name of a version, as a subprotocol.
pub(crate) fn protocol_of(version: Version) -> &'static str
    ensures { result.now ≡ protocol_of version }
{
    match version {
        Version::V41 => "v4.1.networktables.first.wpi.edu",
    }
}

/// Bytes in base64.
pub(crate) fn base64(alloc: Global, bytes: &[u8]) -> Result<String, AllocError>
    ensures { IfOk result (λ text. string_bytes text ≡ base64 bytes.now) }
{
    STANDARD.encode(alloc, bytes)
}

/// The value by which a server shows that it read the key.
pub(crate) fn accept_of(alloc: Global, key: &[u8]) -> Result<String, AllocError>
    ensures { IfOk result (λ text. string_bytes text ≡ accept_of key.now) }
{
    let mut hasher = Sha1::new();
    hasher.update(key);
    hasher.update(b"258EAFA5-E914-47DA-95CA-C5AB0DC85B11");
    base64(alloc, &hasher.finalize())
}

/// Adds a field line.
fn put_field(text: &mut String, name: &str, value: &str) -> Result<(), AllocError>
    ensures { OnOk result (string_bytes text.new
        ≡ string_bytes text.old ++ field_line name.now value.now) }
{
    text.push_str(name)?;
    text.push_str(": ")?;
    text.push_str(value)?;
    text.push_str("\r\n")
}

/// Adds the two field lines of an upgrade.
fn put_upgrade(text: &mut String) -> Result<(), AllocError>
    ensures { OnOk result (string_bytes text.new ≡ string_bytes text.old ++ upgrade_lines) }
{
    put_field(text, "Upgrade", "websocket")?;
    put_field(text, "Connection", "Upgrade")
}

/// The bytes of the answer to a request.
pub fn answer_bytes(alloc: Global, request: &Request) -> Result<Bytes, AllocError>
    ensures { IfOk result (λ bytes. bytes ≡ answer_of request.now) }
{
    let accept = accept_of(alloc, request.key.as_str().as_bytes())?;
    let mut text = String::from_str(alloc, "HTTP/1.1 101 Switching Protocols\r\n")?;
    put_upgrade(&mut text)?;
    put_field(&mut text, "Sec-WebSocket-Accept", accept.as_str())?;
    put_field(
        &mut text,
        "Sec-WebSocket-Protocol",
        protocol_of(request.version),
    )?;
    text.push_str("\r\n")?;
    Bytes::of(alloc, text.as_bytes())
}

/// A name, escaped for a target.
fn put_escaped(text: &mut String, name: &[u8]) -> Result<(), AllocError>
    ensures { OnOk result (string_bytes text.new ≡ string_bytes text.old ++ escaped name.now) }
{
    for b in name {
        if b.is_ascii_alphanumeric() || matches!(*b, b'-' | b'_' | b'.' | b'~') {
            text.push(char::from(*b))?;
        } else {
            text.push_str(percent_encode_byte(*b))?;
        }
    }
    Ok(())
}

/// The bytes of the request of a client of this name to this host, which is written as it is. The key
/// is 16 random bytes (RFC 6455, section 4.1).
pub fn request_bytes(
    alloc: Global,
    host: &str,
    name: &ClientName,
    key: &[u8; 16],
) -> Result<Bytes, AllocError>
    ensures { IfOk result (λ bytes. bytes ≡ request_of host.now name.now key.now) }
{
    let key = base64(alloc, key)?;
    let mut text = String::from_str(alloc, "GET /nt/")?;
    put_escaped(&mut text, name.as_str().as_bytes())?;
    text.push_str(" HTTP/1.1\r\n")?;
    put_field(&mut text, "Host", host)?;
    put_upgrade(&mut text)?;
    put_field(&mut text, "Sec-WebSocket-Key", key.as_str())?;
    put_field(&mut text, "Sec-WebSocket-Version", "13")?;
    put_field(
        &mut text,
        "Sec-WebSocket-Protocol",
        protocol_of(Version::V41),
    )?;
    text.push_str("\r\n")?;
    Bytes::of(alloc, text.as_bytes())
}

/// What a peer is told of a fault.
pub(crate) fn refusal_of(fault: HeadFault) -> &'static [u8]
    ensures { result.now ≡ refusal_of fault }
{
    match fault {
        HeadFault::Read | HeadFault::Write | HeadFault::Memory => b"",
        HeadFault::BadPath => {
            b"HTTP/1.1 404 Not Found\r\nConnection: close\r\nContent-Length: 0\r\n\r\n"
        }
        HeadFault::TooLong
        | HeadFault::NotHttp
        | HeadFault::NotUpgrade
        | HeadFault::NoProtocol
        | HeadFault::BadKey => {
            b"HTTP/1.1 400 Bad Request\r\nConnection: close\r\nContent-Length: 0\r\n\r\n"
        }
    }
}
