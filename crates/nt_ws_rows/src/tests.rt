//! Rows of heads: what a peer says, what is answered, and what is written.

use nt_link::{MemSink, MemSource, MemStream};
use nt_topics::{ClientName, Version};
use nt_ws::{greet, join, request_bytes};
use std::alloc::{AllocError, Global};
use std::test::Fail;

/// The nonce of RFC 6455, section 1.3, whose key is `dGhlIHNhbXBsZSBub25jZQ==`.
const NONCE: &[u8; 16] = b"the sample nonce";

/// The fields of an upgrade with the key of RFC 6455, section 1.3.
const UPGRADE: &str = "Upgrade: websocket\r\nConnection: Upgrade\r\nSec-WebSocket-Version: 13\r\n\
        Sec-WebSocket-Key: dGhlIHNhbXBsZSBub25jZQ==\r\n";

/// The offer of the one known version.
const OFFER: &str = "Sec-WebSocket-Protocol: v4.1.networktables.first.wpi.edu\r\n";

/// The answer to that key, with the accept value of RFC 6455, section 1.3.
const ANSWER: &str =
    "HTTP/1.1 101 Switching Protocols\r\nUpgrade: websocket\r\nConnection: Upgrade\r\n\
        Sec-WebSocket-Accept: s3pPLMBiTxaQ9kYGzzhZRbK+xOo=\r\n\
        Sec-WebSocket-Protocol: v4.1.networktables.first.wpi.edu\r\n\r\n";

const BAD_REQUEST: &str =
    "HTTP/1.1 400 Bad Request\r\nConnection: close\r\nContent-Length: 0\r\n\r\n";

const NOT_FOUND: &str = "HTTP/1.1 404 Not Found\r\nConnection: close\r\nContent-Length: 0\r\n\r\n";

/// A stream from which these bytes come. Reads and writes with these numbers fail.
fn stream_of(
    alloc: Global,
    bytes: &str,
    reads: &[u64],
    writes: &[u64],
) -> Result<MemStream, AllocError> {
    let bytes = Vec::from_slice(alloc, bytes.as_bytes())?;
    let source = MemSource::new(bytes, Vec::from_slice(alloc, reads)?);
    let sink = MemSink::new(alloc, Vec::from_slice(alloc, writes)?);
    Ok(MemStream::new(source, sink))
}

/// What greeting a peer that says this answers, as a line, and behind it what was written.
fn greeting(
    alloc: Global,
    head: &str,
    reads: &[u64],
    writes: &[u64],
) -> Result<String, AllocError> {
    let mut stream = stream_of(alloc, head, reads, writes)?;
    let mut told = match greet(alloc, &mut stream) {
        Ok((name, Version::V41)) => format!(in alloc; "{}\n", name.as_str())?,
        Err(fault) => format!(in alloc; "{fault:?}\n")?,
    };
    told.push_str(String::from_utf8_lossy(alloc, stream.sink().taken())?.as_str())?;
    Ok(told)
}

/// A head of a request: its first line, the fields of an upgrade, and further ones.
fn request(alloc: Global, line: &str, fields: &str) -> Result<String, AllocError> {
    format!(in alloc; "{line}\r\nHost: h\r\n{UPGRADE}{fields}\r\n")
}

#[test]
fn a_request_is_answered(rt: HostRuntime) -> Result<(), Fail> {
    let alloc = rt.alloc();
    let plain = request(alloc, "GET /nt/dash HTTP/1.1", OFFER)?;
    let other_spelling = "\r\n\nGET /nt/my%20dash?x HTTP/1.1\nupgrade:h2c ,\tWebSocket\n\
            CONNECTION: keep-alive, upgrade\r\nsec-websocket-version: 13 \n\
            Sec-Websocket-Key: dGhlIHNhbXBsZSBub25jZQ==\nSec-WebSocket-Protocol: x\n\
            Sec-WebSocket-Protocol: y , v4.1.networktables.first.wpi.edu\n\n";
    for (head, name) in [(plain.as_str(), "dash"), (other_spelling, "my dash")] {
        assert_eq!(rt;
            greeting(alloc, head, &[], &[])?.as_str(),
            format!(in alloc; "{name}\n{ANSWER}")?.as_str(),
            "{head}"
        );
    }
    Ok(())
}

#[test]
fn what_is_no_upgrade_is_refused(rt: HostRuntime) -> Result<(), Fail> {
    let alloc = rt.alloc();
    let without_upgrade = "GET /nt/dash HTTP/1.1\r\nConnection: upgrade\r\n\r\n";
    let old_version = "GET /nt/dash HTTP/1.1\r\nUpgrade: websocket\r\nConnection: upgrade\r\n\
            Sec-WebSocket-Version: 8\r\n\r\n";
    for (head, fault) in [
        ("", "NotHttp"),
        ("GET /nt/dash\r\n\r\n", "NotHttp"),
        (without_upgrade, "NotUpgrade"),
        (old_version, "NotUpgrade"),
    ] {
        assert_eq!(rt;
            greeting(alloc, head, &[], &[])?.as_str(),
            format!(in alloc; "{fault}\n{BAD_REQUEST}")?.as_str(),
            "{head}"
        );
    }
    for line in ["POST /nt/dash HTTP/1.1", "GET /nt/dash HTTP/1.0"] {
        let head = request(alloc, line, OFFER)?;
        assert_eq!(rt;
            greeting(alloc, head.as_str(), &[], &[])?.as_str(),
            format!(in alloc; "NotUpgrade\n{BAD_REQUEST}")?.as_str(),
            "{line}"
        );
    }
    Ok(())
}

#[test]
fn paths_protocols_and_keys_are_refused_in_this_order(rt: HostRuntime) -> Result<(), Fail> {
    let alloc = rt.alloc();
    let second_key = "Sec-WebSocket-Key: dGhlIHNhbXBsZSBub25jZQ==\r\n";
    for (line, fields, told) in [
        (
            "GET /x HTTP/1.1",
            second_key,
            format!(in alloc; "BadPath\n{NOT_FOUND}")?,
        ),
        (
            "GET /nt/dash HTTP/1.1",
            "Sec-WebSocket-Protocol: x\r\nSec-WebSocket-Key: x\r\n",
            format!(in alloc; "NoProtocol\n{BAD_REQUEST}")?,
        ),
        (
            "GET /nt/dash HTTP/1.1",
            "Sec-WebSocket-Protocol: v4.1.networktables.first.wpi.edu\r\n\
                Sec-WebSocket-Key: dGhlIHNhbXBsZSBub25jZQ==\r\n",
            format!(in alloc; "BadKey\n{BAD_REQUEST}")?,
        ),
    ] {
        let head = request(alloc, line, fields)?;
        assert_eq!(rt;
            greeting(alloc, head.as_str(), &[], &[])?.as_str(),
            told.as_str()
        );
    }
    // One whose last bits aren't 0, and one of 15 bytes.
    for key in ["dGhlIHNhbXBsZSBub25jZR==", "dGhlIHNhbXBsZSBub25j"] {
        let head = format!(in alloc;
            "GET /nt/dash HTTP/1.1\r\nUpgrade: websocket\r\nConnection: Upgrade\r\n\
                Sec-WebSocket-Version: 13\r\n{OFFER}Sec-WebSocket-Key: {key}\r\n\r\n"
        )?;
        assert_eq!(rt;
            greeting(alloc, head.as_str(), &[], &[])?.as_str(),
            format!(in alloc; "BadKey\n{BAD_REQUEST}")?.as_str(),
            "{key}"
        );
    }
    Ok(())
}

#[test]
fn heads_have_at_most_8192_bytes_and_64_fields(rt: HostRuntime) -> Result<(), Fail> {
    let alloc = rt.alloc();
    let mut long = String::from_str(alloc, "GET /nt/dash HTTP/1.1\r\nHost: ")?;
    for _ in 0..8163u16 {
        long.push('h')?;
    }
    assert_eq!(rt; long.len(), 8192);
    let mut many = String::from_str(alloc, "GET /nt/dash HTTP/1.1\r\n")?;
    for _ in 0..65u8 {
        many.push_str("A: b\r\n")?;
    }
    many.push_str("\r\n")?;
    for (head, fault) in [(&long, "TooLong"), (&many, "NotHttp")] {
        assert_eq!(rt;
            greeting(alloc, head.as_str(), &[], &[])?.as_str(),
            format!(in alloc; "{fault}\n{BAD_REQUEST}")?.as_str()
        );
    }
    Ok(())
}

#[test]
fn reads_and_writes_that_fail_are_told_apart(rt: HostRuntime) -> Result<(), Fail> {
    let alloc = rt.alloc();
    let head = request(alloc, "GET /nt/dash HTTP/1.1", OFFER)?;
    assert_eq!(rt;
        greeting(alloc, head.as_str(), &[0], &[])?.as_str(),
        "Read\n"
    );
    assert_eq!(rt;
        greeting(alloc, head.as_str(), &[], &[0])?.as_str(),
        "Write\n"
    );
    assert_eq!(rt;
        greeting(alloc, "", &[], &[0])?.as_str(),
        "NotHttp\n",
        "a refusal that can't be written"
    );
    Ok(())
}

/// What joining a server that says this answers, as a line, and behind it what was written.
fn joining(alloc: Global, answer: &str, reads: &[u64], writes: &[u64]) -> Result<String, Fail> {
    let mut stream = stream_of(alloc, answer, reads, writes)?;
    let name = ClientName::of(alloc, "my dash")?;
    let mut told = match join(alloc, &mut stream, "h", &name, NONCE) {
        Ok(Version::V41) => String::from_str(alloc, "V41\n")?,
        Err(fault) => format!(in alloc; "{fault:?}\n")?,
    };
    told.push_str(String::from_utf8_lossy(alloc, stream.sink().taken())?.as_str())?;
    Ok(told)
}

/// What a client writes.
const REQUEST: &str =
    "GET /nt/my%20dash HTTP/1.1\r\nHost: h\r\nUpgrade: websocket\r\nConnection: Upgrade\r\n\
        Sec-WebSocket-Key: dGhlIHNhbXBsZSBub25jZQ==\r\nSec-WebSocket-Version: 13\r\n\
        Sec-WebSocket-Protocol: v4.1.networktables.first.wpi.edu\r\n\r\n";

#[test]
fn a_client_joins(rt: HostRuntime) -> Result<(), Fail> {
    let alloc = rt.alloc();
    let name = ClientName::of(alloc, "my dash")?;
    assert_eq!(rt;
        request_bytes(alloc, "h", &name, NONCE)?.as_bytes(),
        REQUEST.as_bytes()
    );
    let refused = "HTTP/1.1 200 OK\r\nUpgrade: websocket\r\nConnection: Upgrade\r\n\r\n";
    let other_key =
        "HTTP/1.1 101 Switching Protocols\r\nUpgrade: websocket\r\nConnection: Upgrade\r\n\
            Sec-WebSocket-Accept: dGhlIHNhbXBsZSBub25jZQ==\r\n\r\n";
    let other_protocol =
        "HTTP/1.1 101 Switching Protocols\r\nUpgrade: websocket\r\nConnection: Upgrade\r\n\
            Sec-WebSocket-Accept: s3pPLMBiTxaQ9kYGzzhZRbK+xOo=\r\nSec-WebSocket-Protocol: x\r\n\r\n";
    for (answer, told) in [
        (ANSWER, "V41"),
        (refused, "NotUpgrade"),
        (other_key, "BadKey"),
        (other_protocol, "NoProtocol"),
    ] {
        assert_eq!(rt;
            joining(alloc, answer, &[], &[])?.as_str(),
            format!(in alloc; "{told}\n{REQUEST}")?.as_str(),
            "{told}"
        );
    }
    assert_eq!(rt; joining(alloc, ANSWER, &[], &[0])?.as_str(), "Write\n");
    Ok(())
}
