//! Both sides of a handshake over a stream.

ghost use Rattle.std.specs.Prelude.{◌≡◌, Err};
ghost use Rattle.nt_link.specs.Causes.{Rose};
ghost use Rattle.nt_ws.specs.Streams.{Counts, TellsBy, Greets, Joins};

use crate::answer::read_answer;
use crate::fault::HeadFault;
use crate::request::{Request, read_request};
use crate::text::{answer_bytes, refusal_of, request_bytes};
use nt_link::{Stream, write_all};
use nt_topics::{ClientName, Version};
use std::alloc::Global;

/// Writes bytes, and reads nothing.
fn tell<T: Stream>(stream: &mut T, bytes: &[u8]) -> Result<(), HeadFault>
    ensures tells { TellsBy (record {
      before = T.taken stream.old;
      now = T.taken stream.new;
      faults_before = T.Sink.faults stream.old;
      faults_now = T.Sink.faults stream.new;
    })
        bytes.now result }
    ensures left { T.left stream.new ≡ T.left stream.old }
    ensures reads { T.Source.faults stream.new ≡ T.Source.faults stream.old }
    ensures writes { Counts (T.Sink.faults stream.old) (T.Sink.faults stream.new) }
{
    match write_all(stream, bytes) {
        Ok(()) => Ok(()),
        Err(_) => Err(HeadFault::Write),
    }
}

/// Greets a peer: reads the head of its request, and writes the answer to it, or the refusal. Answers
/// the peer's name and the version that was picked.
///
/// # Errors
///
/// Those of [`read_request`], of which the peer is told: `404 Not Found` after `BadPath`, nothing after
/// `Read` and want of memory, and `400 Bad Request` after each other. Where that can't be written the
/// fault is the same. `Write` comes only where the answer was being written and the count of faults of
/// the stream, as a sink, rose.
pub fn greet<T: Stream>(alloc: Global, stream: &mut T) -> Result<(ClientName, Version), HeadFault>
    ensures greets { Greets (T.left stream.old) (T.left stream.new)
        (record {
          before = T.taken stream.old;
          now = T.taken stream.new;
          faults_before = T.Sink.faults stream.old;
          faults_now = T.Sink.faults stream.new;
        })
        result }
    ensures failed { result ≡ Err HeadFault.Read →
        Rose (T.Source.faults stream.old) (T.Source.faults stream.new) }
    ensures reads { Counts (T.Source.faults stream.old) (T.Source.faults stream.new) }
    ensures writes { Counts (T.Sink.faults stream.old) (T.Sink.faults stream.new) }
{
    match read_request(alloc, stream) {
        Ok(request) => {
            let bytes = answer_bytes(alloc, &request)?;
            tell(stream, bytes.as_bytes())?;
            let Request {
                name,
                version,
                key: _,
            } = request;
            Ok((name, version))
        }
        Err(fault) => {
            let _ = tell(stream, refusal_of(fault));
            Err(fault)
        }
    }
}

/// Joins a server: writes the request of a client of this name to this host, and reads the answer. The
/// key is 16 random bytes, for this request alone.
///
/// # Errors
///
/// `Write` comes only where the request was being written and the count of faults of the stream, as a
/// sink, rose; nothing was read then. The others are those of [`read_answer`].
pub fn join<T: Stream>(
    alloc: Global,
    stream: &mut T,
    host: &str,
    name: &ClientName,
    key: &[u8; 16],
) -> Result<Version, HeadFault>
    ensures joins { Joins (record { host = host.now; name = name.now; nonce = key.now })
        (T.left stream.old) (T.left stream.new)
        (record {
          before = T.taken stream.old;
          now = T.taken stream.new;
          faults_before = T.Sink.faults stream.old;
          faults_now = T.Sink.faults stream.new;
        })
        result }
    ensures failed { result ≡ Err HeadFault.Read →
        Rose (T.Source.faults stream.old) (T.Source.faults stream.new) }
    ensures reads { Counts (T.Source.faults stream.old) (T.Source.faults stream.new) }
    ensures writes { Counts (T.Sink.faults stream.old) (T.Sink.faults stream.new) }
{
    let request = request_bytes(alloc, host, name, key)?;
    tell(stream, request.as_bytes())?;
    read_answer(alloc, stream, key)
}
