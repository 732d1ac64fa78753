//! What serving a connection comes to.

ghost use Rattle.std.specs.Prelude.{◌≡◌, ◌<◌, ◌^◌};
ghost use Rattle.nt_serve.specs.Sessions.{break_of};
ghost use Rattle.nt_serve.specs.declared.served.Break.TheVariants as broken;

use nt_wire::LinkFault;
use std::alloc::AllocError;

/// A connection that was served: its number, and 0 where it wasn't opened; how many of its messages,
/// and how many parts of its frames that are no message, were ignored, as far as the type counts;
/// and why it is served no longer.
#[derive(Clone, Copy)]
pub struct Served {
    pub conn: u32,
    pub ignored: u64,
    pub end: ServedEnd,
}

impl Served {
    pub(crate) fn new(conn: u32, ignored: u64, end: ServedEnd) -> Served
        ensures value { result ≡ record { conn = conn; ignored = ignored; end = end } }
        ensures within { result.ignored < 2 ^ 64 }
    {
        Served { conn, ignored, end }
    }
}

/// Why a connection is served no longer.
#[derive(Clone, Copy)]
pub enum ServedEnd {
    /// No frame comes any more.
    Ended,
    /// The link failed.
    LinkFault,
    /// It fell behind, with what weighs so much.
    Behind(u64),
    /// The server is shut.
    Shut,
    /// It wasn't opened.
    NotOpened,
    /// Want of memory.
    Memory,
}

/// What cuts a round.
#[derive(Clone, Copy)]
pub(crate) enum Break {
    /// The link failed.
    Link,
    /// Want of memory outside the hall.
    Memory,
    /// The hall has refused an act for want of memory.
    Failed,
}

impl From<AllocError> for Break {
    ghost from_gives = { λ _ b. b ≡ broken.Memory };

    fn from(_error: AllocError) -> Break {
        Break::Memory
    }
}

impl From<LinkFault> for Break {
    ghost from_gives = { λ fault b. b ≡ break_of fault };

    fn from(fault: LinkFault) -> Break {
        match fault {
            LinkFault::Failed => Break::Link,
            LinkFault::Memory => Break::Memory,
        }
    }
}
