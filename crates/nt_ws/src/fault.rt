//! What is wrong with a head.

ghost use Rattle.std.specs.Prelude.{◌≡◌};
ghost use Rattle.nt_ws.specs.Heads.{fault_of};

use nt_topics::PathFault;
use std::alloc::AllocError;
use thiserror::Error;

/// Why a handshake failed.
#[derive(Clone, Copy, Debug, PartialEq, Eq, Error)]
pub enum HeadFault {
    /// A read failed.
    #[error("a read failed")]
    Read,
    /// A write of the request or of the answer failed.
    #[error("a write failed")]
    Write,
    /// 8,192 bytes came, and the head hasn't ended.
    #[error("a head of too many bytes")]
    TooLong,
    /// It is no head of HTTP, has more than 64 fields, or isn't whole.
    #[error("no head of HTTP")]
    NotHttp,
    /// It asks for no upgrade to a WebSocket of version 13, or doesn't agree to it.
    #[error("no upgrade to a WebSocket")]
    NotUpgrade,
    /// The path names no client.
    #[error("a path that names no client")]
    BadPath,
    /// No known protocol is offered, or another than one that was offered is answered.
    #[error("no known protocol")]
    NoProtocol,
    /// There is no key or more than one, or it isn't 16 bytes in base64. Or the answer is to another
    /// key.
    #[error("a wrong key")]
    BadKey,
    /// Want of memory.
    #[error("out of memory")]
    Memory,
}

impl From<AllocError> for HeadFault {
    ghost use Rattle.nt_ws.specs.declared.fault.HeadFault.TheVariants.{Memory};

    ghost from_gives = { λ _ e. e ≡ Memory };

    fn from(_error: AllocError) -> HeadFault {
        HeadFault::Memory
    }
}

impl From<PathFault> for HeadFault {
    ghost from_gives = { λ p e. e ≡ fault_of p };

    fn from(fault: PathFault) -> HeadFault {
        match fault {
            PathFault::Memory => HeadFault::Memory,
            PathFault::NotNt | PathFault::NotText | PathFault::Empty | PathFault::TooLong => {
                HeadFault::BadPath
            }
        }
    }
}
