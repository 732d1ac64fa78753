//! Why a call of a client is refused.

ghost use Rattle.std.specs.Prelude.{◌≡◌};
ghost use Rattle.nt_client.specs.declared.fault.ClientFault.TheVariants.{Memory};

use std::alloc::AllocError;
use thiserror::Error;

/// Why a call of a client is refused. After one the client is as it was.
#[derive(Clone, Copy, Debug, PartialEq, Eq, Error)]
pub enum ClientFault {
    /// The client has a publisher with this uid.
    #[error("the uid is in use")]
    UidInUse,
    /// It has no publisher, or no subscription, with this uid.
    #[error("no such uid")]
    NoSuchUid,
    /// The value isn't of the publisher's type.
    #[error("a value of another type")]
    WrongType,
    /// Want of memory.
    #[error("out of memory")]
    Memory,
}

impl From<AllocError> for ClientFault {
    ghost from_gives = { λ _ e. e ≡ Memory };

    fn from(_error: AllocError) -> ClientFault {
        ClientFault::Memory
    }
}
