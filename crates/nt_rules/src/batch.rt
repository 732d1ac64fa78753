//! What a drain hands, and what is answered to a connection's own message.

ghost use Rattle.std.specs.Prelude.{◌≡◌, [], IfOk};

use nt_control::ServerMsg;
use nt_frames::ValueMsg;
use nt_values::ListOf;
use std::alloc::{AllocError, Global};

/// Messages that are handed at once: the texts go before the values.
#[derive(Drop)]
pub struct Batch {
    pub texts: ListOf<ServerMsg>,
    pub values: ListOf<ValueMsg>,
}

impl Batch {
    /// No messages.
    pub fn empty(alloc: Global) -> Batch
        ensures { result ≡ record { texts = []; values = [] } }
    {
        Batch {
            texts: ListOf::empty(alloc),
            values: ListOf::empty(alloc),
        }
    }

    /// An equal batch.
    pub fn copy(&self, alloc: Global) -> Result<Batch, AllocError>
        ensures { IfOk result (λ batch. batch ≡ self.now) }
    {
        Ok(Batch {
            texts: copy_texts(alloc, self.texts.as_slice())?,
            values: copy_values(alloc, self.values.as_slice())?,
        })
    }
}

/// Equal texts.
fn copy_texts(alloc: Global, texts: &[ServerMsg]) -> Result<ListOf<ServerMsg>, AllocError>
    ensures { IfOk result (λ copied. copied ≡ texts.now) }
{
    let mut copied = Vec::with_capacity(alloc, texts.len())?;
    for text in texts {
        copied.push(text.copy(alloc)?)?;
    }
    Ok(ListOf::of_vec(copied))
}

/// Equal values.
fn copy_values(alloc: Global, values: &[ValueMsg]) -> Result<ListOf<ValueMsg>, AllocError>
    ensures { IfOk result (λ copied. copied ≡ values.now) }
{
    let mut copied = Vec::with_capacity(alloc, values.len())?;
    for value in values {
        copied.push(value.copy(alloc)?)?;
    }
    Ok(ListOf::of_vec(copied))
}

/// The answer to a message of the connection itself.
#[derive(Clone, Copy)]
pub enum Reply {
    /// An announce with the uid of its publish.
    Publish(i64),
    /// A properties message with `ack`.
    Ack,
}
