//! What waits to be sent.

ghost use Rattle.std.specs.Prelude.{◌≡◌, ◌++◌, ◌∷◌, [], map, IfOk, OnOk, OnErr};
ghost use Rattle.nt_rules.specs.declared.act.Msg.TheVariants.{Control, Put};
ghost use Rattle.nt_client.specs.Outgoing.{frames_of, laid};

use nt_control::{ClientMsg, write_client};
use nt_frames::{ValueMsg, write_frame};
use nt_link::Frame;
use nt_rules::Msg;
use nt_values::ListOf;
use std::alloc::{AllocError, Global};
use std::marker::Model;

/// Messages of one kind that follow one another.
#[derive(Drop)]
pub enum Run {
    Controls(ListOf<ClientMsg>),
    Values(ListOf<ValueMsg>),
}

/// What waits to be sent, in longest runs. Contracts see the messages, the oldest first.
#[derive(Drop)]
pub struct Queue {
    runs: Vec<Run>,
}

impl Model for Queue {
    ghost use Rattle.std.specs.Prelude.{◌≡◌, List};
    ghost use Rattle.nt_rules.specs.declared.act.Msg.{Msg};
    ghost use Rattle.nt_client.specs.Outgoing.{runs_of, messages_in};
    ghost use Rattle.nt_topics.specs.contracts.properties.Props as props;
    ghost use Rattle.nt_topics.specs.contracts.properties.Update as update;
    ghost use Rattle.std.specs.Coded.{codes};

    ghost Value = { List Msg };

    ghost coded = { Prim.hlevel (codes, props.the_row.coded, update.the_row.coded) };

    ghost view = { λ q. messages_in q.runs.items };

    ghost invariant = { λ q. q.runs.items ≡ runs_of (messages_in q.runs.items) };
}

impl Run {
    /// The frame of the run.
    fn laid(&self, alloc: Global) -> Result<Frame, AllocError>
        ensures { IfOk result (λ frame. frame ≡ laid self.now) }
    {
        match self {
            Run::Controls(msgs) => Ok(Frame::Text(write_client(alloc, msgs.as_slice())?)),
            Run::Values(values) => Ok(Frame::Binary(write_frame(alloc, values.as_slice())?)),
        }
    }
}

impl Queue {
    /// Nothing waits.
    pub fn new(alloc: Global) -> Queue
        ensures { result ≡ [] }
    {
        Queue {
            runs: Vec::new(alloc),
        }
    }

    /// Adds a control message at the end. For want of memory it leaves the queue as it was.
    pub fn say(&mut self, alloc: Global, msg: ClientMsg) -> Result<(), AllocError>
        ensures ok { OnOk result (self.new ≡ self.old ++ Control msg ∷ []) }
        ensures err { OnErr result (self.new ≡ self.old) }
    {
        let len = self.runs.len();
        if len > 0 {
            match &mut self.runs[len - 1] {
                Run::Controls(msgs) => return msgs.push(msg),
                Run::Values(_) => {}
            }
        }
        let mut msgs = ListOf::empty(alloc);
        msgs.push(msg)?;
        self.runs.push(Run::Controls(msgs))?;
        Ok(())
    }

    /// Adds a value at the end. For want of memory it leaves the queue as it was.
    pub fn put(&mut self, alloc: Global, value: ValueMsg) -> Result<(), AllocError>
        ensures ok { OnOk result (self.new ≡ self.old ++ Put value ∷ []) }
        ensures err { OnErr result (self.new ≡ self.old) }
    {
        let len = self.runs.len();
        if len > 0 {
            match &mut self.runs[len - 1] {
                Run::Values(values) => return values.push(value),
                Run::Controls(_) => {}
            }
        }
        let mut values = ListOf::empty(alloc);
        values.push(value)?;
        self.runs.push(Run::Values(values))?;
        Ok(())
    }

    /// The frames of all that waits.
    pub fn frames(&self, alloc: Global) -> Result<Vec<Frame>, AllocError>
        ensures { IfOk result (λ frames. frames.items ≡ frames_of self.now) }
    {
        let mut frames = Vec::with_capacity(alloc, self.runs.len())?;
        for run in &self.runs {
            frames.push(run.laid(alloc)?)?;
        }
        Ok(frames)
    }

    /// Forgets all that waits.
    pub fn clear(&mut self)
        ensures { self.new ≡ [] }
    {
        self.runs.clear();
    }
}
