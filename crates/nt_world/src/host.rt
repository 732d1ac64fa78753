//! The server of a world, whose entries are counted.

ghost use Rattle.std.specs.Prelude.{◌≡◌, List, map, IfOk, OnOk};
ghost use Rattle.std.specs.List.{AllByRecursion};
ghost use Rattle.nt_rules.specs.declared.act.Entry.{Entry};
ghost use Rattle.nt_rules.specs.declared.act.Msg.TheVariants as said;
ghost use Rattle.nt_rules.specs.history.Step.{IsPut, MayAct};
ghost use Rattle.nt_world.specs.Frames.{Decoding, IsDecoding, said_by};
ghost use Rattle.nt_world.specs.World.{Hosts, answered, with_act, with_message, with_messages, name_of};

use nt_control::{ClientMsg, read_client};
use nt_frames::{ValueMsg, read_frame};
use nt_link::Frame;
use nt_rules::{Act, MOST_VALUE, Msg, StepOut};
use nt_server::Server;
use nt_topics::{ClientName, Version};
use std::alloc::{AllocError, Global};

/// The most entries: the place of the next one is below 2^63.
const MOST_ENTRIES: u64 = 9_223_372_036_854_775_806;

/// A server, and how many entries its history has.
#[derive(Drop)]
pub struct Host {
    pub server: Server,
    pub entries: u64,
}

impl Host {
    /// An act of a worker, whose entry has its place as its moment.
    pub fn act(&mut self, alloc: Global, worker: u32, act: Act) -> Result<StepOut, AllocError>
        requires { MayAct act }
        ensures out { IfOk result (λ out. (past : List Entry)
            → Hosts self.old.server self.old.entries past → out ≡ answered worker act past) }
        ensures host { OnOk result ((past : List Entry)
            → Hosts self.old.server self.old.entries past
            → Hosts self.new.server self.new.entries (with_act worker act past)) }
    {
        if self.entries >= MOST_ENTRIES {
            drop(act);
            return Err(AllocError);
        }
        let moment = self.entries + 1;
        let stepped = self.server.step(alloc, worker, moment, act)?;
        self.entries = moment;
        Ok(stepped.out)
    }

    /// Opens the connection of a worker, named after it.
    pub fn open(&mut self, alloc: Global, worker: u32) -> Result<StepOut, AllocError>
        ensures out { IfOk result (λ out. (past : List Entry)
            → Hosts self.old.server self.old.entries past
            → out ≡ answered worker (Act.Open (name_of worker) Version.V41) past) }
        ensures host { OnOk result ((past : List Entry)
            → Hosts self.old.server self.old.entries past
            → Hosts self.new.server self.new.entries
            (with_act worker (Act.Open (name_of worker) Version.V41) past)) }
    {
        let text = format!(in alloc; "client{worker}")?;
        // The name is within the limits, so that nothing but want of memory comes.
        let Ok(name) = ClientName::of(alloc, text.as_str()) else {
            return Err(AllocError);
        };
        let version = Version::V41;
        self.act(alloc, worker, Act::Open { name, version })
    }

    /// A message of a connection, whatever it is answered. A question for the time makes no entry.
    fn say(&mut self, alloc: Global, worker: u32, conn: u32, msg: Msg) -> Result<(), AllocError>
        requires { IsPut msg }
        ensures { OnOk result ((past : List Entry)
            → Hosts self.old.server self.old.entries past
            → Hosts self.new.server self.new.entries (with_message worker conn msg past)) }
    {
        if let Msg::Put(value) = &msg
            && value.id == -1
        {
            drop(msg);
            return Ok(());
        }
        self.act(alloc, worker, Act::Said { conn, msg })?;
        Ok(())
    }

    /// The control messages of a text frame, in order.
    fn say_controls(
        &mut self,
        alloc: Global,
        worker: u32,
        conn: u32,
        msgs: Vec<ClientMsg>,
    ) -> Result<(), AllocError>
        ensures { OnOk result ((past : List Entry)
            → Hosts self.old.server self.old.entries past
            → Hosts self.new.server self.new.entries
            (with_messages worker conn (map said.Control msgs.items) past)) }
    {
        for msg in msgs {
            self.say(alloc, worker, conn, Msg::Control(msg))?;
        }
        Ok(())
    }

    /// The values of a binary frame, in order.
    fn say_values(
        &mut self,
        alloc: Global,
        worker: u32,
        conn: u32,
        values: Vec<ValueMsg>,
    ) -> Result<(), AllocError>
        requires { AllByRecursion (λ v. IsPut (said.Put v)) values.items }
        ensures { OnOk result ((past : List Entry)
            → Hosts self.old.server self.old.entries past
            → Hosts self.new.server self.new.entries
            (with_messages worker conn (map said.Put values.items) past)) }
    {
        for value in values {
            self.say(alloc, worker, conn, Msg::Put(value))?;
        }
        Ok(())
    }

    /// The messages of a frame of a connection, in order. What is none is passed over.
    pub fn say_frame(
        &mut self,
        alloc: Global,
        worker: u32,
        conn: u32,
        frame: &Frame,
    ) -> Result<(), AllocError>
        ensures { OnOk result ((decode : Decoding) → IsDecoding decode → (past : List Entry)
            → Hosts self.old.server self.old.entries past
            → Hosts self.new.server self.new.entries
            (with_messages worker conn (said_by decode frame.now) past)) }
    {
        match frame {
            Frame::Text(text) => {
                let read = read_client(alloc, text.as_str().as_bytes())?;
                self.say_controls(alloc, worker, conn, read.msgs)
            }
            Frame::Binary(bytes) => {
                let read = read_frame(alloc, bytes.as_bytes(), MOST_VALUE)?;
                self.say_values(alloc, worker, conn, read.messages)
            }
        }
    }
}
