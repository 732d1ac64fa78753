//! A client and its wires.

ghost use Rattle.std.specs.Prelude.{◌≡◌, ◌≤◌, List, length, OnOk};
ghost use Rattle.nt_rules.specs.declared.act.Entry.{Entry};
ghost use Rattle.nt_world.specs.Frames.{Decoding, IsDecoding};
ghost use Rattle.nt_world.specs.World.{Hosts, Stands, MayCall, new_peer, sent, acted, after_up, after_down, after_drain, after_cut, after_join};

use crate::host::Host;
use crate::step::ClientAct;
use nt_client::{Client, ClientFault};
use nt_link::Frame;
use nt_rules::{Act, StepOut};
use nt_session::frames_of;
use std::alloc::{AllocError, Global};
use std::collections::VecDeque;
use std::marker::Model;

/// A client, its connection where it is joined, and the frames on its wires, the oldest first.
#[derive(Drop)]
pub struct Peer {
    client: Client,
    conn: Option<u32>,
    up: VecDeque<Frame>,
    down: VecDeque<Frame>,
}

impl Model for Peer {
    ghost use Rattle.nt_world.specs.World.{Peer as Seen};
    ghost use Rattle.nt_topics.specs.contracts.properties.Props as props;
    ghost use Rattle.nt_topics.specs.contracts.properties.Update as update;
    ghost use Rattle.std.specs.Coded.{codes};

    ghost Value = { Seen };

    ghost coded = { Prim.hlevel (codes, props.the_row.coded, update.the_row.coded) };

    ghost view = { λ p. record {
      client = p.client;
      conn = p.conn;
      up = p.up.items;
      down = p.down.items;
    } };
}

impl Peer {
    /// A client that holds and says nothing, and isn't joined.
    pub fn new(alloc: Global) -> Peer
        ensures { result ≡ new_peer }
    {
        Peer {
            client: Client::new(alloc),
            conn: None,
            up: VecDeque::new(alloc),
            down: VecDeque::new(alloc),
        }
    }

    /// The client.
    pub fn client(&self) -> &Client
        ensures { result.now ≡ self.now.client }
    {
        &self.client
    }

    /// The number of its open connection, where it is joined.
    pub fn conn(&self) -> Option<u32>
        ensures { result ≡ self.now.conn }
    {
        self.conn
    }

    /// How many frames are on its wires, up and down.
    pub fn wires(&self) -> (u64, u64)
        ensures { result ≡ (length self.now.up, length self.now.down) }
    {
        (self.up.len() as u64, self.down.len() as u64)
    }

    /// What waits in the client goes on its wire.
    fn send(&mut self, alloc: Global) -> Result<(), AllocError>
        ensures { OnOk result (self.new ≡ sent self.old) }
    {
        let frames = self.client.outgoing(alloc)?;
        self.up.append(&mut VecDeque::from_vec(frames))
    }

    /// Makes a call of the client, and sends what it says where it is joined. A call that is refused
    /// does nothing.
    pub fn act(&mut self, alloc: Global, act: &ClientAct) -> Result<(), AllocError>
        requires { MayCall act.now }
        ensures { OnOk result (self.new ≡ acted act.now self.old) }
    {
        match act.call(alloc, &mut self.client) {
            Ok(()) if self.conn.is_some() => self.send(alloc),
            Err(ClientFault::Memory) => Err(AllocError),
            _ => Ok(()),
        }
    }

    /// The oldest frame on the wire up comes to the server.
    pub fn up(&mut self, alloc: Global, host: &mut Host, worker: u32) -> Result<(), AllocError>
        ensures { OnOk result ((decode : Decoding) → IsDecoding decode → (past : List Entry)
            → Hosts host.old.server host.old.entries past
            → Stands host.new.server host.new.entries self.new
            (after_up decode worker self.old.conn self.old.up past self.old)) }
    {
        if let Some(conn) = self.conn
            && let Some(frame) = self.up.pop_front()
        {
            return host.say_frame(alloc, worker, conn, &frame);
        }
        Ok(())
    }

    /// The oldest frame on the wire down comes to the client.
    pub fn down(&mut self, alloc: Global) -> Result<(), AllocError>
        ensures { OnOk result ((decode : Decoding) → IsDecoding decode
            → self.new ≡ after_down decode self.old.down self.old) }
    {
        if let Some(frame) = self.down.pop_front() {
            self.client.take(alloc, &frame)?;
        }
        Ok(())
    }

    /// The server hands it at most so many messages, the frames of which go on the wire down.
    pub fn drain(
        &mut self,
        alloc: Global,
        host: &mut Host,
        worker: u32,
        budget: u32,
    ) -> Result<(), AllocError>
        requires { 1 ≤ budget }
        ensures { OnOk result ((past : List Entry)
            → Hosts host.old.server host.old.entries past
            → Stands host.new.server host.new.entries self.new
            (after_drain worker budget self.old.conn past self.old)) }
    {
        let Some(conn) = self.conn else {
            return Ok(());
        };
        match host.act(alloc, worker, Act::Drain { conn, budget })? {
            StepOut::Drained(batch) => {
                let frames = frames_of(alloc, &batch)?;
                self.down.append(&mut VecDeque::from_vec(frames))
            }
            // Nothing is handed to a connection that fell behind.
            _ => Ok(()),
        }
    }

    /// The connection closes, and what is on the wires is lost.
    pub fn cut(&mut self, alloc: Global, host: &mut Host, worker: u32) -> Result<(), AllocError>
        ensures { OnOk result ((past : List Entry)
            → Hosts host.old.server host.old.entries past
            → Stands host.new.server host.new.entries self.new
            (after_cut worker self.old.conn past self.old)) }
    {
        let Some(conn) = self.conn else {
            return Ok(());
        };
        host.act(alloc, worker, Act::Close { conn })?;
        self.up.clear();
        self.down.clear();
        self.client.lost();
        self.conn = None;
        Ok(())
    }

    /// A connection opens, where it isn't joined, and the client says all anew on it.
    pub fn join(&mut self, alloc: Global, host: &mut Host, worker: u32) -> Result<(), AllocError>
        ensures { OnOk result ((past : List Entry)
            → Hosts host.old.server host.old.entries past
            → Stands host.new.server host.new.entries self.new
            (after_join worker self.old.conn past self.old)) }
    {
        if self.conn.is_some() {
            return Ok(());
        }
        if let StepOut::Opened { conn, .. } = host.open(alloc, worker)? {
            self.conn = Some(conn);
            self.client.joined(alloc)?;
            return self.send(alloc);
        }
        Ok(())
    }
}
