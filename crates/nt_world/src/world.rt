//! The world.

ghost use Rattle.std.specs.Prelude.{◌≡◌, ◌≤◌, false, true, Some, List, length, option_map, IfOk, OnOk, OnErr};
ghost use Rattle.std.specs.List.{AllByRecursion};
ghost use Rattle.nt_rules.specs.declared.act.Entry.{Entry};
ghost use Rattle.nt_world.specs.Frames.{Decoding, IsDecoding};
ghost use Rattle.nt_world.specs.World.{Scene, StandsFor, Runs, Hosts, Stands, MayStep, peer_of, turned, beginning, with_step, with_steps};

use crate::host::Host;
use crate::peer::Peer;
use crate::step::WorldStep;
use nt_client::Client;
use nt_server::Server;
use std::alloc::{AllocError, Global};
use std::marker::Model;

/// A server that starts empty, and clients, each with a wire of frames up to it and one down from it.
/// One that met want of memory has failed for good. Contracts see whether it failed, its server, how
/// many entries it made, and its clients.
#[derive(Drop)]
pub struct World {
    failed: bool,
    host: Host,
    peers: Vec<Peer>,
}

impl Model for World {
    ghost use Rattle.nt_world.specs.World.{WorldState};
    ghost use Rattle.nt_topics.specs.contracts.properties.Props as props;
    ghost use Rattle.nt_topics.specs.contracts.properties.Update as update;
    ghost use Rattle.std.specs.Coded.{codes};

    ghost Value = { WorldState };

    ghost coded = { Prim.hlevel (codes, props.the_row.coded, update.the_row.coded) };

    ghost view = { λ w. record {
      failed = w.failed;
      server = w.host.server;
      entries = w.host.entries;
      peers = w.peers.items;
    } };
}

impl World {
    /// A world of so many clients, which hold and say nothing and aren't joined.
    pub fn new(alloc: Global, clients: u32) -> Result<World, AllocError>
        requires some { 1 ≤ clients }
        requires few { clients ≤ 64 }
        ensures stands { IfOk result (λ world. StandsFor world (beginning clients)) }
        ensures count { IfOk result (λ world. length world.peers ≡ clients) }
    {
        let mut peers = Vec::new(alloc);
        for _ in 0..clients {
            peers.push(Peer::new(alloc))?;
        }
        let server = Server::new(alloc, 0)?;
        let host = Host { server, entries: 0 };
        Ok(World {
            failed: false,
            host,
            peers,
        })
    }

    /// Makes these steps, one after another.
    ///
    /// # Errors
    ///
    /// Want of memory alone, and so too at the entry of the place 2^63 - 1. The world has then failed:
    /// nothing is said of what it holds any more, and each later run answers the same.
    pub fn run(&mut self, alloc: Global, steps: &[WorldStep]) -> Result<(), AllocError>
        requires { AllByRecursion MayStep steps.now }
        ensures stands { OnOk result ((decode : Decoding) → IsDecoding decode → (scene : Scene)
            → StandsFor self.old scene → StandsFor self.new (with_steps decode steps.now scene)) }
        ensures count { length self.new.peers ≡ length self.old.peers }
        ensures well { OnOk result (self.old.failed ≡ false) }
        ensures failed { OnErr result (self.new.failed ≡ true) }
    {
        if self.failed {
            return Err(AllocError);
        }
        let done = run_all(alloc, &mut self.host, &mut self.peers, steps);
        self.failed = done.is_err();
        done
    }

    /// The server.
    pub fn server(&self) -> &Server
        ensures { result.now ≡ self.now.server }
    {
        &self.host.server
    }

    /// How many entries its history has.
    pub fn entries(&self) -> u64
        ensures { result ≡ self.now.entries }
    {
        self.host.entries
    }

    /// The client of this number, from 1.
    pub fn client(&self, client: u32) -> &Client
        requires some { 1 ≤ client }
        requires there { client ≤ length self.now.peers }
        ensures { option_map (λ p. p.client) (peer_of client self.now.peers) ≡ Some result.now }
    {
        self.peers[client as usize - 1].client()
    }

    /// How many frames are under way, up and down, on the wires of the client of this number.
    pub fn wires(&self, client: u32) -> (u64, u64)
        requires some { 1 ≤ client }
        requires there { client ≤ length self.now.peers }
        ensures { option_map (λ p. (length p.up, length p.down)) (peer_of client self.now.peers)
            ≡ Some result }
    {
        self.peers[client as usize - 1].wires()
    }

    /// The number of the open connection of the client of this number, where it is joined.
    pub fn conn(&self, client: u32) -> Option<u32>
        requires some { 1 ≤ client }
        requires there { client ≤ length self.now.peers }
        ensures { option_map (λ p. p.conn) (peer_of client self.now.peers) ≡ Some result }
    {
        self.peers[client as usize - 1].conn()
    }
}

/// Makes steps, one after another.
fn run_all(
    alloc: Global,
    host: &mut Host,
    peers: &mut Vec<Peer>,
    steps: &[WorldStep],
) -> Result<(), AllocError>
    requires { AllByRecursion MayStep steps.now }
    ensures count { length peers.new.items ≡ length peers.old.items }
    ensures runs { OnOk result ((decode : Decoding) → IsDecoding decode → (scene : Scene)
        → Runs host.old.server host.old.entries peers.old.items scene
        → Runs host.new.server host.new.entries peers.new.items (with_steps decode steps.now scene)) }
{
    for step in steps {
        make(alloc, host, peers, step)?;
    }
    Ok(())
}

/// Makes one step. One of a client that isn't there does nothing.
fn make(
    alloc: Global,
    host: &mut Host,
    peers: &mut Vec<Peer>,
    step: &WorldStep,
) -> Result<(), AllocError>
    requires { MayStep step.now }
    ensures count { length peers.new.items ≡ length peers.old.items }
    ensures runs { OnOk result ((decode : Decoding) → IsDecoding decode → (scene : Scene)
        → Runs host.old.server host.old.entries peers.old.items scene
        → Runs host.new.server host.new.entries peers.new.items (with_step decode step.now scene)) }
{
    let client = step.client();
    if client == 0 || client as usize > peers.len() {
        return Ok(());
    }
    turn(alloc, host, &mut peers[client as usize - 1], step)
}

/// Makes a step of this client.
fn turn(alloc: Global, host: &mut Host, peer: &mut Peer, step: &WorldStep) -> Result<(), AllocError>
    requires { MayStep step.now }
    ensures { OnOk result ((decode : Decoding) → IsDecoding decode → (past : List Entry)
        → Hosts host.old.server host.old.entries past
        → Stands host.new.server host.new.entries peer.new (turned decode step.now past peer.old)) }
{
    match step {
        WorldStep::Act(_, act) => peer.act(alloc, act),
        WorldStep::Up(worker) => peer.up(alloc, host, *worker),
        WorldStep::Drain(worker, budget) => peer.drain(alloc, host, *worker, *budget),
        WorldStep::Down(_) => peer.down(alloc),
        WorldStep::Cut(worker) => peer.cut(alloc, host, *worker),
        WorldStep::Join(worker) => peer.join(alloc, host, *worker),
    }
}
