//! The steps of a world.

ghost use Rattle.std.specs.Prelude.{◌≡◌, ◌≢◌, Some, None, IfErr, OnOk, OnErr};
ghost use Rattle.nt_world.specs.World.{MayCall, call_fault, called, client_of};

use nt_client::{Client, ClientFault};
use nt_subs::Sub;
use nt_topics::{Props, TopicName, TypeName};
use nt_values::Value;
use std::alloc::Global;

/// A call on a client.
#[derive(Drop)]
pub enum ClientAct {
    /// It publishes a topic of this name and type, with these properties, under a uid.
    Publish(i64, TopicName, TypeName, Props),
    /// It publishes no longer under a uid.
    Unpublish(i64),
    /// It sets a value, with its time in microseconds, of the topic that it publishes under a uid.
    Put(i64, u64, Value),
    /// It subscribes under a uid.
    Subscribe(i64, Sub),
    /// It is subscribed no longer under a uid.
    Unsubscribe(i64),
}

impl ClientAct {
    /// Makes the call.
    ///
    /// # Errors
    ///
    /// The fault with which the client refuses it, and want of memory.
    pub fn call(&self, alloc: Global, client: &mut Client) -> Result<(), ClientFault>
        requires { MayCall self.now }
        ensures ok { OnOk result (client.new ≡ called self.now client.old) }
        ensures counts { OnOk result (call_fault self.now client.old ≡ None) }
        ensures refused { IfErr result (λ e. e ≢ ClientFault.Memory
            → call_fault self.now client.old ≡ Some e) }
        ensures err { OnErr result (client.new ≡ client.old) }
    {
        match self {
            ClientAct::Publish(uid, name, typ, props) => {
                let (name, typ) = (name.copy(alloc)?, typ.copy(alloc)?);
                client.publish(alloc, *uid, name, typ, props.copy()?)
            }
            ClientAct::Unpublish(uid) => {
                let uid = *uid;
                client.unpublish(alloc, uid)
            }
            ClientAct::Put(uid, time, value) => client.set(alloc, *uid, *time, value.copy(alloc)?),
            ClientAct::Subscribe(uid, sub) => client.subscribe(alloc, *uid, sub.copy(alloc)?),
            ClientAct::Unsubscribe(uid) => {
                let uid = *uid;
                client.unsubscribe(alloc, uid)
            }
        }
    }
}

/// One step of a world, each of one client, by its number from 1.
#[derive(Drop)]
pub enum WorldStep {
    /// The client's call; what it says goes on its wire where it is joined.
    Act(u32, ClientAct),
    /// The oldest frame on its wire up comes to the server.
    Up(u32),
    /// The server hands it at most so many messages, which go on its wire down.
    Drain(u32, u32),
    /// The oldest frame on its wire down comes to the client.
    Down(u32),
    /// Its connection is cut, and what is on its wires is lost.
    Cut(u32),
    /// It connects, and says all anew.
    Join(u32),
}

impl WorldStep {
    /// The number of the client whose step it is.
    pub fn client(&self) -> u32
        ensures { result ≡ client_of self.now }
    {
        match self {
            WorldStep::Act(client, _)
            | WorldStep::Up(client)
            | WorldStep::Drain(client, _)
            | WorldStep::Down(client)
            | WorldStep::Cut(client)
            | WorldStep::Join(client) => *client,
        }
    }
}
