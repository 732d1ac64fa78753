//! The core of a client.

ghost use Rattle.std.specs.Prelude.{◌≡◌, ◌<◌, ◌^◌, ℕ, List, [], None, Some, Err, IfOk, IfErr, OnOk, OnErr, ◌++◌, map};
ghost use Rattle.std.specs.List.{flat_map};
ghost use Rattle.nt_client.specs.Kept.{id_of};
ghost use Rattle.nt_client.specs.Sorted.{Rise};
ghost use Rattle.nt_client.specs.declared.fault.ClientFault.{ClientFault};
ghost use Rattle.nt_client.specs.declared.fault.ClientFault.TheVariants.{Memory};
ghost use Rattle.nt_rules.specs.telling.Told.{Message, told_from};
ghost use Rattle.nt_client.specs.Calls.{State, fresh, lost, publish_fault, publish_said, published, rejoined, said_anew, set_fault, subscribe_said, subscribed, unpublish_fault, unpublished, unsubscribe_fault, unsubscribed, value_said, valued};
ghost use Rattle.nt_client.specs.Outgoing.{frames_of};
ghost use Rattle.nt_client.specs.Taking.{Says, changes_from, clock_in, ignored_from};

use crate::fault::ClientFault;
use crate::publisher::Publisher;
use crate::queue::Queue;
use crate::take::{Taken, take_texts, take_values};
use crate::topics::Topics;
use nt_control::{ClientMsg, read_server};
use nt_frames::{ValueMsg, read_frame};
use nt_link::Frame;
use nt_rules::{Held, Timed};
use nt_subs::Sub;
use nt_topics::{Props, TopicName, TypeName};
use nt_values::Value;
use std::alloc::{AllocError, Global};
use std::collections::BTreeMap;
use std::marker::Model;

/// The greatest size of a value that is read.
const MOST_VALUE: u64 = 2_097_152;

/// What a robot program or a dashboard holds and says: it publishes and subscribes, takes the
/// server's frames, and holds the topics that it was told of.
#[derive(Drop)]
pub struct Client {
    topics: Topics,
    publishers: BTreeMap<i64, Publisher>,
    subscriptions: BTreeMap<i64, Sub>,
    queue: Queue,
}

impl Model for Client {
    ghost use Rattle.nt_client.specs.Calls.{State};
    ghost use Rattle.nt_client.specs.Kept.{IsStored};
    ghost use Rattle.nt_topics.specs.contracts.properties.Props as props;
    ghost use Rattle.nt_topics.specs.contracts.properties.Update as update;
    ghost use Rattle.std.specs.Coded.{codes};

    ghost Value = { State };

    ghost coded = { Prim.hlevel (codes, props.the_row.coded, update.the_row.coded) };

    ghost view = { λ c. record {
      held = c.topics.held.items;
      publishers = c.publishers.entries;
      subscriptions = c.subscriptions.entries;
      queue = c.queue;
    } };

    ghost invariant = { λ c. IsStored c.topics };
}

impl Client {
    /// A client that holds and says nothing. It takes no memory.
    pub fn new(alloc: Global) -> Client
        ensures { result ≡ fresh }
    {
        Client {
            topics: Topics::new(alloc),
            publishers: BTreeMap::new(alloc),
            subscriptions: BTreeMap::new(alloc),
            queue: Queue::new(alloc),
        }
    }

    /// Publishes a topic under a uid that isn't in use (NetworkTables 4.1, "Publish Request
    /// Message").
    ///
    /// # Errors
    ///
    /// `UidInUse` exactly where a publisher has the uid, and want of memory.
    pub fn publish(
        &mut self,
        alloc: Global,
        uid: i64,
        name: TopicName,
        typ: TypeName,
        props: Props,
    ) -> Result<(), ClientFault>
        ensures refused { (fault : ClientFault) → publish_fault uid self.old ≡ Some fault
            → result ≡ Err fault }
        ensures memory { publish_fault uid self.old ≡ None → IfErr result (λ e. e ≡ Memory) }
        ensures ok { OnOk result (self.new ≡ published uid name typ props self.old) }
        ensures err { OnErr result (self.new ≡ self.old) }
    {
        if self.publishers.contains_key(&uid) {
            return Err(ClientFault::UidInUse);
        }
        let said = ClientMsg::Publish {
            name: name.copy(alloc)?,
            uid,
            typ: typ.copy(alloc)?,
            props: props.copy()?,
        };
        let publisher = Publisher {
            name,
            typ,
            props,
            last: None,
        };
        if self.publishers.insert(uid, publisher).is_err() {
            return Err(ClientFault::Memory);
        }
        if self.queue.say(alloc, said).is_err() {
            self.publishers.remove(&uid);
            return Err(ClientFault::Memory);
        }
        Ok(())
    }

    /// Publishes no longer under a uid, whose last value is forgotten ("Publish Release Message").
    ///
    /// # Errors
    ///
    /// `NoSuchUid` exactly where no publisher has the uid, and want of memory.
    pub fn unpublish(&mut self, alloc: Global, uid: i64) -> Result<(), ClientFault>
        ensures refused { (fault : ClientFault) → unpublish_fault uid self.old ≡ Some fault
            → result ≡ Err fault }
        ensures memory { unpublish_fault uid self.old ≡ None → IfErr result (λ e. e ≡ Memory) }
        ensures ok { OnOk result (self.new ≡ unpublished uid self.old) }
        ensures err { OnErr result (self.new ≡ self.old) }
    {
        if !self.publishers.contains_key(&uid) {
            return Err(ClientFault::NoSuchUid);
        }
        self.queue.say(alloc, ClientMsg::Unpublish { uid })?;
        self.publishers.remove(&uid);
        Ok(())
    }

    /// Sets a value, with a time in microseconds, of the topic that is published under a uid. It is
    /// the publisher's last value from then on.
    ///
    /// # Errors
    ///
    /// `NoSuchUid` exactly where no publisher has the uid, `WrongType` exactly where the value isn't
    /// of its type, and want of memory.
    pub fn set(
        &mut self,
        alloc: Global,
        uid: i64,
        time: u64,
        value: Value,
    ) -> Result<(), ClientFault>
        requires { time < 2 ^ 63 }
        ensures refused { (fault : ClientFault) → set_fault uid value self.old ≡ Some fault
            → result ≡ Err fault }
        ensures memory { set_fault uid value self.old ≡ None → IfErr result (λ e. e ≡ Memory) }
        ensures ok { OnOk result (self.new
            ≡ valued uid (record { time = time; value = value }) self.old) }
        ensures err { OnErr result (self.new ≡ self.old) }
    {
        let Some(publisher) = self.publishers.get_mut(&uid) else {
            return Err(ClientFault::NoSuchUid);
        };
        if !value.fits(publisher.typ.as_str()) {
            return Err(ClientFault::WrongType);
        }
        let said = ValueMsg {
            id: uid,
            time,
            value: value.copy(alloc)?,
        };
        self.queue.put(alloc, said)?;
        publisher.last = Some(Timed { time, value });
        Ok(())
    }

    /// Subscribes under a uid, in place of any subscription that it had ("Subscribe Message").
    pub fn subscribe(&mut self, alloc: Global, uid: i64, sub: Sub) -> Result<(), ClientFault>
        ensures memory { IfErr result (λ e. e ≡ Memory) }
        ensures ok { OnOk result (self.new ≡ subscribed uid sub self.old) }
        ensures err { OnErr result (self.new ≡ self.old) }
    {
        let said = ClientMsg::Subscribe {
            uid,
            sub: sub.copy(alloc)?,
        };
        let Ok(old) = self.subscriptions.insert(uid, sub) else {
            return Err(ClientFault::Memory);
        };
        if self.queue.say(alloc, said).is_err() {
            match old {
                Some(sub) => {
                    let _put_back = self.subscriptions.insert(uid, sub);
                }
                None => {
                    self.subscriptions.remove(&uid);
                }
            }
            return Err(ClientFault::Memory);
        }
        Ok(())
    }

    /// Is subscribed no longer under a uid ("Unsubscribe Message").
    ///
    /// # Errors
    ///
    /// `NoSuchUid` exactly where no subscription has the uid, and want of memory.
    pub fn unsubscribe(&mut self, alloc: Global, uid: i64) -> Result<(), ClientFault>
        ensures refused { (fault : ClientFault) → unsubscribe_fault uid self.old ≡ Some fault
            → result ≡ Err fault }
        ensures memory { unsubscribe_fault uid self.old ≡ None → IfErr result (λ e. e ≡ Memory) }
        ensures ok { OnOk result (self.new ≡ unsubscribed uid self.old) }
        ensures err { OnErr result (self.new ≡ self.old) }
    {
        if !self.subscriptions.contains_key(&uid) {
            return Err(ClientFault::NoSuchUid);
        }
        self.queue.say(alloc, ClientMsg::Unsubscribe { uid })?;
        self.subscriptions.remove(&uid);
        Ok(())
    }

    /// Takes a frame of the server. What it says of a topic or a name that isn't held is ignored,
    /// and so is what is no message. For want of memory it leaves the client as it was.
    pub fn take(&mut self, alloc: Global, frame: &Frame) -> Result<Taken, AllocError>
        ensures changes { (messages : List Message) (parts : ℕ) → Says frame.now messages parts
            → IfOk result (λ taken. taken.changes ≡ changes_from self.old.held messages) }
        ensures clock { (messages : List Message) (parts : ℕ) → Says frame.now messages parts
            → IfOk result (λ taken. taken.clock.items ≡ clock_in messages) }
        ensures ignored { (messages : List Message) (parts : ℕ) → Says frame.now messages parts
            → IfOk result
            (λ taken. taken.ignored ≡ ignored_from self.old.held messages parts) }
        ensures held { (messages : List Message) (parts : ℕ) → Says frame.now messages parts
            → OnOk result (self.new
            ≡ record self.old { held = told_from self.old.held messages }) }
        ensures err { OnErr result (self.new ≡ self.old) }
    {
        self.topics.note_again(alloc)?;
        match frame {
            Frame::Text(text) => {
                let read = read_server(alloc, text.as_str().as_bytes())?;
                take_texts(alloc, &mut self.topics, read)
            }
            Frame::Binary(bytes) => {
                let read = read_frame(alloc, bytes.as_bytes(), MOST_VALUE)?;
                take_values(alloc, &mut self.topics, read)
            }
        }
    }

    /// What waits to be sent, as frames, after which nothing waits. For want of memory it leaves the
    /// client as it was.
    pub fn outgoing(&mut self, alloc: Global) -> Result<Vec<Frame>, AllocError>
        ensures frames { IfOk result (λ frames. frames.items ≡ frames_of self.old.queue) }
        ensures ok { OnOk result (self.new ≡ record self.old { queue = [] }) }
        ensures err { OnErr result (self.new ≡ self.old) }
    {
        let frames = self.queue.frames(alloc)?;
        self.queue.clear();
        Ok(frames)
    }

    /// The connection is lost: the topics that it told of are forgotten, and what waits. Publishers,
    /// with their last values, and subscriptions stay. It takes no memory.
    pub fn lost(&mut self)
        ensures { self.new ≡ lost self.old }
    {
        self.topics.clear();
        self.queue.clear();
    }

    /// There is a new connection, to which all is said anew: all subscriptions, all publishers, and
    /// the last value of each whose own properties are cached. For want of memory nothing waits.
    pub fn joined(&mut self, alloc: Global) -> Result<(), AllocError>
        ensures ok { OnOk result (self.new ≡ rejoined self.old) }
        ensures err { OnErr result (self.new ≡ record self.old { queue = [] }) }
    {
        self.queue.clear();
        let said = say_anew(
            alloc,
            &mut self.queue,
            &self.publishers,
            &self.subscriptions,
        );
        if said.is_err() {
            self.queue.clear();
        }
        said
    }

    /// The topics that it holds by what it was told, by rising id.
    pub fn held(&self) -> &[Held]
        ensures held { result.now ≡ self.now.held }
        ensures rising { Rise id_of self.now.held }
    {
        self.topics.held.as_slice()
    }
}

/// Says all subscriptions.
fn say_subscriptions(
    alloc: Global,
    queue: &mut Queue,
    subscriptions: &BTreeMap<i64, Sub>,
) -> Result<(), AllocError>
    ensures { OnOk result (queue.new ≡ queue.old ++ map subscribe_said subscriptions.now.entries) }
{
    for (uid, sub) in subscriptions.iter() {
        let said = ClientMsg::Subscribe {
            uid: *uid,
            sub: sub.copy(alloc)?,
        };
        queue.say(alloc, said)?;
    }
    Ok(())
}

/// Says all publishers.
fn say_publishers(
    alloc: Global,
    queue: &mut Queue,
    publishers: &BTreeMap<i64, Publisher>,
) -> Result<(), AllocError>
    ensures { OnOk result (queue.new ≡ queue.old ++ map publish_said publishers.now.entries) }
{
    for (uid, publisher) in publishers.iter() {
        let said = ClientMsg::Publish {
            name: publisher.name.copy(alloc)?,
            uid: *uid,
            typ: publisher.typ.copy(alloc)?,
            props: publisher.props.copy()?,
        };
        queue.say(alloc, said)?;
    }
    Ok(())
}

/// Puts the last value of each publisher whose properties are cached.
fn put_last_values(
    alloc: Global,
    queue: &mut Queue,
    publishers: &BTreeMap<i64, Publisher>,
) -> Result<(), AllocError>
    ensures { OnOk result (queue.new ≡ queue.old ++ flat_map value_said publishers.now.entries) }
{
    for (uid, publisher) in publishers.iter() {
        if let Some(last) = &publisher.last
            && publisher.props.cached()
        {
            let said = ValueMsg {
                id: *uid,
                time: last.time,
                value: last.value.copy(alloc)?,
            };
            queue.put(alloc, said)?;
        }
    }
    Ok(())
}

/// Says all anew.
fn say_anew(
    alloc: Global,
    queue: &mut Queue,
    publishers: &BTreeMap<i64, Publisher>,
    subscriptions: &BTreeMap<i64, Sub>,
) -> Result<(), AllocError>
    ensures { OnOk result (queue.new
        ≡ queue.old ++ said_anew publishers.now.entries subscriptions.now.entries) }
{
    say_subscriptions(alloc, queue, subscriptions)?;
    say_publishers(alloc, queue, publishers)?;
    put_last_values(alloc, queue, publishers)
}
