//! Rows of the outbox. Each row begins with the topic `/a`, and tells one meta topic, `$clients`.

use nt_control::write_server;
use nt_outbox::Outbox;
use nt_rules::{Batch, MetaNow, Outcome, Reply, Topic};
use nt_subs::Wanted;
use nt_table::Table;
use nt_topics::{Name, Props, TopicName, TypeName, Update};
use nt_values::{Bytes, Value};
use std::alloc::{AllocError, Global};
use std::test::Fail;

/// The connection whose outbox it is, and another one.
const OWN: u32 = 1;

const OTHER: u32 = 2;

/// The id of the meta topic.
const META: u32 = 536_870_913;

/// The moment of each drain.
const NOW: u64 = 99;

/// A call of a row. Those that take a place begin with it.
enum Call {
    /// The other connection publishes the topic, which is wanted so much.
    Begin(u64, Wanted),
    /// The other connection unpublishes it.
    End(u64),
    /// The connection itself publishes it, with this uid.
    Own(u64, i64),
    /// The other connection puts a value, with its time, to the topic, which is wanted so much.
    Put(u64, u32, i64, Wanted),
    /// The other connection changes the properties of the topic, which is wanted so much.
    Props(u64, &'static str, Wanted),
    /// The connection itself changes them.
    OwnProps(u64, &'static str),
    /// How much the topic is wanted changes. Its held value was taken at the second place.
    Rewant(u64, u64, Wanted, Wanted),
    /// Whether the topic of this id is cached changes.
    Turned(u64, u32),
    /// The meta topic has this byte now, and is wanted so much.
    Meta(u64, u8, Wanted),
    /// How much the meta topic is wanted changes.
    MetaRewant(u64, Wanted, Wanted),
    /// The meta topic ends.
    MetaEnd(u64),
    /// At most so many messages are handed.
    Drain(u32),
    /// The calls that follow are of this topic, which the other connection publishes with this uid.
    Of(&'static str, i64),
}

/// A table, the meta topic and the outbox of a connection; the topic of which the calls are, and
/// the other connection's uid of it.
#[derive(Drop)]
struct Desk {
    table: Table,
    metas: Vec<MetaNow>,
    outbox: Outbox,
    name: &'static str,
    uid: i64,
}

/// The update of this text.
fn update_of(alloc: Global, text: &str) -> Result<Update, Fail> {
    let tree = serde_json::Value::from_str(alloc, text)?;
    Ok(Update::of(alloc, &tree)?.ok_or("no update")?)
}

/// The meta topic with this byte.
fn meta_of(alloc: Global, byte: u8) -> Result<MetaNow, AllocError> {
    Ok(MetaNow {
        id: META,
        name: Name::of(alloc, "$clients")?,
        bytes: Bytes::of(alloc, &[byte])?,
    })
}

/// A batch as a line: the texts, and then each value with its topic's id and its time.
fn batch_line(alloc: Global, batch: &Batch) -> Result<String, AllocError> {
    let mut line = String::new(alloc);
    if !batch.texts.as_slice().is_empty() {
        line.push_str(write_server(alloc, batch.texts.as_slice())?.as_str())?;
    }
    for message in batch.values.as_slice() {
        let (id, time) = (message.id, message.time);
        let value = match &message.value {
            Value::Int(number) => format!(in alloc; "{id} {time} {number};")?,
            Value::Bytes(bytes) => format!(in alloc; "{id} {time} {:?};", bytes.as_bytes())?,
            _ => String::from_str(alloc, "other;")?,
        };
        line.push_str(value.as_str())?;
    }
    Ok(line)
}

impl Desk {
    fn new(alloc: Global) -> Desk {
        Desk {
            table: Table::new(alloc),
            metas: Vec::new(alloc),
            outbox: Outbox::new(alloc),
            name: "/a",
            uid: 1,
        }
    }

    /// Notes what a call of the table changed.
    fn note(
        &mut self,
        alloc: Global,
        place: u64,
        outcome: &Outcome,
        wanted: Wanted,
    ) -> Result<(), Fail> {
        let cached = match self.table.topic(self.name) {
            Some(topic) => topic.props.cached(),
            None => true,
        };
        if let Outcome::Done(changes) = outcome {
            for change in changes.as_slice() {
                self.outbox.note(alloc, place, change, cached, wanted)?;
            }
        }
        Ok(())
    }

    fn publish(
        &mut self,
        alloc: Global,
        place: u64,
        publisher: (u32, i64),
        wanted: Wanted,
    ) -> Result<(), Fail> {
        let name = TopicName::of(alloc, self.name)?;
        let typ = TypeName::of(alloc, "int")?;
        let props = Props::empty(alloc);
        let outcome = self
            .table
            .publish(alloc, publisher.0, publisher.1, name, typ, props)?;
        self.note(alloc, place, &outcome, wanted)
    }

    /// The answer to the connection's own publish.
    fn answer_publish(&mut self, alloc: Global, place: u64, uid: i64) -> Result<(), Fail> {
        let topic = self.table.topic(self.name).ok_or("no topic")?;
        let reply = Reply::Publish(uid);
        Ok(self.outbox.reply(alloc, place, topic, reply, None)?)
    }

    /// The connection's own change of properties, and the answer to it.
    fn own_props(&mut self, alloc: Global, place: u64, text: &str) -> Result<(), Fail> {
        let name = TopicName::of(alloc, self.name)?;
        self.table.set_props(alloc, &name, update_of(alloc, text)?)?;
        let update = update_of(alloc, text)?;
        let topic = self.table.topic(self.name).ok_or("no topic")?;
        Ok(
            self.outbox
                .reply(alloc, place, topic, Reply::Ack, Some(&update))?,
        )
    }

    fn props(&mut self, alloc: Global, place: u64, text: &str, wanted: Wanted) -> Result<(), Fail> {
        let name = TopicName::of(alloc, self.name)?;
        let update = update_of(alloc, text)?;
        let outcome = self.table.set_props(alloc, &name, update)?;
        self.note(alloc, place, &outcome, wanted)
    }

    fn drain(&mut self, alloc: Global, budget: u32) -> Result<String, Fail> {
        if budget == 0 || self.outbox.behind().is_some() {
            return Ok(String::from_str(alloc, "behind")?);
        }
        let batch = self
            .outbox
            .drain(alloc, NOW, budget, &self.table, &self.metas)?;
        Ok(batch_line(alloc, &batch)?)
    }

    /// A call other than a drain.
    fn call(&mut self, alloc: Global, call: &Call) -> Result<(), Fail> {
        match call {
            Call::Begin(place, wanted) => self.publish(alloc, *place, (OTHER, self.uid), *wanted),
            Call::End(place) => {
                let outcome = self.table.unpublish(alloc, OTHER, self.uid)?;
                self.note(alloc, *place, &outcome, Wanted::No)
            }
            Call::Own(place, uid) => {
                self.publish(alloc, *place, (OWN, *uid), Wanted::No)?;
                self.answer_publish(alloc, *place, *uid)
            }
            Call::Put(place, time, number, wanted) => {
                let (time, value) = (u64::from(*time), Value::Int(*number));
                let outcome = self.table.put(alloc, OTHER, self.uid, time, value)?;
                self.note(alloc, *place, &outcome, *wanted)
            }
            Call::Props(place, text, wanted) => self.props(alloc, *place, text, *wanted),
            Call::OwnProps(place, text) => self.own_props(alloc, *place, text),
            Call::Rewant(place, taken, old, new) => {
                let topic = self.table.topic(self.name).ok_or("no topic")?;
                Ok(
                    self.outbox
                        .rewant(alloc, *place, topic, *taken, *old, *new)?,
                )
            }
            Call::Meta(place, byte, wanted) => {
                let meta = meta_of(alloc, *byte)?;
                self.outbox.meta_changed(alloc, *place, &meta, *wanted)?;
                self.metas.clear();
                self.metas.push(meta)?;
                Ok(())
            }
            Call::MetaRewant(place, old, new) => {
                let meta = meta_of(alloc, 0)?;
                Ok(self.outbox.meta_rewant(alloc, *place, &meta, *old, *new)?)
            }
            Call::MetaEnd(place) => Ok(self.outbox.meta_ended(alloc, *place, META)?),
            Call::Turned(place, id) => {
                self.outbox.turned(*place, *id);
                Ok(())
            }
            Call::Of(name, uid) => {
                (self.name, self.uid) = (*name, *uid);
                Ok(())
            }
            Call::Drain(_) => Ok(()),
        }
    }

    /// Makes a call, and says what is pending and queued then, or what a drain hands.
    fn answer(&mut self, alloc: Global, call: &Call) -> Result<String, Fail> {
        if let Call::Drain(budget) = call {
            return self.drain(alloc, *budget);
        }
        self.call(alloc, call)?;
        let (pending, queued) = (self.outbox.pending(), self.outbox.queued());
        Ok(format!(in alloc; "{pending} {queued}")?)
    }
}

use Wanted::{All, Newest, No, TopicOnly};

/// Under `Newest` the announce and the value are owed, and each is handed once.
const NEWEST: &[(Call, &str)] = &[
    (Call::Begin(1, No), "0 0"),
    (Call::Rewant(3, 0, No, Newest), "1 0"),
    (Call::Put(4, 10, 7, Newest), "2 0"),
    (Call::Drain(1), ANNOUNCE),
    (Call::Drain(256), "1 10 7;"),
    (Call::Drain(256), ""),
    (Call::Put(5, 11, 8, Newest), "1 0"),
    (Call::Put(6, 12, 9, Newest), "1 0"),
    (Call::Drain(256), "1 12 9;"),
];

const ANNOUNCE: &str =
    r#"[{"method":"announce","params":{"id":1,"name":"/a","properties":{},"type":"int"}}]"#;

/// Under `All` the value is queued, and another wish keeps of it what it asks for.
const ALL: &[(Call, &str)] = &[
    (Call::Begin(1, No), "0 0"),
    (Call::Rewant(3, 0, No, All), "1 0"),
    (Call::Put(4, 10, 7, All), "2 72"),
    (Call::Rewant(5, 4, All, Newest), "2 0"),
    (Call::Rewant(6, 4, Newest, No), "0 0"),
    (Call::Put(7, 11, 8, No), "0 0"),
    (Call::Rewant(8, 7, No, Newest), "2 0"),
    (Call::Rewant(9, 7, Newest, All), "2 72"),
    (Call::Put(10, 20, 9, All), "3 144"),
    (Call::Rewant(11, 10, All, TopicOnly), "1 0"),
    (Call::Rewant(12, 10, TopicOnly, All), "2 72"),
    (Call::Drain(1), ANNOUNCE),
    (Call::Put(13, 21, 10, All), "2 144"),
    (Call::Drain(1), "1 20 9;"),
    (Call::Rewant(14, 13, All, No), "0 0"),
    (Call::Rewant(15, 13, No, All), "1 72"),
    (Call::Drain(9), "1 21 10;"),
    (Call::Rewant(16, 13, All, Newest), "0 0"),
    (Call::Rewant(17, 13, Newest, All), "0 0"),
];

/// Of two values at one place the later is handed, once; so with two changes of properties.
const TWICE: &[(Call, &str)] = &[
    (Call::Begin(1, All), "1 0"),
    (Call::Put(2, 10, 7, All), "2 72"),
    (Call::Put(2, 11, 8, All), "2 72"),
    (Call::Drain(1), ANNOUNCE),
    (Call::Drain(1), "1 11 8;"),
    (Call::Drain(256), ""),
    (Call::Props(3, r#"{"x":1}"#, All), "1 71"),
    (Call::Props(3, r#"{"x":null}"#, All), "1 74"),
    (Call::Drain(256), CHANGED),
    (Call::Drain(256), ""),
];

/// A topic that was announced ends, is born again and is wanted then: one drain tells all of it.
const REBIRTH: &[(Call, &str)] = &[
    (Call::Begin(1, No), "0 0"),
    (Call::Rewant(2, 0, No, Newest), "1 0"),
    (Call::Drain(9), ANNOUNCE),
    (Call::Rewant(3, 0, Newest, No), "0 0"),
    (Call::End(4), "1 64"),
    (Call::Begin(5, No), "1 64"),
    (Call::Put(6, 10, 7, No), "1 64"),
    (Call::Rewant(7, 6, No, Newest), "3 64"),
    (Call::Drain(256), REBORN),
    (Call::End(8), "1 64"),
    (Call::Drain(256), GONE),
    (Call::Begin(9, All), "1 0"),
    (Call::Put(10, 10, 7, All), "2 72"),
    (Call::End(11), "0 0"),
];

const REBORN: &str =
    r#"[{"method":"unannounce","params":{"id":1,"name":"/a"}},{"method":"announce","params":{"id":2,"name":"/a","properties":{},"type":"int"}}]2 10 7;"#;

const GONE: &str = r#"[{"method":"unannounce","params":{"id":2,"name":"/a"}}]"#;

/// An answered publish counts as announced. A change of properties is told where the connection
/// sent it, had the topic announced or is owed an earlier one.
const ANSWERS: &[(Call, &str)] = &[
    (Call::Begin(1, No), "0 0"),
    (Call::Props(2, r#"{"y":1}"#, No), "0 0"),
    (Call::OwnProps(3, r#"{"x":1}"#), "1 71"),
    (Call::Own(4, 5), "2 135"),
    (Call::Rewant(5, 0, No, Newest), "2 135"),
    (Call::Props(6, r#"{"y":2}"#, Newest), "3 206"),
    (Call::Drain(1), OWN_CHANGED),
    (Call::Drain(1), ANSWERED),
    (Call::Drain(256), CHANGED_BEHIND),
    (Call::Rewant(7, 0, Newest, All), "0 0"),
    (Call::Props(8, r#"{"x":null}"#, All), "1 74"),
    (Call::Own(9, 6), "2 138"),
    (Call::Drain(1), CHANGED),
    (Call::Drain(256), AGAIN),
];

const OWN_CHANGED: &str =
    r#"[{"method":"properties","params":{"ack":true,"name":"/a","update":{"x":1}}}]"#;

const ANSWERED: &str =
    r#"[{"method":"announce","params":{"id":1,"name":"/a","properties":{"x":1,"y":2},"pubuid":5,"type":"int"}}]"#;

const CHANGED_BEHIND: &str = r#"[{"method":"properties","params":{"name":"/a","update":{"y":2}}}]"#;

const CHANGED: &str = r#"[{"method":"properties","params":{"name":"/a","update":{"x":null}}}]"#;

const AGAIN: &str =
    r#"[{"method":"announce","params":{"id":1,"name":"/a","properties":{"y":2},"pubuid":6,"type":"int"}}]"#;

/// A meta topic is wanted under `All` as it is under `Newest`. Its value is owed where its bytes
/// changed since it was handed, also while it wasn't wanted.
const METAS: &[(Call, &str)] = &[
    (Call::Meta(1, 7, No), "0 0"),
    (Call::MetaRewant(2, No, All), "2 0"),
    (Call::Drain(1), META_ANNOUNCE),
    (Call::Drain(256), "536870913 99 [7];"),
    (Call::MetaRewant(3, All, Newest), "0 0"),
    (Call::MetaRewant(4, Newest, No), "0 0"),
    (Call::MetaRewant(5, No, Newest), "0 0"),
    (Call::MetaRewant(6, Newest, No), "0 0"),
    (Call::Meta(7, 8, No), "0 0"),
    (Call::MetaRewant(8, No, Newest), "1 0"),
    (Call::Meta(9, 9, Newest), "1 0"),
    (Call::Drain(256), "536870913 99 [9];"),
    (Call::Meta(10, 10, Newest), "1 0"),
    (Call::MetaEnd(11), "1 64"),
    (Call::Drain(256), META_GONE),
    (Call::Drain(256), ""),
];

const META_ANNOUNCE: &str =
    r#"[{"method":"announce","params":{"id":536870913,"name":"$clients","properties":{},"type":"msgpack"}}]"#;

const META_GONE: &str = r#"[{"method":"unannounce","params":{"id":536870913,"name":"$clients"}}]"#;

/// Of a topic that isn't cached each value is owed, also under `Newest`. What is queued stays with
/// a wish that asks for values, and is lost with one that doesn't.
const PASSING: &[(Call, &str)] = &[
    (Call::Begin(1, No), "0 0"),
    (Call::Props(2, r#"{"cached":false}"#, No), "0 0"),
    (Call::Put(3, 9, 6, No), "0 0"),
    (Call::Rewant(4, 3, No, Newest), "1 0"),
    (Call::Put(5, 10, 7, Newest), "2 72"),
    (Call::Put(6, 11, 8, Newest), "3 144"),
    (Call::Drain(1), ANNOUNCE_PASSING),
    (Call::Drain(256), "1 10 7;1 11 8;"),
    (Call::Drain(256), ""),
    (Call::Put(7, 12, 9, Newest), "1 72"),
    (Call::Rewant(8, 7, Newest, All), "1 72"),
    (Call::Put(9, 13, 10, All), "2 144"),
    (Call::Rewant(10, 9, All, Newest), "2 144"),
    (Call::Drain(1), "1 12 9;"),
    (Call::Rewant(11, 9, Newest, TopicOnly), "0 0"),
    (Call::Put(12, 14, 11, TopicOnly), "0 0"),
    (Call::Rewant(13, 12, TopicOnly, All), "0 0"),
    (Call::Put(14, 15, 12, All), "1 72"),
    (Call::Rewant(15, 14, All, No), "0 0"),
    (Call::Rewant(16, 14, No, Newest), "0 0"),
    (Call::Put(17, 16, 13, Newest), "1 72"),
    (Call::Drain(256), "1 16 13;"),
];

const ANNOUNCE_PASSING: &str =
    r#"[{"method":"announce","params":{"id":1,"name":"/a","properties":{"cached":false},"type":"int"}}]"#;

/// Values that are owed one by one come by place, and then those under `Newest`, by id.
const AMONG: &[(Call, &str)] = &[
    (Call::Begin(1, Newest), "1 0"),
    (Call::Of("/b", 2), "1 0"),
    (Call::Begin(2, All), "2 0"),
    (Call::Of("/c", 3), "2 0"),
    (Call::Begin(3, No), "2 0"),
    (Call::Props(4, r#"{"cached":false}"#, No), "2 0"),
    (Call::Rewant(5, 0, No, Newest), "3 0"),
    (Call::Put(6, 20, 1, Newest), "4 72"),
    (Call::Of("/b", 2), "4 72"),
    (Call::Put(7, 10, 2, All), "5 144"),
    (Call::Of("/a", 1), "5 144"),
    (Call::Put(8, 5, 3, Newest), "6 144"),
    (Call::Of("/c", 3), "6 144"),
    (Call::Put(9, 21, 4, Newest), "7 216"),
    (Call::Drain(1), ANNOUNCE),
    (Call::Drain(1), ANNOUNCE_B),
    (Call::Drain(1), ANNOUNCE_C),
    (Call::Drain(256), "3 20 1;2 10 2;3 21 4;1 5 3;"),
];

const ANNOUNCE_B: &str =
    r#"[{"method":"announce","params":{"id":2,"name":"/b","properties":{},"type":"int"}}]"#;

const ANNOUNCE_C: &str =
    r#"[{"method":"announce","params":{"id":3,"name":"/c","properties":{"cached":false},"type":"int"}}]"#;

/// Where it changed whether a topic is cached, no value of it is owed any more. Of a topic that
/// isn't there nothing is owed.
const TURNED: &[(Call, &str)] = &[
    (Call::Turned(1, 1), "0 0"),
    (Call::Begin(2, Newest), "1 0"),
    (Call::Put(3, 10, 7, Newest), "2 0"),
    (Call::Turned(4, 2), "2 0"),
    (Call::Turned(5, 1), "1 0"),
    (Call::Props(5, r#"{"cached":false}"#, Newest), "1 0"),
    (Call::Put(6, 11, 8, Newest), "2 72"),
    (Call::Put(7, 12, 9, Newest), "3 144"),
    (Call::Turned(8, 1), "1 0"),
    (Call::Props(8, r#"{"cached":null}"#, Newest), "1 0"),
    (Call::Rewant(9, 0, Newest, All), "1 0"),
    (Call::Put(10, 13, 10, All), "2 72"),
    (Call::Turned(11, 1), "1 0"),
    (Call::Drain(256), ANNOUNCE),
    (Call::Props(11, r#"{"cached":false}"#, All), "1 80"),
];

#[test]
fn owes_and_hands(rt: HostRuntime) -> Result<(), Fail> {
    let alloc = rt.alloc();
    for rows in [
        NEWEST, ALL, TWICE, REBIRTH, ANSWERS, METAS, PASSING, AMONG, TURNED,
    ] {
        let mut desk = Desk::new(alloc);
        for (call, wanted) in rows {
            let answer = desk.answer(alloc, call)?;
            assert_eq!(rt; answer.as_str(), *wanted);
        }
    }
    Ok(())
}

/// Puts a value of so many bytes to a topic of which each value is owed.
fn put_bytes(
    alloc: Global,
    table: &mut Table,
    outbox: &mut Outbox,
    place: u64,
    size: usize,
) -> Result<(), Fail> {
    let value = Value::Bytes(Bytes::of_vec(vec![in alloc; 0; size]?));
    let outcome = table.put(alloc, OTHER, 1, 0, value)?;
    if let Outcome::Done(changes) = &outcome {
        for change in changes.as_slice() {
            outbox.note(alloc, place, change, true, Wanted::All)?;
        }
    }
    Ok(())
}

/// What weighs, and with what the connection has fallen behind.
fn weights(alloc: Global, outbox: &Outbox) -> Result<String, AllocError> {
    let (queued, pending) = (outbox.queued(), outbox.pending());
    match outbox.behind() {
        Some(weight) => format!(in alloc; "{pending} {queued} behind {weight}"),
        None => format!(in alloc; "{pending} {queued}"),
    }
}

/// A table with one topic of the type `raw`.
fn raw_table(alloc: Global) -> Result<Table, Fail> {
    let mut table = Table::new(alloc);
    let name = TopicName::of(alloc, "/a")?;
    let typ = TypeName::of(alloc, "raw")?;
    table.publish(alloc, OTHER, 1, name, typ, Props::empty(alloc))?;
    Ok(table)
}

#[test]
fn falls_behind_past_the_limit(rt: HostRuntime) -> Result<(), Fail> {
    let alloc = rt.alloc();
    let mut table = raw_table(alloc)?;
    let mut outbox = Outbox::new(alloc);
    for place in 1..64u64 {
        put_bytes(alloc, &mut table, &mut outbox, place, 131_072)?;
    }
    assert_eq!(rt; weights(alloc, &outbox)?.as_str(), "64 8261568");
    put_bytes(alloc, &mut table, &mut outbox, 64, 131_072)?;
    assert_eq!(rt; weights(alloc, &outbox)?.as_str(), "0 0 behind 8392704");
    outbox.turned(65, 1);
    assert_eq!(rt; weights(alloc, &outbox)?.as_str(), "0 0 behind 8392704");
    put_bytes(alloc, &mut table, &mut outbox, 66, 131_072)?;
    assert_eq!(rt; weights(alloc, &outbox)?.as_str(), "0 0 behind 8392704");
    Ok(())
}

#[test]
fn is_compared_after_each_place(rt: HostRuntime) -> Result<(), Fail> {
    let alloc = rt.alloc();
    let mut table = raw_table(alloc)?;
    let mut outbox = Outbox::new(alloc);
    for place in 1..64u64 {
        put_bytes(alloc, &mut table, &mut outbox, place, 131_072)?;
    }
    put_bytes(alloc, &mut table, &mut outbox, 64, 126_976)?;
    assert_eq!(rt; weights(alloc, &outbox)?.as_str(), "65 8388608");
    put_bytes(alloc, &mut table, &mut outbox, 65, 0)?;
    assert_eq!(rt; weights(alloc, &outbox)?.as_str(), "0 0 behind 8388672");
    let topic = table.topic("/a").ok_or("no topic")?;
    outbox.rewant(alloc, 65, topic, 65, Wanted::All, Wanted::Newest)?;
    assert_eq!(rt; weights(alloc, &outbox)?.as_str(), "2 0");
    Ok(())
}
