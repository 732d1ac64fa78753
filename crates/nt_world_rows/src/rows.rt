//! Steps of a world of two clients, and how it stands after each, as a line.

ghost use Rattle.std.specs.Prelude.{◌≡◌, ◌≤◌, length, IfOk};
ghost use Rattle.nt_world.specs.World.{MayCall, MayStep};

use nt_rules::Held;
use nt_subs::{Names, Options, Sub};
use nt_topics::{Name, Props, TopicName, TypeName};
use nt_values::Value;
use nt_world::{ClientAct, World, WorldStep};
use std::alloc::{AllocError, Global};
use std::test::Fail;

/// A step, the first number of which is that of its client.
#[derive(Drop)]
pub enum Step {
    /// The uid and the name of a topic of the type `int`.
    Publish(u32, i64, &'static str),
    /// The uid, the time and the number.
    Put(u32, i64, u32, i64),
    /// The uid and a name.
    Subscribe(u32, i64, &'static str),
    Up(u32),
    /// Of at most 16 messages.
    Drain(u32),
    Down(u32),
    Cut(u32),
    Join(u32),
}

/// A step, and the line that is wanted after it: of each client its connection, the frames on its
/// wires up and down, and what it holds; and then how many entries there are.
#[derive(Drop)]
pub struct Row(pub Step, pub &'static str);

/// A publish of a topic without properties.
fn publish_of(alloc: Global, uid: i64, name: &str) -> Result<ClientAct, Fail>
    ensures { IfOk result MayCall }
{
    let tree = serde_json::Value::from_str(alloc, "{}")?;
    let props = Props::of(alloc, &tree)?.ok_or("no properties")?;
    let name = TopicName::of(alloc, name)?;
    Ok(ClientAct::Publish(uid, name, TypeName::of(alloc, "int")?, props))
}

/// A subscription to one name.
fn subscribe_of(alloc: Global, uid: i64, name: &str) -> Result<ClientAct, Fail>
    ensures { IfOk result MayCall }
{
    let mut names = Names::empty(alloc);
    names.push(Name::of(alloc, name)?)?;
    let options = Options {
        all: false,
        topicsonly: false,
        prefix: false,
    };
    Ok(ClientAct::Subscribe(uid, Sub { names, options }))
}

/// The step of a row.
fn step_of(alloc: Global, step: &Step) -> Result<WorldStep, Fail>
    ensures { IfOk result (λ step. MayStep step) }
{
    match step {
        Step::Publish(client, uid, name) => {
            Ok(WorldStep::Act(*client, publish_of(alloc, *uid, name)?))
        }
        Step::Put(client, uid, time, number) => Ok(WorldStep::Act(
            *client,
            ClientAct::Put(*uid, u64::from(*time), Value::Int(*number)),
        )),
        Step::Subscribe(client, uid, name) => {
            Ok(WorldStep::Act(*client, subscribe_of(alloc, *uid, name)?))
        }
        Step::Up(client) => Ok(WorldStep::Up(*client)),
        Step::Drain(client) => Ok(WorldStep::Drain(*client, 16)),
        Step::Down(client) => Ok(WorldStep::Down(*client)),
        Step::Cut(client) => Ok(WorldStep::Cut(*client)),
        Step::Join(client) => Ok(WorldStep::Join(*client)),
    }
}

/// A topic that is held, with its value.
fn held_text(alloc: Global, held: &Held) -> Result<String, AllocError> {
    let name = held.name.as_str();
    match &held.value {
        Some(timed) => {
            let time = timed.time;
            match &timed.value {
                Value::Int(number) => format!(in alloc; " {name}={number}@{time}"),
                _ => format!(in alloc; " {name}=another value"),
            }
        }
        None => format!(in alloc; " {name}"),
    }
}

/// How a client stands.
fn client_text(alloc: Global, world: &World, client: u32) -> Result<String, AllocError>
    requires some { 1 ≤ client }
    requires there { client ≤ length world.now.peers }
{
    let (up, down) = world.wires(client);
    let mut text = match world.conn(client) {
        Some(conn) => format!(in alloc; "{conn} {up}/{down}")?,
        None => format!(in alloc; "- {up}/{down}")?,
    };
    for held in world.client(client).held() {
        text.push_str(held_text(alloc, held)?.as_str())?;
    }
    Ok(text)
}

/// How a world of two clients stands.
fn line(alloc: Global, world: &World) -> Result<String, AllocError>
    requires { length world.now.peers ≡ 2 }
{
    let (first, second) = (client_text(alloc, world, 1)?, client_text(alloc, world, 2)?);
    let (first, second, entries) = (first.as_str(), second.as_str(), world.entries());
    format!(in alloc; "{first};{second};{entries}")
}

/// The first line that isn't the wanted one, behind its row's number, or nothing.
pub fn first_other(alloc: Global, rows: &[Row]) -> Result<String, Fail> {
    let mut world = World::new(alloc, 2)?;
    for (number, row) in rows.iter().enumerate() {
        let step = step_of(alloc, &row.0)?;
        world.run(alloc, &[step])?;
        let line = line(alloc, &world)?;
        if line.as_str() != row.1 {
            return Ok(format!(in alloc; "row {number}: {line}")?);
        }
    }
    Ok(String::new(alloc))
}
