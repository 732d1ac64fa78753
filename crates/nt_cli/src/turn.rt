//! The turns of a desk: each line is said, and then what its connection is owed is printed.

ghost use Rattle.std.specs.Prelude.{◌≡◌, ◌≤◌, ◌<◌, ◌^◌, ◌++◌, List, [], ◌∷◌, IfOk, OnOk, IsErrOf};
ghost use Rattle.std.specs.List.{AllByRecursion};
ghost use Rattle.nt_link.specs.Causes.{Rose, IsLater};
ghost use Rattle.nt_rules.specs.declared.act.Entry.{Entry};
ghost use Rattle.nt_rules.specs.history.Step.{IsPut};
ghost use Rattle.nt_cli.specs.Desk.{Decoding, IsDecoding, opened, count_owed, answer_to, answers_to, with_message, with_drain, with_messages, batch, batch_lines, drained, after_drains, turn_text, after_turn};
ghost use Rattle.nt_cli.specs.DeskRun.{IsConnected};
ghost use Rattle.nt_tools.specs.Printing.{Prints};

use crate::desk_output::print_frames;
use crate::messages::messages_in;
use nt_link::{Frame, Sink};
use nt_rules::{Act, Msg, StepOut};
use nt_server::Server;
use nt_session::{clock_answer, frames_of};
use nt_tools::ToolFault;
use nt_topics::{ClientName, Version};
use std::alloc::{AllocError, Global};

/// The worker that does all acts, and the number of its connection.
const WORKER: u32 = 1;

const CONN: u32 = 1;

/// The most messages of one drain.
const BUDGET: u32 = 256;

/// A server at which the desk's connection is open.
pub fn open_server(alloc: Global) -> Result<Server, AllocError>
    ensures { IfOk result (λ server. IsConnected server opened) }
{
    let mut server = Server::new(alloc, 0)?;
    // The name is within the limits, so that nothing but want of memory comes.
    let Ok(name) = ClientName::of(alloc, "desk") else {
        return Err(AllocError);
    };
    server.step(
        alloc,
        WORKER,
        0,
        Act::Open {
            name,
            version: Version::V41,
        },
    )?;
    Ok(server)
}

/// Says what a line says, and prints the answers to its questions for the time, which is the line's
/// number, and what the connection is owed then.
pub fn answer_line<O: Sink>(
    alloc: Global,
    server: &mut Server,
    number: u64,
    line: &[u8],
    out: &mut O,
) -> Result<(), ToolFault>
    requires { number < 2 ^ 63 }
    ensures prints { (decode : Decoding) → IsDecoding decode → (past : List Entry)
        → IsConnected server.old past
        → Prints (turn_text decode past number line.now) (O.taken out.old) (O.taken out.new) result }
    ensures connected { (decode : Decoding) → IsDecoding decode
        → OnOk result ((past : List Entry) → IsConnected server.old past
        → IsConnected server.new (after_turn decode past number line.now)) }
    ensures failed { IsErrOf result ToolFault.Write → Rose (O.faults out.old) (O.faults out.new) }
    ensures out { IsLater O.faults O.aside out.old out.new }
{
    let msgs = messages_in(alloc, line)?;
    let answers = say_all(alloc, server, number, msgs)?;
    print_frames(alloc, out, &answers)?;
    drain_all(alloc, server, number, out)
}

/// Says each message in turn, and gives the answers to those that ask for the time.
fn say_all(
    alloc: Global,
    server: &mut Server,
    moment: u64,
    msgs: Vec<Msg>,
) -> Result<Vec<Frame>, AllocError>
    requires fit { AllByRecursion IsPut msgs.items }
    requires moment { moment < 2 ^ 63 }
    ensures connected { OnOk result ((past : List Entry) → IsConnected server.old past
        → IsConnected server.new (with_messages past moment msgs.items)) }
    ensures answers { IfOk result (λ answers. answers.items ≡ answers_to moment msgs.items) }
{
    let mut answers = Vec::new(alloc);
    for msg in msgs {
        say(alloc, server, moment, msg, &mut answers)?;
    }
    Ok(answers)
}

/// Says a message, or adds the answer to one that asks for the time.
fn say(
    alloc: Global,
    server: &mut Server,
    moment: u64,
    msg: Msg,
    answers: &mut Vec<Frame>,
) -> Result<(), AllocError>
    requires fit { IsPut msg }
    requires moment { moment < 2 ^ 63 }
    ensures connected { OnOk result ((past : List Entry) → IsConnected server.old past
        → IsConnected server.new (with_message past moment msg)) }
    ensures answers { OnOk result
        (answers.new.items ≡ answers.old.items ++ answers_to moment (msg ∷ [])) }
{
    if let Some(answer) = answer_to(alloc, moment, &msg)? {
        drop(msg);
        answers.push(answer)?;
        return Ok(());
    }
    server.step(alloc, WORKER, moment, Act::Said { conn: CONN, msg })?;
    Ok(())
}

/// The answer to a message that asks for the time.
fn answer_to(alloc: Global, moment: u64, msg: &Msg) -> Result<Option<Frame>, AllocError>
    ensures { IfOk result (λ answer. answer ≡ answer_to moment msg.now) }
{
    match msg {
        Msg::Put(value) if value.id == -1 => Ok(Some(clock_answer(alloc, value, moment)?)),
        _ => Ok(None),
    }
}

/// Prints the next batch of what the connection is owed.
fn drain<O: Sink>(
    alloc: Global,
    server: &mut Server,
    moment: u64,
    out: &mut O,
) -> Result<(), ToolFault>
    requires { moment < 2 ^ 63 }
    ensures prints { (past : List Entry) → IsConnected server.old past
        → Prints (batch_lines (batch past moment)) (O.taken out.old) (O.taken out.new) result }
    ensures connected { OnOk result ((past : List Entry) → IsConnected server.old past
        → IsConnected server.new (with_drain past moment)) }
    ensures failed { IsErrOf result ToolFault.Write → Rose (O.faults out.old) (O.faults out.new) }
    ensures out { IsLater O.faults O.aside out.old out.new }
{
    let act = Act::Drain {
        conn: CONN,
        budget: BUDGET,
    };
    let stepped = server.step(alloc, WORKER, moment, act)?;
    match &stepped.out {
        StepOut::Drained(batch) => {
            let frames = frames_of(alloc, batch)?;
            print_frames(alloc, out, &frames)
        }
        // Nothing is handed to a connection that fell behind.
        _ => Ok(()),
    }
}

/// Drains until nothing is owed. A drain hands at least one message, so that as many drains are
/// enough as messages are owed.
fn drain_all<O: Sink>(
    alloc: Global,
    server: &mut Server,
    moment: u64,
    out: &mut O,
) -> Result<(), ToolFault>
    requires { moment < 2 ^ 63 }
    ensures prints { (past : List Entry) → IsConnected server.old past
        → Prints (drained (count_owed past) past moment) (O.taken out.old) (O.taken out.new) result }
    ensures connected { OnOk result ((past : List Entry) → IsConnected server.old past
        → IsConnected server.new (after_drains (count_owed past) past moment)) }
    ensures failed { IsErrOf result ToolFault.Write → Rose (O.faults out.old) (O.faults out.new) }
    ensures out { IsLater O.faults O.aside out.old out.new }
{
    let owed = server.pending(CONN);
    for _ in 0..owed {
        if server.pending(CONN) == 0 {
            break;
        }
        drain(alloc, server, moment, out)?;
    }
    Ok(())
}
