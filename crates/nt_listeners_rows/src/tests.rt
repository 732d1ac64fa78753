//! Rows of listeners: of the changes that are told, who hears them, and who is dropped.

ghost use Rattle.std.specs.Prelude.{◌≡◌, ◌+◌, ◌-◌, ◌<◌, ◌^◌, IfOk};

use nt_change_lines::change_line;
use nt_link::MemSink;
use nt_listeners::{Listener, Listeners, MemListener, Printer, Refused};
use nt_rules::Change;
use nt_topics::{Name, Props, TypeName, Update};
use nt_values::{Bytes, ListOf, Text, Value};
use serde_json::Value as Tree;
use std::alloc::{AllocError, Global};
use std::test::Fail;

/// The end of a topic of this name.
fn ended(alloc: Global, id: i64, name: &str) -> Result<Change, AllocError> {
    Ok(Change::Ended {
        id,
        name: Name::of(alloc, name)?,
    })
}

/// Whether a listener is there, and what it heard, a line each.
fn heard(alloc: Global, listener: Option<Box<dyn Listener>>) -> Result<String, AllocError> {
    let Some(listener) = listener else {
        return String::from_str(alloc, "gone");
    };
    let mut text = String::new(alloc);
    for change in listener.told().unwrap_or(&[]) {
        text.push_str(change_line(alloc, change)?.as_str())?;
        text.push_str(";")?;
    }
    Ok(text)
}

/// Two listeners in memory, each with its prefix and the numbers of its calls that fail, and the names of the topics
/// whose ends they are told. Says how many each telling dropped, and then what each of the two heard.
struct Row {
    first: (&'static str, &'static [u64]),
    second: (&'static str, &'static [u64]),
    names: &'static [&'static str],
    said: &'static str,
}

const ROWS: [Row; 6] = [
    // the first refuses the first change, and hears of none any more
    Row {
        first: ("", &[0]),
        second: ("/a", &[]),
        names: &["/a", "/a"],
        said: "1 0 | gone | - 0 /a;- 1 /a;",
    },
    // a prefix begins the name, and is not the whole of it
    Row {
        first: ("/a", &[]),
        second: ("/ab", &[]),
        names: &["/ab", "/b", "/a", "/", "x/a", "/A"],
        said: "0 0 0 0 0 0 | - 0 /ab;- 2 /a; | - 0 /ab;",
    },
    // the second call of the second is that of the third change
    Row {
        first: ("", &[]),
        second: ("/a", &[1]),
        names: &["/a", "/b", "/a", "/a"],
        said: "0 0 1 0 | - 0 /a;- 1 /b;- 2 /a;- 3 /a; | gone",
    },
    // both refuse the same change
    Row {
        first: ("/a", &[1]),
        second: ("/", &[1]),
        names: &["/a", "/a", "/a"],
        said: "0 2 0 | gone | gone",
    },
    // names that begin with `$` are no exception
    Row {
        first: ("", &[]),
        second: ("$c", &[]),
        names: &["$clients", "$sub$/a"],
        said: "0 0 | - 0 $clients;- 1 $sub$/a; | - 0 $clients;",
    },
    Row {
        first: ("", &[0]),
        second: ("", &[]),
        names: &[],
        said: "|  | ",
    },
];

/// Adds a listener.
fn add(
    listeners: &mut Listeners,
    prefix: Name,
    listener: Box<dyn Listener>,
) -> Result<u32, AllocError>
    requires { listeners.old.added < 2 ^ 32 - 1 }
    ensures { IfOk result (λ id. listeners.new.added ≡ listeners.old.added + 1) }
{
    match listeners.add(prefix, listener) {
        Ok(id) => Ok(id),
        Err((_listener, error)) => Err(error),
    }
}

/// A listener whose calls with these numbers fail.
fn listener(alloc: Global, fails: &[u64]) -> Result<MemListener, AllocError> {
    Ok(MemListener::new(alloc, Vec::from_slice(alloc, fails)?))
}

/// What a row says.
fn said(alloc: Global, row: &Row) -> Result<String, AllocError> {
    let mut listeners = Listeners::new(alloc);
    let first: Box<dyn Listener> = Box::new(alloc, listener(alloc, row.first.1)?)?;
    let second: Box<dyn Listener> = Box::new(alloc, listener(alloc, row.second.1)?)?;
    let _first = add(&mut listeners, Name::of(alloc, row.first.0)?, first)?;
    let _second = add(&mut listeners, Name::of(alloc, row.second.0)?, second)?;
    let mut text = String::new(alloc);
    let mut id: i64 = 0;
    for name in row.names {
        let dropped = listeners.tell(&ended(alloc, id, name)?);
        write!(text, "{dropped} ")?;
        id = id.saturating_add(1);
    }
    let first = heard(alloc, listeners.remove(1))?;
    let second = heard(alloc, listeners.remove(2))?;
    write!(text, "| {first} | {second}")?;
    Ok(text)
}

#[test]
fn those_hear_whose_prefix_begins_the_name(rt: HostRuntime) -> Result<(), Fail> {
    for row in &ROWS {
        assert_eq!(rt; said(rt.alloc(), row)?.as_str(), row.said);
    }
    Ok(())
}

#[test]
fn ids_rise_and_are_never_used_again(rt: HostRuntime) -> Result<(), Fail> {
    let alloc = rt.alloc();
    let mut listeners = Listeners::new(alloc);
    let first: Box<dyn Listener> = Box::new(alloc, listener(alloc, &[])?)?;
    let second: Box<dyn Listener> = Box::new(alloc, listener(alloc, &[])?)?;
    let third: Box<dyn Listener> = Box::new(alloc, listener(alloc, &[])?)?;
    assert_eq!(rt; add(&mut listeners, Name::of(alloc, "/a")?, first)?, 1);
    assert_eq!(rt; add(&mut listeners, Name::of(alloc, "/a")?, second)?, 2);
    assert!(rt; listeners.remove(2).is_some());
    assert!(rt; listeners.remove(2).is_none());
    assert!(rt; listeners.remove(0).is_none());
    listeners.clear();
    assert!(rt; listeners.remove(1).is_none());
    assert_eq!(rt; add(&mut listeners, Name::of(alloc, "/a")?, third)?, 3);
    assert_eq!(rt; heard(alloc, listeners.remove(3))?.as_str(), "");
    Ok(())
}

#[test]
fn a_printer_writes_a_line_for_each_change(rt: HostRuntime) -> Result<(), Fail> {
    let alloc = rt.alloc();
    let sink = MemSink::new(alloc, Vec::from_slice(alloc, &[1])?);
    let mut printer = Printer::new(alloc, sink);
    assert_eq!(rt; printer.hear(&ended(alloc, 0, "/a")?), Ok(()));
    assert_eq!(rt; printer.hear(&ended(alloc, 1, "/b")?), Err(Refused::Failed));
    assert_eq!(rt; printer.hear(&ended(alloc, 2, "/c")?), Ok(()));
    assert!(rt; printer.told().is_none());
    let sink = printer.into_sink();
    assert_eq!(rt; sink.taken(), b"- 0 /a\n- 2 /c\n".as_slice());
    Ok(())
}

#[test]
fn a_printer_whose_sink_fails_is_dropped(rt: HostRuntime) -> Result<(), Fail> {
    let alloc = rt.alloc();
    let sink = MemSink::new(alloc, Vec::from_slice(alloc, &[1])?);
    let printer: Box<dyn Listener> = Box::new(alloc, Printer::new(alloc, sink))?;
    let mut listeners = Listeners::new(alloc);
    let _id = add(&mut listeners, Name::of(alloc, "/a")?, printer)?;
    assert_eq!(rt; listeners.tell(&ended(alloc, 0, "/a")?), 0);
    assert_eq!(rt; listeners.tell(&ended(alloc, 1, "/b")?), 0);
    assert_eq!(rt; listeners.tell(&ended(alloc, 2, "/a")?), 1);
    assert!(rt; listeners.remove(1).is_none());
    Ok(())
}

/// The line of a value of topic 1, `/a`, that was taken with the time 5.
fn value_line(alloc: Global, value: Value) -> Result<Text, AllocError> {
    let change = Change::Changed {
        id: 1,
        name: Name::of(alloc, "/a")?,
        time: 5,
        value,
    };
    change_line(alloc, &change)
}

#[test]
fn values_are_written_with_their_type(rt: HostRuntime) -> Result<(), Fail> {
    let alloc = rt.alloc();
    let rows = [
        (Value::Bool(true), "= 1 /a 5 true"),
        (Value::Int(-2), "= 1 /a 5 i64:-2"),
        (Value::Float(0x3f80_0000), "= 1 /a 5 f32:3f800000"),
        (Value::Double(0x10), "= 1 /a 5 f64:0000000000000010"),
        (Value::Text(Text::of(alloc, "")?), "= 1 /a 5 bytes:-"),
        (Value::Text(Text::of(alloc, "a b")?), "= 1 /a 5 bytes:a%20b"),
        (
            Value::Bytes(Bytes::of(alloc, &[0xff, b','])?),
            "= 1 /a 5 bytes:%FF%2C",
        ),
        (
            Value::Bools(list(alloc, &[true, false])?),
            "= 1 /a 5 b[true,false]",
        ),
        (Value::Ints(list(alloc, &[7, -1])?), "= 1 /a 5 i64[7,-1]"),
        (Value::Floats(list(alloc, &[1])?), "= 1 /a 5 f32[00000001]"),
        (Value::Doubles(list(alloc, &[])?), "= 1 /a 5 f64[]"),
        (
            Value::Texts(texts(alloc, &["", "-", "]"])?),
            "= 1 /a 5 s[-,%2D,]]",
        ),
    ];
    for (value, line) in rows {
        assert_eq!(rt; value_line(alloc, value)?.as_str(), line);
    }
    Ok(())
}

/// A list of these items.
fn list<T: Copy>(alloc: Global, items: &[T]) -> Result<ListOf<T>, AllocError> {
    Ok(ListOf::of_vec(Vec::from_slice(alloc, items)?))
}

/// A list of these texts.
fn texts(alloc: Global, items: &[&str]) -> Result<ListOf<Text>, AllocError> {
    let mut texts = ListOf::empty(alloc);
    for item in items {
        texts.push(Text::of(alloc, item)?)?;
    }
    Ok(texts)
}

#[test]
fn other_changes_are_written_by_their_sign(rt: HostRuntime) -> Result<(), Fail> {
    let alloc = rt.alloc();
    let properties = Tree::from_str(alloc, r#"{"retained":true,"a":"b c"}"#)?;
    let started = Change::Started {
        id: 1,
        name: Name::of(alloc, "/a b")?,
        typ: TypeName::of(alloc, "int[]")?,
        props: Props::of(alloc, &properties)?.ok_or("no object")?,
    };
    let line = change_line(alloc, &started)?;
    assert_eq!(rt;
        line.as_str(),
        r#"+ 1 /a%20b int[] {"a":"b%20c"%2C"retained":true}"#
    );
    let update = Tree::from_str(alloc, r#"{"a":null}"#)?;
    let updated = Change::Props {
        id: -7,
        name: Name::of(alloc, "-")?,
        update: Update::of(alloc, &update)?.ok_or("no object")?,
    };
    assert_eq!(rt;
        change_line(alloc, &updated)?.as_str(),
        r#"~ -7 %2D {"a":null}"#
    );
    let line = change_line(alloc, &ended(alloc, i64::MAX, "")?)?;
    assert_eq!(rt; line.as_str(), "- 9223372036854775807 -");
    Ok(())
}
