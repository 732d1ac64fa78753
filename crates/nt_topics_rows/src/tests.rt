//! Rows of properties, paths and subscriptions.

use nt_subs::{Added, Names, Options, Sub, SubSet, Wanted};
use nt_topics::{Name, PathFault, Props, Update, path_name};
use serde_json::Value;
use std::alloc::{AllocError, Global};
use std::test::Fail;

fn props_of(alloc: Global, text: &str) -> Result<Props, Fail> {
    let tree = Value::from_str(alloc, text)?;
    Ok(Props::of(alloc, &tree)?.ok_or("no object")?)
}

fn update_of(alloc: Global, text: &str) -> Result<Update, Fail> {
    let tree = Value::from_str(alloc, text)?;
    Ok(Update::of(alloc, &tree)?.ok_or("no object")?)
}

/// Objects, and the properties that they say.
const KEPT: [(&str, &str); 14] = [
    (r#"{"a":0.5,"b":null,"c":[1]}"#, r#"{"c":[1]}"#),
    ("{}", "{}"),
    (r#" { "b" : 1 , "a" : "x" } "#, r#"{"a":"x","b":1}"#),
    // null, and null deeper inside
    (r#"{"a":null}"#, "{}"),
    (r#"{"a":{"b":null}}"#, r#"{"a":{"b":null}}"#),
    // numbers that aren't whole, at any depth
    (r#"{"a":[1,{"b":[2.0]}]}"#, "{}"),
    (r#"{"a":-0}"#, "{}"),
    (r#"{"a":1e3}"#, "{}"),
    // the edges of 64 bits
    (
        r#"{"a":18446744073709551615}"#,
        r#"{"a":18446744073709551615}"#,
    ),
    (r#"{"a":18446744073709551616}"#, "{}"),
    (
        r#"{"a":-9223372036854775808}"#,
        r#"{"a":-9223372036854775808}"#,
    ),
    (r#"{"a":-9223372036854775809}"#, "{}"),
    // of a doubled key the last counts, also where it isn't taken
    (r#"{"a":1,"a":2}"#, r#"{"a":2}"#),
    (r#"{"a":1,"a":0.5}"#, "{}"),
];

/// Whether an object says these properties, and so does a copy of them.
fn says(alloc: Global, text: &str, kept: &str) -> Result<bool, Fail> {
    let props = props_of(alloc, text)?;
    let written = props.tree().to_string(alloc)?;
    let copied = props.copy()?.tree().to_string(alloc)?;
    let len = props.text_len() == kept.len() as u64;
    Ok(len && written.as_str() == kept && copied.as_str() == kept)
}

#[test]
fn properties_keep_what_their_text_says(rt: HostRuntime) -> Result<(), Fail> {
    for (text, kept) in KEPT {
        assert!(rt; says(rt.alloc(), text, kept)?, "of {text}");
    }
    Ok(())
}

/// Whether a tree is no object, for properties and for updates.
fn is_no_object(alloc: Global, text: &str) -> Result<bool, Fail> {
    let tree = Value::from_str(alloc, text)?;
    let no_props = Props::of(alloc, &tree)?.is_none();
    let no_update = Update::of(alloc, &tree)?.is_none();
    Ok(no_props && no_update)
}

#[test]
fn other_trees_are_no_properties(rt: HostRuntime) -> Result<(), Fail> {
    for text in ["[]", "null", "1", r#""{}""#] {
        assert!(rt; is_no_object(rt.alloc(), text)?, "{text}");
    }
    Ok(())
}

/// Properties, an update, and the properties after it.
const UPDATED: [(&str, &str, &str); 6] = [
    (r#"{"a":1,"b":2}"#, r#"{"a":null}"#, r#"{"b":2}"#),
    ("{}", r#"{"a":null}"#, "{}"),
    (
        r#"{"b":1}"#,
        r#"{"a":2,"b":3,"c":null}"#,
        r#"{"a":2,"b":3}"#,
    ),
    // null inside a value deletes nothing
    (
        r#"{"a":{"x":1}}"#,
        r#"{"a":{"x":null}}"#,
        r#"{"a":{"x":null}}"#,
    ),
    // a number that isn't whole changes nothing
    (r#"{"a":1}"#, r#"{"a":0.5}"#, r#"{"a":1}"#),
    (r#"{"a":1}"#, "{}", r#"{"a":1}"#),
];

/// Whether an update makes these properties of others.
fn makes(alloc: Global, before: &str, update: &str, after: &str) -> Result<bool, Fail> {
    let mut props = props_of(alloc, before)?;
    let update = update_of(alloc, update)?.copy()?;
    props.update(alloc, &update)?;
    let written = props.tree().to_string(alloc)?;
    Ok(written.as_str() == after && props.text_len() == after.len() as u64)
}

#[test]
fn updates_change_key_by_key(rt: HostRuntime) -> Result<(), Fail> {
    for (before, update, after) in UPDATED {
        assert!(rt; makes(rt.alloc(), before, update, after)?, "after {before}");
    }
    Ok(())
}

/// Properties, and whether they are persistent, retained and cached.
const FLAGS: [(&str, bool, bool, bool); 9] = [
    ("{}", false, false, true),
    (r#"{"persistent":true}"#, true, false, true),
    (r#"{"persistent":"true"}"#, false, false, true),
    (r#"{"persistent":1}"#, false, false, true),
    (r#"{"retained":true}"#, false, true, true),
    (r#"{"retained":[true]}"#, false, false, true),
    (r#"{"cached":false}"#, false, false, false),
    (r#"{"cached":0}"#, false, false, true),
    (r#"{"cached":null}"#, false, false, true),
];

fn flags_of(alloc: Global, text: &str) -> Result<(bool, bool, bool), Fail> {
    let props = props_of(alloc, text)?;
    Ok((props.persistent(), props.retained(), props.cached()))
}

#[test]
fn flags_are_truth_values(rt: HostRuntime) -> Result<(), Fail> {
    for (text, persistent, retained, cached) in FLAGS {
        assert_eq!(rt;
            flags_of(rt.alloc(), text)?,
            (persistent, retained, cached),
            "of {text}"
        );
    }
    Ok(())
}

/// Targets, and the names that they ask for, or why they name no client.
const NAMED: [(&str, &str); 13] = [
    ("/nt/my%20dash?x", "my dash"),
    ("/nt/a%3Fb?c", "a?b"),
    ("/nt/a/b", "a/b"),
    ("/nt/%4", "%4"),
    ("/nt/%e2%82%ac", "\u{20ac}"),
    ("/nt/", "Empty"),
    ("/nt/?%3F?/a", "Empty"),
    ("/nt", "NotNt"),
    ("", "NotNt"),
    ("/NT/a", "NotNt"),
    ("/nt?/nt/a", "NotNt"),
    ("/nt/%FF", "NotText"),
    ("/nt/%C3?%A9", "NotText"),
];

fn fault_text(fault: PathFault) -> &'static str {
    match fault {
        PathFault::NotNt => "NotNt",
        PathFault::NotText => "NotText",
        PathFault::Empty => "Empty",
        PathFault::TooLong => "TooLong",
        PathFault::Memory => "Memory",
    }
}

/// The name in a target, or why there is none.
fn named(alloc: Global, target: &str) -> Result<String, AllocError> {
    match path_name(alloc, target) {
        Ok(name) => String::from_str(alloc, name.as_str()),
        Err(fault) => String::from_str(alloc, fault_text(fault)),
    }
}

#[test]
fn paths_name_clients(rt: HostRuntime) -> Result<(), Fail> {
    for (target, name) in NAMED {
        assert_eq!(rt; named(rt.alloc(), target)?.as_str(), name, "of {target}");
    }
    Ok(())
}

#[test]
fn names_in_paths_have_at_most_256_bytes(rt: HostRuntime) -> Result<(), Fail> {
    let mut target = String::from_str(rt.alloc(), "/nt/")?;
    for _ in 0..256u16 {
        target.push_str("x")?;
    }
    assert_eq!(rt; named(rt.alloc(), target.as_str())?.len(), 256);
    target.push_str("x")?;
    assert_eq!(rt; named(rt.alloc(), target.as_str())?.as_str(), "TooLong");
    Ok(())
}

pub(crate) const EXACT: Options = Options {
    all: false,
    topicsonly: false,
    prefix: false,
};

pub(crate) const PREFIX: Options = Options {
    all: false,
    topicsonly: false,
    prefix: true,
};

pub(crate) fn sub_of(alloc: Global, names: &[&str], options: Options) -> Result<Sub, AllocError> {
    let mut list = Names::empty(alloc);
    for name in names {
        list.push(Name::of(alloc, name)?)?;
    }
    Ok(Sub {
        names: list,
        options,
    })
}

const TOPICS: Options = Options {
    all: false,
    topicsonly: true,
    prefix: true,
};

const ALL: Options = Options {
    all: true,
    topicsonly: false,
    prefix: false,
};

fn wanted_text(wanted: Wanted) -> &'static str {
    match wanted {
        Wanted::No => "No ",
        Wanted::TopicOnly => "TopicOnly ",
        Wanted::Newest => "Newest ",
        Wanted::All => "All ",
    }
}

fn added_text(added: Added) -> &'static str {
    match added {
        Added::New => "New ",
        Added::Replaced => "Replaced ",
        Added::TooMany => "TooMany ",
    }
}

/// What is wanted of each of these topics.
fn wishes(alloc: Global, subs: &SubSet, names: &[&str]) -> Result<String, AllocError> {
    let mut text = String::new(alloc);
    for name in names {
        text.push_str(wanted_text(subs.matches(name)))?;
    }
    Ok(text)
}

/// Adds a subscription, and tells the answer.
fn add(
    alloc: Global,
    subs: &mut SubSet,
    told: &mut String,
    uid: i64,
    names: &[&str],
    options: Options,
) -> Result<(), AllocError> {
    let sub = sub_of(alloc, names, options)?;
    let copy = sub.copy(alloc)?;
    let added = subs.add(uid, copy)?;
    told.push_str(added_text(added))
}

#[test]
fn the_greatest_wish_counts(rt: HostRuntime) -> Result<(), Fail> {
    let alloc = rt.alloc();
    let mut told = String::new(alloc);
    let mut subs = SubSet::new(alloc);
    add(alloc, &mut subs, &mut told, 1, &["/a"], EXACT)?;
    add(alloc, &mut subs, &mut told, 2, &[""], TOPICS)?;
    assert_eq!(rt;
        wishes(alloc, &subs, &["/a", "/a/b", "/b", "$clients"])?.as_str(),
        "Newest TopicOnly TopicOnly No "
    );
    // A special name has special prefixes alone, each name of a subscription for itself.
    add(alloc, &mut subs, &mut told, -3, &["", "$"], PREFIX)?;
    assert_eq!(rt;
        wishes(alloc, &subs, &["/b", "$clients"])?.as_str(),
        "Newest Newest "
    );
    add(alloc, &mut subs, &mut told, 4, &["$clients"], ALL)?;
    assert_eq!(rt;
        wishes(alloc, &subs, &["$clients", "$"])?.as_str(),
        "All Newest "
    );
    Ok(())
}

/// What one subscription with these options wants of its name and of others.
fn wishes_with(alloc: Global, options: Options) -> Result<String, AllocError> {
    let mut told = String::new(alloc);
    let mut subs = SubSet::new(alloc);
    add(alloc, &mut subs, &mut told, 7, &["/a"], options)?;
    wishes(alloc, &subs, &["/a", "/ab", "/"])
}

#[test]
fn options_of_one_subscription(rt: HostRuntime) -> Result<(), Fail> {
    let alloc = rt.alloc();
    assert_eq!(rt; wishes_with(alloc, EXACT)?.as_str(), "Newest No No ");
    assert_eq!(rt; wishes_with(alloc, ALL)?.as_str(), "All No No ");
    assert_eq!(rt; wishes_with(alloc, PREFIX)?.as_str(), "Newest Newest No ");
    assert_eq!(rt;
        wishes_with(alloc, TOPICS)?.as_str(),
        "TopicOnly TopicOnly No "
    );
    Ok(())
}

/// A set of 1,024 subscriptions, with the uids from 0.
fn full(alloc: Global, told: &mut String) -> Result<SubSet, AllocError> {
    let mut subs = SubSet::new(alloc);
    for uid in 0..1024i64 {
        add(alloc, &mut subs, told, uid, &["/a"], EXACT)?;
    }
    told.clear();
    Ok(subs)
}

#[test]
fn at_most_1024_subscriptions(rt: HostRuntime) -> Result<(), Fail> {
    let alloc = rt.alloc();
    let mut told = String::new(alloc);
    let mut subs = full(alloc, &mut told)?;
    add(alloc, &mut subs, &mut told, 1024, &[], EXACT)?;
    add(alloc, &mut subs, &mut told, 500, &["/b"], EXACT)?;
    assert!(rt; subs.remove(0) && !subs.remove(0));
    add(alloc, &mut subs, &mut told, 1024, &["/c"], EXACT)?;
    assert_eq!(rt; told.as_str(), "TooMany Replaced New ");
    assert_eq!(rt;
        wishes(alloc, &subs, &["/b", "/c", "/d"])?.as_str(),
        "Newest Newest No "
    );
    Ok(())
}

#[test]
fn subscriptions_stand_by_uid(rt: HostRuntime) -> Result<(), Fail> {
    let alloc = rt.alloc();
    let mut told = String::new(alloc);
    let mut subs = SubSet::new(alloc);
    add(alloc, &mut subs, &mut told, 5, &["/b"], EXACT)?;
    add(alloc, &mut subs, &mut told, -5, &["/a"], EXACT)?;
    if subs.len() == 2 {
        assert_eq!(rt; subs.at(0).0, -5);
        assert_eq!(rt; subs.at(1).0, 5);
        return Ok(());
    }
    panic!(rt; "not two")
}

#[test]
fn names_have_at_most_131072_bytes_together(rt: HostRuntime) -> Result<(), Fail> {
    let alloc = rt.alloc();
    let mut told = String::new(alloc);
    let mut subs = SubSet::new(alloc);
    let long = String::from_utf8(vec![in alloc; b'x'; 131_064]?)?;
    let longer = String::from_utf8(vec![in alloc; b'x'; 131_065]?)?;
    add(alloc, &mut subs, &mut told, 1, &[long.as_str()], PREFIX)?;
    add(alloc, &mut subs, &mut told, 2, &[], PREFIX)?;
    add(alloc, &mut subs, &mut told, 3, &[""], PREFIX)?;
    add(alloc, &mut subs, &mut told, 1, &[longer.as_str()], PREFIX)?;
    add(alloc, &mut subs, &mut told, 1, &["", "a"], PREFIX)?;
    add(alloc, &mut subs, &mut told, 3, &[""], PREFIX)?;
    assert_eq!(rt; told.as_str(), "New New TooMany TooMany Replaced New ");
    Ok(())
}
