//! Rows of meta topics: of a roster, the id and the value of each name.

ghost use Rattle.std.specs.Prelude.{◌≤◌, IfOk};
ghost use Rattle.nt_rules.specs.Limits.{last_id};
ghost use Rattle.nt_rules.specs.meta.Meta.{IsNumbered};

use nt_meta::{all_metas, meta_id, meta_value};
use nt_rules::{ConnRow, LifeRow, PubRow, PubRows, Roster, SubRow, SubRows};
use nt_subs::{Names, Options, Sub};
use nt_topics::{Name, TopicName};
use nt_values::ListOf;
use std::alloc::{AllocError, Global};
use std::test::Fail;

/// Bytes, as their hexadecimal digits.
fn hex(alloc: Global, bytes: &[u8]) -> Result<String, AllocError> {
    let mut text = String::new(alloc);
    for byte in bytes {
        text.push_str(format!(in alloc; " {byte:02x}")?.as_str())?;
    }
    Ok(text)
}

/// The value of this name, or `none`.
fn value(alloc: Global, name: &str, roster: &Roster) -> Result<String, AllocError> {
    match meta_value(alloc, name, roster)? {
        Some(bytes) => hex(alloc, bytes.as_bytes()),
        None => String::from_str(alloc, "none"),
    }
}

/// How many bytes the value of this name has, and the first of them.
fn extent(alloc: Global, name: &str, roster: &Roster) -> Result<String, AllocError> {
    match meta_value(alloc, name, roster)? {
        Some(bytes) => {
            let bytes = bytes.as_bytes();
            let (length, first) = (bytes.len(), bytes.first());
            format!(in alloc; "{length} {first:?}")
        }
        None => String::from_str(alloc, "none"),
    }
}

/// A subscription of these names; the options that are set are in the text.
fn sub_row(alloc: Global, uid: i64, names: &[&str], options: &str) -> Result<SubRow, Fail> {
    let mut list = Names::empty(alloc);
    for name in names {
        list.push(Name::of(alloc, name)?)?;
    }
    let options = Options {
        all: options.contains('a'),
        topicsonly: options.contains('t'),
        prefix: options.contains('p'),
    };
    let sub = Sub {
        names: list,
        options,
    };
    Ok(SubRow { uid, sub })
}

/// A roster of one connection that publishes to `/a`, which is topic 1.
fn one_conn(alloc: Global, number: u32, name: &str, subs: SubRows) -> Result<Roster, Fail>
    requires { number ≤ last_id }
    ensures { IfOk result IsNumbered }
{
    let topic = TopicName::of(alloc, "/a")?;
    let pubs = PubRows::of_vec(vec![in alloc; PubRow { uid: 1, topic }]?);
    let name = Name::of(alloc, name)?;
    let conn = ConnRow {
        conn: number,
        name,
        pubs,
        subs,
    };
    let conns = ListOf::of_vec(vec![in alloc; conn]?);
    let name = TopicName::of(alloc, "/a")?;
    let topics = ListOf::of_vec(vec![in alloc; LifeRow { id: 1, name }]?);
    Ok(Roster { conns, topics })
}

/// The roster of the one connection 1, named `dash`, without subscriptions.
fn dash(alloc: Global) -> Result<Roster, Fail>
    ensures { IfOk result IsNumbered }
{
    one_conn(alloc, 1, "dash", SubRows::empty(alloc))
}

#[test]
fn the_values_of_one_client_are_told(rt: HostRuntime) -> Result<(), Fail> {
    let alloc = rt.alloc();
    let roster = dash(alloc)?;
    let mut lines = String::new(alloc);
    for name in [
        "$clients",
        "$client_pub$dash",
        "$pub$/a",
        "$client_sub$dash",
        "$sub$/a",
        "$server_pub",
        "$server_sub",
        "$pub$/b",
        "$client_pub$das",
        "$",
    ] {
        lines.push_str(value(alloc, name, &roster)?.as_str())?;
        lines.push('\n')?;
    }
    let expected = " 91 82 a2 69 64 a4 64 61 73 68 a4 63 6f 6e 6e a1 31
 91 82 a3 75 69 64 01 a5 74 6f 70 69 63 a2 2f 61
 91 82 a6 63 6c 69 65 6e 74 a4 64 61 73 68 a6 70 75 62 75 69 64 01
 90
 90
 90
 90
none
none
none
";
    assert_eq!(rt; lines.as_str(), expected);
    Ok(())
}

#[test]
fn each_kind_has_ids_of_its_own(rt: HostRuntime) -> Result<(), Fail> {
    let alloc = rt.alloc();
    let roster = dash(alloc)?;
    let all = all_metas(alloc, &roster)?;
    let mut lines = String::new(alloc);
    for meta in all.as_slice() {
        let (id, name, len) = (meta.id, meta.name.as_str(), meta.bytes.as_bytes().len());
        lines.push_str(format!(in alloc; "{id} {name} {len}\n")?.as_str())?;
    }
    let clients = meta_id("$clients", &roster);
    let publishers = meta_id("$pub$/a", &roster);
    let other = meta_id("$pub$/b", &roster);
    lines.push_str(format!(in alloc; "{clients:?} {publishers:?} {other:?}")?.as_str())?;
    let expected = "536870913 $pub$/a 22
805306369 $sub$/a 1
1073741825 $client_pub$dash 16
1342177281 $client_sub$dash 1
1610612737 $clients 17
1610612738 $server_pub 1
1610612739 $server_sub 1
Some(1610612737) Some(536870913) None";
    assert_eq!(rt; lines.as_str(), expected);
    Ok(())
}

#[test]
fn subscriptions_are_told_with_their_options(rt: HostRuntime) -> Result<(), Fail> {
    let alloc = rt.alloc();
    let mut subs = SubRows::empty(alloc);
    subs.push(sub_row(alloc, -2, &["/"], "ap")?)?;
    subs.push(sub_row(alloc, 3, &["/a", "/b"], "t")?)?;
    subs.push(sub_row(alloc, 4, &[], "")?)?;
    let roster = one_conn(alloc, 7, "b", subs)?;
    let mut lines = value(alloc, "$sub$/a", &roster)?;
    lines.push('\n')?;
    lines.push_str(value(alloc, "$client_sub$b", &roster)?.as_str())?;
    let expected = " 92 83 a6 63 6c 69 65 6e 74 a1 62 a6 73 75 62 75 69 64 fe \
a7 6f 70 74 69 6f 6e 73 82 a3 61 6c 6c c3 a6 70 72 65 66 69 78 c3 \
83 a6 63 6c 69 65 6e 74 a1 62 a6 73 75 62 75 69 64 03 \
a7 6f 70 74 69 6f 6e 73 81 aa 74 6f 70 69 63 73 6f 6e 6c 79 c3
 93 83 a3 75 69 64 fe a6 74 6f 70 69 63 73 91 a1 2f \
a7 6f 70 74 69 6f 6e 73 82 a3 61 6c 6c c3 a6 70 72 65 66 69 78 c3 \
83 a3 75 69 64 03 a6 74 6f 70 69 63 73 92 a2 2f 61 a2 2f 62 \
a7 6f 70 74 69 6f 6e 73 81 aa 74 6f 70 69 63 73 6f 6e 6c 79 c3 \
83 a3 75 69 64 04 a6 74 6f 70 69 63 73 90 a7 6f 70 74 69 6f 6e 73 80";
    assert_eq!(rt; lines.as_str(), expected);
    Ok(())
}

/// A connection with publishers and subscriptions of `/a` that have these uids.
fn conn_row(alloc: Global, conn: u32, name: &str, uids: &[i64]) -> Result<ConnRow, Fail> {
    let mut pubs = PubRows::empty(alloc);
    let mut subs = SubRows::empty(alloc);
    for uid in uids {
        let topic = TopicName::of(alloc, "/a")?;
        pubs.push(PubRow { uid: *uid, topic })?;
        subs.push(sub_row(alloc, *uid, &["/a"], "")?)?;
    }
    let name = Name::of(alloc, name)?;
    Ok(ConnRow {
        conn,
        name,
        pubs,
        subs,
    })
}

/// A roster whose rows stand in no order: of the connection 2 the uids 5 and 3, and of 1 the uid 4.
fn unordered(alloc: Global) -> Result<Roster, Fail> {
    let second = conn_row(alloc, 2, "b", &[5, 3])?;
    let first = conn_row(alloc, 1, "a", &[4])?;
    let conns = ListOf::of_vec(vec![in alloc; second, first]?);
    let name = TopicName::of(alloc, "/a")?;
    let topics = ListOf::of_vec(vec![in alloc; LifeRow { id: 1, name }]?);
    Ok(Roster { conns, topics })
}

#[test]
fn rows_are_told_by_number_and_uid(rt: HostRuntime) -> Result<(), Fail> {
    let alloc = rt.alloc();
    let roster = unordered(alloc)?;
    let mut lines = String::new(alloc);
    for name in [
        "$clients",
        "$client_pub$b",
        "$client_sub$b",
        "$pub$/a",
        "$sub$/a",
    ] {
        lines.push_str(value(alloc, name, &roster)?.as_str())?;
        lines.push('\n')?;
    }
    let expected = " 92 82 a2 69 64 a1 61 a4 63 6f 6e 6e a1 31 \
82 a2 69 64 a1 62 a4 63 6f 6e 6e a1 32
 92 82 a3 75 69 64 03 a5 74 6f 70 69 63 a2 2f 61 82 a3 75 69 64 05 a5 74 6f 70 69 63 a2 2f 61
 92 83 a3 75 69 64 03 a6 74 6f 70 69 63 73 91 a2 2f 61 a7 6f 70 74 69 6f 6e 73 80 \
83 a3 75 69 64 05 a6 74 6f 70 69 63 73 91 a2 2f 61 a7 6f 70 74 69 6f 6e 73 80
 93 82 a6 63 6c 69 65 6e 74 a1 61 a6 70 75 62 75 69 64 04 \
82 a6 63 6c 69 65 6e 74 a1 62 a6 70 75 62 75 69 64 03 \
82 a6 63 6c 69 65 6e 74 a1 62 a6 70 75 62 75 69 64 05
 93 83 a6 63 6c 69 65 6e 74 a1 61 a6 73 75 62 75 69 64 04 a7 6f 70 74 69 6f 6e 73 80 \
83 a6 63 6c 69 65 6e 74 a1 62 a6 73 75 62 75 69 64 03 a7 6f 70 74 69 6f 6e 73 80 \
83 a6 63 6c 69 65 6e 74 a1 62 a6 73 75 62 75 69 64 05 a7 6f 70 74 69 6f 6e 73 80
";
    assert_eq!(rt; lines.as_str(), expected);
    Ok(())
}

/// A client's subscriptions: two of one long name, spelled in 28 bytes more, and a short one.
fn long_subs(alloc: Global, first: usize, second: usize) -> Result<Roster, Fail> {
    let mut subs = SubRows::empty(alloc);
    let long = "x".repeat(alloc, first)?;
    subs.push(sub_row(alloc, 1, &[long.as_str()], "")?)?;
    let long = "x".repeat(alloc, second)?;
    subs.push(sub_row(alloc, 2, &[long.as_str()], "")?)?;
    subs.push(sub_row(alloc, 3, &[], "")?)?;
    one_conn(alloc, 1, "dash", subs)
}

#[test]
fn a_list_is_cut_where_it_gets_too_long(rt: HostRuntime) -> Result<(), Fail> {
    let alloc = rt.alloc();
    let most = extent(
        alloc,
        "$client_sub$dash",
        &long_subs(alloc, 524_260, 524_260)?,
    )?;
    let more = extent(
        alloc,
        "$client_sub$dash",
        &long_subs(alloc, 524_260, 524_261)?,
    )?;
    let lines = format!(in alloc; "{most}, {more}")?;
    assert_eq!(rt; lines.as_str(), "1048577 Some(146), 524289 Some(145)");
    Ok(())
}
