use nt_control::{read_client, read_server, write_client, write_server};
use std::alloc::{AllocError, Global};
use std::test::Fail;

/// Whether a frame of a client says the messages of the second text, and so many elements are no message.
fn client_says(alloc: Global, frame: &[u8], says: &str, ignored: u32) -> Result<bool, AllocError> {
    let read = read_client(alloc, frame)?;
    let text = write_client(alloc, read.msgs.as_slice())?;
    Ok(text.as_str() == says && read.ignored == ignored)
}

/// The same of a frame of a server.
fn server_says(alloc: Global, frame: &[u8], says: &str, ignored: u32) -> Result<bool, AllocError> {
    let read = read_server(alloc, frame)?;
    let text = write_server(alloc, read.msgs.as_slice())?;
    Ok(text.as_str() == says && read.ignored == ignored)
}

/// `times` copies of a text.
fn repeated(alloc: Global, text: &str, times: u32) -> Result<String, AllocError> {
    let mut all = String::new(alloc);
    for _ in 0..times {
        all.push_str(text)?;
    }
    Ok(all)
}

fn joined(alloc: Global, parts: &[&str]) -> Result<String, AllocError> {
    let mut all = String::new(alloc);
    for part in parts {
        all.push_str(part)?;
    }
    Ok(all)
}

#[test]
fn frames_without_elements_are_one_ignored(rt: HostRuntime) -> Result<(), Fail> {
    let alloc = rt.alloc();
    let rows: [&[u8]; 12] = [
        b"",
        b"[",
        b"{}",
        b"null",
        b"7",
        b"[] []",
        b"[1e999]",
        b"[\"\\ud800\"]",
        b"[\"\n\"]",
        b"\xef\xbb\xbf[]",
        b"[\"\xff\"]",
        b"{\"method\":\"unpublish\",\"params\":{\"pubuid\":1}}",
    ];
    for frame in &rows {
        assert!(rt; client_says(alloc, frame, "[]", 1)?);
        assert!(rt; server_says(alloc, frame, "[]", 1)?);
    }
    assert!(rt; client_says(alloc, b" [ ] ", "[]", 0)?);
    let brackets = repeated(alloc, "[", 1 << 20)?;
    assert!(rt; client_says(alloc, brackets.as_bytes(), "[]", 1)?);
    Ok(())
}

#[test]
fn client_messages_are_read(rt: HostRuntime) -> Result<(), Fail> {
    let alloc = rt.alloc();
    let rows: [(&str, &str); 11] = [
        (
            r#"[{"method":"publish","params":{"name":"/a","properties":{},"pubuid":1,"type":"int"}}]"#,
            r#"[{"method":"publish","params":{"name":"/a","properties":{},"pubuid":1,"type":"int"}}]"#,
        ),
        // Blanks, other orders and other keys say nothing; absent properties are none.
        (
            r#" [ {"params":{"type":"int","x":[1.5],"pubuid":-1,"name":"/a"},"y":0,"method":"publish"} ] "#,
            r#"[{"method":"publish","params":{"name":"/a","properties":{},"pubuid":-1,"type":"int"}}]"#,
        ),
        // A property that is null or holds a fraction is passed over, and a null deeper inside stays.
        (
            r#"[{"method":"publish","params":{"name":"/a","properties":{"a":0.5,"b":null,"c":[1],"d":[null],"e":{"f":1e3}},"pubuid":1,"type":"int"}}]"#,
            r#"[{"method":"publish","params":{"name":"/a","properties":{"c":[1],"d":[null]},"pubuid":1,"type":"int"}}]"#,
        ),
        // The last of a doubled key counts.
        (
            r#"[{"method":"unpublish","method":"unsubscribe","params":{"pubuid":1},"params":{"subuid":2,"subuid":3}}]"#,
            r#"[{"method":"unsubscribe","params":{"subuid":3}}]"#,
        ),
        (
            r#"[{"method":"unpublish","params":{"pubuid":9223372036854775807}}]"#,
            r#"[{"method":"unpublish","params":{"pubuid":9223372036854775807}}]"#,
        ),
        (
            r#"[{"method":"unpublish","params":{"pubuid":-9223372036854775808}}]"#,
            r#"[{"method":"unpublish","params":{"pubuid":-9223372036854775808}}]"#,
        ),
        // In an update null stands.
        (
            r#"[{"method":"setproperties","params":{"name":"/a","update":{"x":0.5,"y":null,"retained":true}}}]"#,
            r#"[{"method":"setproperties","params":{"name":"/a","update":{"retained":true,"y":null}}}]"#,
        ),
        (
            r#"[{"method":"subscribe","params":{"topics":["","$"],"subuid":1}}]"#,
            r#"[{"method":"subscribe","params":{"options":{},"subuid":1,"topics":["","$"]}}]"#,
        ),
        // Options that are false aren't written, and the period is any number.
        (
            r#"[{"method":"subscribe","params":{"options":{"all":true,"prefix":false,"topicsonly":true,"periodic":-1e9,"z":0},"subuid":1,"topics":[]}}]"#,
            r#"[{"method":"subscribe","params":{"options":{"all":true,"topicsonly":true},"subuid":1,"topics":[]}}]"#,
        ),
        // Text is written raw where JSON allows it.
        (
            r#"[{"method":"subscribe","params":{"subuid":1,"topics":["\u00e9\ud83d\ude00\/\u0008\u001f\u007f\"\\"]}}]"#,
            "[{\"method\":\"subscribe\",\"params\":{\"options\":{},\"subuid\":1,\"topics\":[\"é😀/\\b\\u001f\u{7f}\\\"\\\\\"]}}]",
        ),
        // Properties have their keys in the byte order of UTF-8.
        (
            r#"[{"method":"publish","params":{"name":"/a","properties":{"é":1,"z":2,"Z":18446744073709551615},"pubuid":1,"type":"int"}}]"#,
            r#"[{"method":"publish","params":{"name":"/a","properties":{"Z":18446744073709551615,"z":2,"é":1},"pubuid":1,"type":"int"}}]"#,
        ),
    ];
    for (frame, says) in &rows {
        assert!(rt; client_says(alloc, frame.as_bytes(), says, 0)?, "{frame}");
        assert!(rt; client_says(alloc, says.as_bytes(), says, 0)?, "{says}");
    }
    Ok(())
}

#[test]
fn other_client_elements_are_ignored(rt: HostRuntime) -> Result<(), Fail> {
    let alloc = rt.alloc();
    let rows: [&str; 32] = [
        r#"7"#,
        r#"null"#,
        r#"[]"#,
        r#"{}"#,
        r#"{"method":"unpublish"}"#,
        r#"{"method":1,"params":{"pubuid":1}}"#,
        r#"{"method":"unpublish","params":[1]}"#,
        r#"{"method":"Unpublish","params":{"pubuid":1}}"#,
        r#"{"method":"announce","params":{"id":1,"name":"/a","type":"int"}}"#,
        r#"{"method":"unpublish","params":{"pubuid":1.0}}"#,
        r#"{"method":"unpublish","params":{"pubuid":-0}}"#,
        r#"{"method":"unpublish","params":{"pubuid":1e0}}"#,
        r#"{"method":"unpublish","params":{"pubuid":9223372036854775808}}"#,
        r#"{"method":"unpublish","params":{"pubuid":-9223372036854775809}}"#,
        r#"{"method":"unpublish","params":{"pubuid":"1"}}"#,
        // The last of a doubled key counts, also where it is wrong.
        r#"{"method":"unpublish","params":{"pubuid":1,"pubuid":null}}"#,
        r#"{"method":"publish","params":{"name":"","pubuid":1,"type":"int"}}"#,
        r#"{"method":"publish","params":{"name":"/a","pubuid":1,"type":""}}"#,
        r#"{"method":"publish","params":{"name":"/a","pubuid":1}}"#,
        r#"{"method":"publish","params":{"name":"/a","pubuid":1,"type":"int","properties":null}}"#,
        r#"{"method":"publish","params":{"name":"/a","pubuid":1,"type":"int","properties":[]}}"#,
        r#"{"method":"setproperties","params":{"name":"/a"}}"#,
        r#"{"method":"setproperties","params":{"name":"/a","update":null}}"#,
        r#"{"method":"subscribe","params":{"subuid":1}}"#,
        r#"{"method":"subscribe","params":{"subuid":1,"topics":"/a"}}"#,
        r#"{"method":"subscribe","params":{"subuid":1,"topics":["/a",1]}}"#,
        r#"{"method":"subscribe","params":{"subuid":1,"topics":[],"options":null}}"#,
        r#"{"method":"subscribe","params":{"subuid":1,"topics":[],"options":{"all":1}}}"#,
        r#"{"method":"subscribe","params":{"subuid":1,"topics":[],"options":{"prefix":null}}}"#,
        r#"{"method":"subscribe","params":{"subuid":1,"topics":[],"options":{"topicsonly":"true"}}}"#,
        r#"{"method":"subscribe","params":{"subuid":1,"topics":[],"options":{"periodic":"x"}}}"#,
        r#"{"method":"unsubscribe","params":{"pubuid":1}}"#,
    ];
    let both =
        br#"[{"method":"subscribe","params":{"options":{"periodic":"x"},"subuid":1,"topics":[]}},7]"#;
    assert!(rt; client_says(alloc, both, "[]", 2)?);
    let good = r#"{"method":"unsubscribe","params":{"subuid":1}}"#;
    let says = joined(alloc, &["[", good, ",", good, "]"])?;
    for element in &rows {
        // Those round it are read.
        let frame = joined(alloc, &["[", good, ",", element, ",", good, "]"])?;
        assert!(rt;
            client_says(alloc, frame.as_bytes(), says.as_str(), 1)?,
            "{element}"
        );
    }
    Ok(())
}

/// A text of four parts.
fn framed(
    alloc: Global,
    head: &str,
    first: &str,
    second: &str,
    tail: &str,
) -> Result<String, AllocError> {
    let mut all = String::from_str(alloc, head)?;
    all.push_str(first)?;
    all.push_str(second)?;
    all.push_str(tail)?;
    Ok(all)
}

/// How many elements of a frame are no message of a client.
fn ignored_of(alloc: Global, frame: &str) -> Result<u32, AllocError> {
    Ok(read_client(alloc, frame.as_bytes())?.ignored)
}

const NAME_HEAD: &str = "[{\"method\":\"publish\",\"params\":{\"name\":\"";

const NAME_TAIL: &str = "\",\"pubuid\":1,\"type\":\"int\"}}]";

const TYPE_HEAD: &str =
    "[{\"method\":\"publish\",\"params\":{\"name\":\"/a\",\"pubuid\":1,\"type\":\"";

const TYPE_TAIL: &str = "\"}}]";

/// Whether a name and a type that end so are each ignored.
fn are_ignored(alloc: Global, most: &str, last: &str) -> Result<(u32, u32), AllocError> {
    let name = framed(alloc, NAME_HEAD, most, last, NAME_TAIL)?;
    let typ = framed(alloc, TYPE_HEAD, most, last, TYPE_TAIL)?;
    Ok((
        ignored_of(alloc, name.as_str())?,
        ignored_of(alloc, typ.as_str())?,
    ))
}

#[test]
fn limits_are_exact(rt: HostRuntime) -> Result<(), Fail> {
    let alloc = rt.alloc();
    // Names and types have at most 1,024 bytes, after their escapes.
    let most = repeated(alloc, "a", 1023)?;
    assert_eq!(rt; are_ignored(alloc, most.as_str(), "a")?, (0, 0));
    assert_eq!(rt; are_ignored(alloc, most.as_str(), "\\u0061")?, (0, 0));
    assert_eq!(rt; are_ignored(alloc, most.as_str(), "aa")?, (1, 1));
    assert_eq!(rt; are_ignored(alloc, most.as_str(), "\\u00e9")?, (1, 1));
    // Properties nest at most 124 levels deep, their own object counted.
    let head = "[{\"method\":\"publish\",\"params\":{\"name\":\"/a\",\"properties\":{\"a\":";
    let tail = "},\"pubuid\":1,\"type\":\"int\"}}]";
    let opened = repeated(alloc, "[", 123)?;
    let closed = repeated(alloc, "]", 123)?;
    let frame = framed(alloc, head, opened.as_str(), closed.as_str(), tail)?;
    assert!(rt; client_says(alloc, frame.as_bytes(), frame.as_str(), 0)?);
    let opened = repeated(alloc, "[", 124)?;
    let closed = repeated(alloc, "]", 124)?;
    let frame = framed(alloc, head, opened.as_str(), closed.as_str(), tail)?;
    assert!(rt; client_says(alloc, frame.as_bytes(), "[]", 1)?);
    Ok(())
}

#[test]
fn one_of_10000_elements_is_wrong(rt: HostRuntime) -> Result<(), Fail> {
    let alloc = rt.alloc();
    let some = repeated(
        alloc,
        "{\"method\":\"unpublish\",\"params\":{\"pubuid\":1}},",
        4999,
    )?;
    let good = "{\"method\":\"unpublish\",\"params\":{\"pubuid\":1}}]";
    let rest = framed(alloc, "7,", some.as_str(), good, "")?;
    let frame = framed(alloc, "[", some.as_str(), rest.as_str(), "")?;
    let says = framed(alloc, "[", some.as_str(), some.as_str(), good)?;
    assert!(rt; client_says(alloc, frame.as_bytes(), says.as_str(), 1)?);
    Ok(())
}

#[test]
fn server_messages_are_read(rt: HostRuntime) -> Result<(), Fail> {
    let alloc = rt.alloc();
    let rows: [(&str, &str); 7] = [
        (
            r#"[{"method":"announce","params":{"id":1,"name":"/a","properties":{},"pubuid":1,"type":"int"}}]"#,
            r#"[{"method":"announce","params":{"id":1,"name":"/a","properties":{},"pubuid":1,"type":"int"}}]"#,
        ),
        // Names of a server have no limits.
        (
            r#"[{"method":"announce","params":{"type":"msgpack","name":"","id":-5,"properties":{"p":null,"q":1.5}}}]"#,
            r#"[{"method":"announce","params":{"id":-5,"name":"","properties":{},"type":"msgpack"}}]"#,
        ),
        (
            r#"[{"method":"unannounce","params":{"name":"/a","id":1}}]"#,
            r#"[{"method":"unannounce","params":{"id":1,"name":"/a"}}]"#,
        ),
        (
            r#"[{"method":"properties","params":{"ack":true,"name":"/a","update":{"retained":true}}}]"#,
            r#"[{"method":"properties","params":{"ack":true,"name":"/a","update":{"retained":true}}}]"#,
        ),
        (
            r#"[{"method":"properties","params":{"ack":false,"name":"/a","update":{"x":null}}}]"#,
            r#"[{"method":"properties","params":{"name":"/a","update":{"x":null}}}]"#,
        ),
        (
            r#"[{"method":"properties","params":{"name":"/a","update":{}}}]"#,
            r#"[{"method":"properties","params":{"name":"/a","update":{}}}]"#,
        ),
        ("[]", "[]"),
    ];
    for (frame, says) in &rows {
        assert!(rt; server_says(alloc, frame.as_bytes(), says, 0)?, "{frame}");
        assert!(rt; server_says(alloc, says.as_bytes(), says, 0)?, "{says}");
    }
    let ignored: [&str; 6] = [
        r#"[{"method":"announce","params":{"id":1,"name":"/a","pubuid":null,"type":"int"}}]"#,
        r#"[{"method":"announce","params":{"id":1,"name":"/a","properties":null,"type":"int"}}]"#,
        r#"[{"method":"announce","params":{"id":1,"name":"/a","type":""}}]"#,
        r#"[{"method":"unannounce","params":{"id":1}}]"#,
        r#"[{"method":"properties","params":{"ack":null,"name":"/a","update":{}}}]"#,
        r#"[{"method":"publish","params":{"name":"/a","pubuid":1,"type":"int"}}]"#,
    ];
    for frame in &ignored {
        assert!(rt; server_says(alloc, frame.as_bytes(), "[]", 1)?, "{frame}");
    }
    Ok(())
}
