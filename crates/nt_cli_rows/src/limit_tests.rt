//! What the desk answers at limits whose inputs are large.

use crate::tests::{ANNOUNCE_A, ANNOUNCE_B, PUBLISH_A, PUBLISH_B, prints};
use std::alloc::{AllocError, Global};
use std::test::Fail;

/// Bytes of four parts.
fn parts(
    alloc: Global,
    first: &[u8],
    second: &[u8],
    third: &[u8],
    last: &[u8],
) -> Result<Vec<u8>, AllocError> {
    let mut all = Vec::from_slice(alloc, first)?;
    all.extend_from_slice(second)?;
    all.extend_from_slice(third)?;
    all.extend_from_slice(last)?;
    Ok(all)
}

/// Runs the desk over these bytes, and compares the printed text and the status.
fn desk_prints(alloc: Global, bytes: &[u8], text: &str, status: u8) -> Result<bool, AllocError> {
    prints(alloc, &["desk"], &[bytes], &[], &[], text, status)
}

#[test]
fn desk_lines_have_1048576_bytes(rt: HostRuntime) -> Result<(), Fail> {
    let alloc = rt.alloc();
    let a = parts(alloc, PUBLISH_A.as_bytes(), b"\n", b"", b"")?;
    let b = PUBLISH_B.as_bytes();
    let told_both = format!(in alloc; "{ANNOUNCE_A}\n{ANNOUNCE_B}\n")?;
    let fault = format!(in alloc; "{ANNOUNCE_A}\nfault line 2\n")?;
    // Blanks that make the second line as long as a line may be.
    let blanks = vec![in alloc; b' '; (1 << 20) - b.len()]?;
    let longest = parts(alloc, &a, &blanks, b, b"\n")?;
    assert!(rt; desk_prints(alloc, &longest, told_both.as_str(), 0)?);
    let unended = parts(alloc, &a, &blanks, b, b"")?;
    assert!(rt; desk_prints(alloc, &unended, told_both.as_str(), 0)?);
    let longer = parts(alloc, &a, b" ", &blanks, b)?;
    assert!(rt; desk_prints(alloc, &longer, fault.as_str(), 1)?);
    let followed = parts(alloc, &longer, b"\n", &a, b"")?;
    assert!(rt; desk_prints(alloc, &followed, fault.as_str(), 1)?);
    Ok(())
}

/// Lines that publish so many raw topics, and put a value of 131,072 bytes on each.
fn large_values(alloc: Global, count: u32) -> Result<String, Fail> {
    let mut lines = String::new(alloc);
    for uid in 0..count {
        let publish = format!(in alloc;
            r#"{{"method":"publish","params":{{"name":"/{uid}","pubuid":{uid},"type":"raw"}}}}"#
        )?;
        lines.push_str(if uid == 0 { "[" } else { "," })?;
        lines.push_str(publish.as_str())?;
    }
    lines.push_str("]\n")?;
    let zeros = String::from_utf8(vec![in alloc; b'0'; 2 * 131_072]?)?;
    for uid in 0..count {
        let head = format!(in alloc; "hex 94{uid:02x}0a05c600020000")?;
        lines.push_str(head.as_str())?;
        lines.push_str(zeros.as_str())?;
        lines.push_str("\n")?;
    }
    Ok(lines)
}

/// What the desk prints for the publishes.
fn large_announces(alloc: Global, count: u32) -> Result<String, AllocError> {
    let mut told = String::new(alloc);
    for uid in 0..count {
        let id = uid + 1;
        let announce = format!(in alloc;
            r#"{{"method":"announce","params":{{"id":{id},"name":"/{uid}","properties":{{}},"pubuid":{uid},"type":"raw"}}}}"#
        )?;
        told.push_str(if uid == 0 { "[" } else { "," })?;
        told.push_str(announce.as_str())?;
    }
    told.push_str("]\n")?;
    Ok(told)
}

#[test]
fn desk_goes_on_where_its_connection_fell_behind(rt: HostRuntime) -> Result<(), Fail> {
    let alloc = rt.alloc();
    // 64 values of 131,072 bytes that are wanted at once weigh more than may wait.
    let subscribe =
        r#"[{"method":"subscribe","params":{"topics":[""],"subuid":1,"options":{"all":true,"prefix":true}}}]"#;
    let values = large_values(alloc, 64)?;
    let announces = large_announces(alloc, 64)?;
    let lines = format!(in alloc; "{values}{subscribe}\nhex 94ff000207\n{PUBLISH_B}\n")?;
    let told = format!(in alloc; "{announces}hex 94ff430207\n")?;
    assert!(rt;
        prints(
            alloc,
            &["desk"],
            &[lines.as_bytes()],
            &[],
            &[],
            told.as_str(),
            0
        )?
    );
    Ok(())
}
