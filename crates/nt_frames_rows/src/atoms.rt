//! Atoms and their spellings, by the MessagePack specification.

ghost use Rattle.std.specs.Prelude.{IsTrue};
ghost use Rattle.nt_msgpack.specs.Atoms.{value_of, Fits};

use nt_msgpack::{Atom, AtomRead, put_atom, read_atom};
use std::alloc::{AllocError, Global};
use std::test::Fail;

/// An atom, and a spelling of it.
type Row = (Atom<'static>, &'static [u8]);

/// Whole numbers at the edges of the widths, each in its shortest spelling ("int format family").
const INTS: &[Row] = &[
    (Atom::Int(0), &[0x00]),
    (Atom::Int(127), &[0x7f]),
    (Atom::Int(128), &[0xcc, 0x80]),
    (Atom::Int(255), &[0xcc, 0xff]),
    (Atom::Int(256), &[0xcd, 0x01, 0x00]),
    (Atom::Int(65_535), &[0xcd, 0xff, 0xff]),
    (Atom::Int(65_536), &[0xce, 0x00, 0x01, 0x00, 0x00]),
    (Atom::Int(4_294_967_295), &[0xce, 0xff, 0xff, 0xff, 0xff]),
    (Atom::Int(4_294_967_296), &[0xcf, 0, 0, 0, 1, 0, 0, 0, 0]),
    (
        Atom::Int(18_446_744_073_709_551_615),
        &[0xcf, 0xff, 0xff, 0xff, 0xff, 0xff, 0xff, 0xff, 0xff],
    ),
    (Atom::Int(-1), &[0xff]),
    (Atom::Int(-32), &[0xe0]),
    (Atom::Int(-33), &[0xd0, 0xdf]),
    (Atom::Int(-128), &[0xd0, 0x80]),
    (Atom::Int(-129), &[0xd1, 0xff, 0x7f]),
    (Atom::Int(-32_768), &[0xd1, 0x80, 0x00]),
    (Atom::Int(-32_769), &[0xd2, 0xff, 0xff, 0x7f, 0xff]),
    (Atom::Int(-2_147_483_648), &[0xd2, 0x80, 0x00, 0x00, 0x00]),
    (
        Atom::Int(-2_147_483_649),
        &[0xd3, 0xff, 0xff, 0xff, 0xff, 0x7f, 0xff, 0xff, 0xff],
    ),
    (
        Atom::Int(-9_223_372_036_854_775_808),
        &[0xd3, 0x80, 0, 0, 0, 0, 0, 0, 0],
    ),
];

/// The other atoms, each in its shortest spelling.
const OTHERS: &[Row] = &[
    (Atom::Bool(false), &[0xc2]),
    (Atom::Bool(true), &[0xc3]),
    // 1.5
    (Atom::F32(0x3fc0_0000), &[0xca, 0x3f, 0xc0, 0x00, 0x00]),
    (
        Atom::F64(0x3ff8_0000_0000_0000),
        &[0xcb, 0x3f, 0xf8, 0, 0, 0, 0, 0, 0],
    ),
    (Atom::Text(""), &[0xa0]),
    (Atom::Text("a"), &[0xa1, 0x61]),
    (Atom::Text("é"), &[0xa2, 0xc3, 0xa9]),
    (Atom::Bytes(&[]), &[0xc4, 0x00]),
    (Atom::Bytes(&[0xff]), &[0xc4, 0x01, 0xff]),
    (Atom::ArrayHead(0), &[0x90]),
    (Atom::ArrayHead(15), &[0x9f]),
    (Atom::ArrayHead(16), &[0xdc, 0x00, 0x10]),
    (Atom::ArrayHead(65_535), &[0xdc, 0xff, 0xff]),
    (Atom::ArrayHead(65_536), &[0xdd, 0x00, 0x01, 0x00, 0x00]),
    (
        Atom::ArrayHead(4_294_967_295),
        &[0xdd, 0xff, 0xff, 0xff, 0xff],
    ),
    (Atom::MapHead(0), &[0x80]),
    (Atom::MapHead(15), &[0x8f]),
    (Atom::MapHead(16), &[0xde, 0x00, 0x10]),
    (Atom::MapHead(65_535), &[0xde, 0xff, 0xff]),
    (Atom::MapHead(65_536), &[0xdf, 0x00, 0x01, 0x00, 0x00]),
    (
        Atom::MapHead(4_294_967_295),
        &[0xdf, 0xff, 0xff, 0xff, 0xff],
    ),
];

/// Spellings that are longer than they need be.
const LONGER: &[Row] = &[
    (Atom::Int(5), &[0xcc, 0x05]),
    (Atom::Int(5), &[0xcd, 0x00, 0x05]),
    (Atom::Int(5), &[0xce, 0x00, 0x00, 0x00, 0x05]),
    (Atom::Int(5), &[0xcf, 0, 0, 0, 0, 0, 0, 0, 5]),
    (Atom::Int(127), &[0xd0, 0x7f]),
    (Atom::Int(-1), &[0xd0, 0xff]),
    (Atom::Int(32_767), &[0xd1, 0x7f, 0xff]),
    (Atom::Int(-1), &[0xd1, 0xff, 0xff]),
    (Atom::Int(-2), &[0xd2, 0xff, 0xff, 0xff, 0xfe]),
    (Atom::Int(1), &[0xd3, 0, 0, 0, 0, 0, 0, 0, 1]),
    (Atom::Text(""), &[0xd9, 0x00]),
    (Atom::Text("a"), &[0xda, 0x00, 0x01, 0x61]),
    (Atom::Text("a"), &[0xdb, 0x00, 0x00, 0x00, 0x01, 0x61]),
    (Atom::Bytes(&[7]), &[0xc5, 0x00, 0x01, 0x07]),
    (Atom::Bytes(&[7]), &[0xc6, 0x00, 0x00, 0x00, 0x01, 0x07]),
    (Atom::ArrayHead(1), &[0xdc, 0x00, 0x01]),
    (Atom::ArrayHead(1), &[0xdd, 0x00, 0x00, 0x00, 0x01]),
    (Atom::MapHead(1), &[0xde, 0x00, 0x01]),
    (Atom::MapHead(1), &[0xdf, 0x00, 0x00, 0x00, 0x01]),
];

/// The atom is read from these bytes, a byte more behind them changes nothing, and each proper
/// front of them is too short.
fn is_spelling(alloc: Global, row: &Row) -> Result<bool, AllocError> {
    let (atom, bytes) = row;
    let got = AtomRead::Got {
        atom: *atom,
        used: bytes.len(),
    };
    let mut longer = Vec::from_slice(alloc, bytes)?;
    longer.push(0xc1)?;
    let whole = read_atom(bytes) == got && read_atom(&longer) == got;
    Ok(whole && (0..bytes.len()).all(|n| read_atom(&bytes[..n]) == AtomRead::Short))
}

/// The atom can be written.
fn has_spelling(atom: &Atom<'_>) -> bool
    ensures { IsTrue result → Fits (value_of atom.now) }
{
    match atom {
        Atom::Int(n) => *n >= -0x8000_0000_0000_0000 && *n < 0x1_0000_0000_0000_0000,
        Atom::Text(text) => text.len() < 0x1_0000_0000,
        Atom::Bytes(bytes) => bytes.len() < 0x1_0000_0000,
        _ => true,
    }
}

/// The atom is written so, behind what stands there.
fn is_written(alloc: Global, row: &Row) -> Result<bool, AllocError> {
    let (atom, bytes) = row;
    if !has_spelling(atom) {
        return Ok(false);
    }
    let mut out = vec![in alloc; 0xc1]?;
    put_atom(&mut out, atom)?;
    Ok(out.split_first() == Some((&0xc1, *bytes)))
}

#[test]
fn reads_and_writes_the_edges_of_each_width(rt: HostRuntime) -> Result<(), Fail> {
    for row in INTS.iter().chain(OTHERS) {
        assert!(rt; is_spelling(rt.alloc(), row)?, "{row:?}");
        assert!(rt; is_written(rt.alloc(), row)?, "{row:?}");
    }
    Ok(())
}

#[test]
fn reads_spellings_that_are_longer_than_they_need_be(rt: HostRuntime) -> Result<(), Fail> {
    for row in LONGER {
        assert!(rt; is_spelling(rt.alloc(), row)?, "{row:?}");
        assert!(rt; !is_written(rt.alloc(), row)?, "{row:?}");
    }
    Ok(())
}

/// A length, and what stands in front of a text and of bytes of that length ("str format family",
/// "bin format family").
const HEADS: &[(usize, &[u8], &[u8])] = &[
    (0, &[0xa0], &[0xc4, 0x00]),
    (31, &[0xbf], &[0xc4, 0x1f]),
    (32, &[0xd9, 0x20], &[0xc4, 0x20]),
    (255, &[0xd9, 0xff], &[0xc4, 0xff]),
    (256, &[0xda, 0x01, 0x00], &[0xc5, 0x01, 0x00]),
    (65_535, &[0xda, 0xff, 0xff], &[0xc5, 0xff, 0xff]),
    (
        65_536,
        &[0xdb, 0x00, 0x01, 0x00, 0x00],
        &[0xc6, 0x00, 0x01, 0x00, 0x00],
    ),
];

/// The atom is written as this head and the body, and read from there. Less than that is too short.
fn is_behind_head(
    alloc: Global,
    atom: &Atom<'_>,
    head: &[u8],
    body: &[u8],
) -> Result<bool, AllocError> {
    if !has_spelling(atom) {
        return Ok(false);
    }
    let mut out = Vec::new(alloc);
    put_atom(&mut out, atom)?;
    let used = out.len();
    let written = used == head.len() + body.len() && out.starts_with(head) && out.ends_with(body);
    let got = AtomRead::Got { atom: *atom, used };
    let read = read_atom(&out) == got;
    out.truncate(used.saturating_sub(1));
    Ok(written && read && read_atom(&out) == AtomRead::Short)
}

#[test]
fn writes_lengths_at_the_edges_of_each_width(rt: HostRuntime) -> Result<(), Fail> {
    for (len, text_head, bytes_head) in HEADS {
        let body = vec![in rt.alloc(); b'a'; *len]?;
        let text = str::from_utf8(&body).expect(&rt, "letters are text");
        let (text, bytes) = (Atom::Text(text), Atom::Bytes(&body));
        assert!(rt;
            is_behind_head(rt.alloc(), &text, text_head, &body)?,
            "{len}"
        );
        assert!(rt;
            is_behind_head(rt.alloc(), &bytes, bytes_head, &body)?,
            "{len}"
        );
    }
    Ok(())
}

/// What a first byte alone answers.
#[derive(Clone, Copy, Debug, PartialEq)]
enum Answer {
    Got,
    Short,
    Bad,
}

/// The first bytes from here to there ("Overview").
const FIRST_BYTES: &[(u8, u8, Answer)] = &[
    (0x00, 0xa0, Answer::Got),
    (0xa1, 0xbf, Answer::Short),
    (0xc0, 0xc1, Answer::Bad),
    (0xc2, 0xc3, Answer::Got),
    (0xc4, 0xc6, Answer::Short),
    (0xc7, 0xc9, Answer::Bad),
    (0xca, 0xd3, Answer::Short),
    (0xd4, 0xd8, Answer::Bad),
    (0xd9, 0xdf, Answer::Short),
    (0xe0, 0xff, Answer::Got),
];

fn answer_to(byte: u8) -> Answer {
    match read_atom(&[byte]) {
        AtomRead::Got { .. } => Answer::Got,
        AtomRead::Short => Answer::Short,
        AtomRead::Bad { .. } => Answer::Bad,
    }
}

#[test]
fn answers_each_first_byte_alone(rt: HostRuntime) {
    for byte in 0..=0xff {
        let row = FIRST_BYTES
            .iter()
            .find(|(from, to, _)| *from <= byte && byte <= *to);
        assert_eq!(rt;
            row.map(|(_, _, answer)| *answer),
            Some(answer_to(byte)),
            "{byte:#x}"
        );
    }
}

/// Bytes, and what stands at their front.
const FRONTS: &[(&[u8], AtomRead<'static>)] = &[
    (&[], AtomRead::Short),
    // A whole text that isn't UTF-8 is bad. One that isn't whole is short, whatever it has so far.
    (&[0xa1, 0xff], AtomRead::Bad { byte: 0xa1 }),
    (&[0xa2, 0xc3, 0x28], AtomRead::Bad { byte: 0xa2 }),
    (&[0xd9, 0x01, 0x80], AtomRead::Bad { byte: 0xd9 }),
    (
        &[0xda, 0x00, 0x01, 0xc3, 0xa9],
        AtomRead::Bad { byte: 0xda },
    ),
    (
        &[0xdb, 0x00, 0x00, 0x00, 0x01, 0xfe],
        AtomRead::Bad { byte: 0xdb },
    ),
    (&[0xa2, 0xff], AtomRead::Short),
    (&[0xda, 0x00, 0x03, 0xff, 0xff], AtomRead::Short),
    // Bytes may be anything.
    (
        &[0xc4, 0x01, 0xff],
        AtomRead::Got {
            atom: Atom::Bytes(&[0xff]),
            used: 3,
        },
    ),
    // Lengths that the bytes don't hold. A head has no elements of its own.
    (&[0xc6, 0xff, 0xff, 0xff, 0xff], AtomRead::Short),
    (&[0xdb, 0xff, 0xff, 0xff, 0xff, 0x61], AtomRead::Short),
    (
        &[0xdd, 0xff, 0xff, 0xff, 0xff],
        AtomRead::Got {
            atom: Atom::ArrayHead(4_294_967_295),
            used: 5,
        },
    ),
    // Nil, the byte that is never used, and extensions.
    (&[0xc0, 0x00], AtomRead::Bad { byte: 0xc0 }),
    (&[0xc1, 0x00], AtomRead::Bad { byte: 0xc1 }),
    (&[0xd4, 0x01, 0x00], AtomRead::Bad { byte: 0xd4 }),
    (&[0xc7, 0x01, 0x01, 0x00], AtomRead::Bad { byte: 0xc7 }),
];

#[test]
fn tells_short_from_bad(rt: HostRuntime) {
    for (bytes, want) in FRONTS {
        assert_eq!(rt; read_atom(bytes), *want, "{bytes:?}");
    }
}
