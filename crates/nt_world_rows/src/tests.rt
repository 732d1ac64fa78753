//! Runs of steps, and how the world stands after each.

use crate::rows::Step::{Cut, Down, Drain, Join, Publish, Put, Subscribe, Up};
use crate::rows::{Row, first_other};
use std::test::Fail;

/// Two publishers put values of one time, and both clients hold the later one. Then one is cut with
/// frames on both of its wires, and connects again.
const CUT: &[Row] = &[
    Row(Publish(1, 1, "/a"), "- 0/0;- 0/0;0"),
    Row(Publish(2, 1, "/a"), "- 0/0;- 0/0;0"),
    Row(Subscribe(1, 2, "/a"), "- 0/0;- 0/0;0"),
    Row(Subscribe(2, 2, "/a"), "- 0/0;- 0/0;0"),
    Row(Join(1), "1 1/0;- 0/0;1"),
    Row(Join(2), "1 1/0;2 1/0;2"),
    Row(Up(1), "1 0/0;2 1/0;4"),
    Row(Up(2), "1 0/0;2 0/0;6"),
    Row(Put(1, 1, 10, 1), "1 1/0;2 0/0;6"),
    Row(Put(2, 1, 10, 2), "1 1/0;2 1/0;6"),
    Row(Up(1), "1 0/0;2 1/0;7"),
    Row(Up(2), "1 0/0;2 0/0;8"),
    Row(Drain(1), "1 0/2;2 0/0;9"),
    Row(Drain(2), "1 0/2;2 0/2;10"),
    Row(Down(1), "1 0/1 /a;2 0/2;10"),
    Row(Down(1), "1 0/0 /a=2@10;2 0/2;10"),
    Row(Down(2), "1 0/0 /a=2@10;2 0/1 /a;10"),
    Row(Down(2), "1 0/0 /a=2@10;2 0/0 /a=2@10;10"),
    // A call that is refused, and steps that don't apply.
    Row(Publish(1, 1, "/b"), "1 0/0 /a=2@10;2 0/0 /a=2@10;10"),
    Row(Up(1), "1 0/0 /a=2@10;2 0/0 /a=2@10;10"),
    Row(Cut(3), "1 0/0 /a=2@10;2 0/0 /a=2@10;10"),
    Row(Join(0), "1 0/0 /a=2@10;2 0/0 /a=2@10;10"),
    Row(Put(2, 1, 20, 3), "1 0/0 /a=2@10;2 1/0 /a=2@10;10"),
    Row(Up(2), "1 0/0 /a=2@10;2 0/0 /a=2@10;11"),
    Row(Drain(1), "1 0/1 /a=2@10;2 0/0 /a=2@10;12"),
    Row(Put(1, 1, 30, 4), "1 1/1 /a=2@10;2 0/0 /a=2@10;12"),
    Row(Cut(1), "- 0/0;2 0/0 /a=2@10;13"),
    Row(Up(1), "- 0/0;2 0/0 /a=2@10;13"),
    Row(Down(1), "- 0/0;2 0/0 /a=2@10;13"),
    Row(Drain(1), "- 0/0;2 0/0 /a=2@10;13"),
    Row(Cut(1), "- 0/0;2 0/0 /a=2@10;13"),
    Row(Join(1), "3 2/0;2 0/0 /a=2@10;14"),
    Row(Join(1), "3 2/0;2 0/0 /a=2@10;14"),
    Row(Up(1), "3 1/0;2 0/0 /a=2@10;16"),
    Row(Up(1), "3 0/0;2 0/0 /a=2@10;17"),
    Row(Drain(1), "3 0/2;2 0/0 /a=2@10;18"),
    Row(Down(1), "3 0/1 /a;2 0/0 /a=2@10;18"),
    Row(Down(1), "3 0/0 /a=4@30;2 0/0 /a=2@10;18"),
    Row(Drain(2), "3 0/0 /a=4@30;2 0/1 /a=2@10;19"),
    Row(Down(2), "3 0/0 /a=4@30;2 0/0 /a=4@30;19"),
];

#[test]
fn a_client_is_cut_with_frames_on_both_wires(rt: HostRuntime) -> Result<(), Fail> {
    let other = first_other(rt.alloc(), CUT)?;
    assert_eq!(rt; other.as_str(), "");
    Ok(())
}
