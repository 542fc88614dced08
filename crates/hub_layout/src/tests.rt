//! The places of a small layout, counted by hand.
use super::*;
use gw_base::{BufNo, DestNo, GroupNo};
use std::test::*;

/// Two groups of one buffer each: the pool words, and then eleven words and the cells of each buffer.
#[test]
fn two_groups_of_one_buffer(rt: HostRuntime) {
    let layout = Layout::of(&[3, 4], &[1, 1]);
    assert_eq!(rt; layout.pool(GroupNo(1)), 1);
    assert_eq!(rt; layout.card(BufNo(0)), 2);
    assert_eq!(rt; layout.length(BufNo(0)), 3);
    assert_eq!(rt; layout.count(BufNo(0)), 4);
    assert_eq!(rt; layout.position(BufNo(0), DestNo(7)), 12);
    assert_eq!(rt; layout.cell(BufNo(0), 2), 15);
    assert_eq!(rt; layout.card(BufNo(1)), 16);
    assert_eq!(rt; layout.cell(BufNo(1), 3), 30);
    assert_eq!(rt; layout.words(), 31);
}
