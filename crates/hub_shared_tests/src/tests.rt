//! Takes in threads, counted.
use super::*;
use std::test::*;

/// How many takes all seats were granted.
fn granted(outcome: &Outcome) -> u64 {
    let [first, second, third, fourth] = outcome.granted;
    u64::from(first) + u64::from(second) + u64::from(third) + u64::from(fourth)
}

/// Two ports that were made by one split take a thousand times each, from a group of three buffers: all three are
/// granted, and the word counts as many changes as both were granted, with nothing free.
#[test]
fn two_ports_take_in_threads(rt: HostRuntime) {
    let Ok(outcome) = two_takers(&rt, rt.alloc(), &[4, 8, 2], &[3], 1000) else {
        return;
    };
    assert_eq!(rt; granted(&outcome), 3);
    assert_eq!(rt; outcome.word, 3 << 32);
}

/// The same with four ports, over two groups: nobody takes from the second one.
#[test]
fn four_ports_take_in_threads(rt: HostRuntime) {
    let Ok(outcome) = four_takers(&rt, rt.alloc(), &[4, 8, 2, 2], &[3, 1], 1000) else {
        return;
    };
    assert_eq!(rt; granted(&outcome), 3);
    assert_eq!(rt; outcome.word, 3 << 32);
}

/// One buffer that all want: one of four ports is granted it.
#[test]
fn one_buffer_is_granted_once(rt: HostRuntime) {
    let Ok(outcome) = four_takers(&rt, rt.alloc(), &[1], &[1], 250) else {
        return;
    };
    assert_eq!(rt; granted(&outcome), 1);
    assert_eq!(rt; outcome.word, 1 << 32);
}

/// A port enters sessions of a path while another one joins them, in threads: three buffers make three sessions, and all
/// are joined once both threads have ended.
#[test]
fn sessions_are_joined_in_another_thread(rt: HostRuntime) {
    let Ok(meeting) = enter_and_join(&rt, rt.alloc(), &[4, 8, 2], &[3], 1000) else {
        return;
    };
    assert_eq!(rt; meeting.entered, 3);
    assert_eq!(rt; meeting.joined <= 3, true);
    assert_eq!(rt; meeting.later, 3);
}
