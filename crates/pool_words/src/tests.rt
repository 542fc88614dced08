//! A group of four buffers whose word changes, counted by hand.
use super::*;
use std::test::*;

/// Cells of four buffers, of which two have as many.
const SIZES: [u32; 4] = [8, 4, 2, 4];

/// What serves a need, by the free set: the smallest, of equals the lowest number, and nothing where none fits.
#[test]
fn the_smallest_free_buffer_serves(rt: HostRuntime) {
    assert_eq!(rt; smallest_fitting(&SIZES, 0b1111, 3), Some(1));
    assert_eq!(rt; smallest_fitting(&SIZES, 0b1101, 3), Some(3));
    assert_eq!(rt; smallest_fitting(&SIZES, 0b0100, 3), None);
}

/// All four buffers are free at first, and the word says so; a word is read back as the pool that it is.
#[test]
fn a_full_group_is_a_word(rt: HostRuntime) {
    assert_eq!(rt; word_of(full_pool(4)), 15);
    assert_eq!(rt;
        pool_of(0x3_0000_0005),
        Pool {
            changes: 3,
            free: 5
        }
    );
}

/// A take of the first buffer clears its bit, and its free sets it again.
#[test]
fn a_buffer_is_taken_and_freed(rt: HostRuntime) {
    let full = full_pool(1);
    let taken = after_take(full, 0);
    assert_eq!(rt;
        taken,
        Pool {
            changes: 1,
            free: 0
        }
    );
    assert_eq!(rt;
        after_free(taken, 0),
        Pool {
            changes: 2,
            free: 1
        }
    );
}
