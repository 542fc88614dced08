use super::*;
use arrayvec::ArrayVec;
use std::test::Fail;

/// The payload of a first frame of nine bytes, and its cells by hand: the count, then the bytes upwards.
const PAYLOAD: [u8; 9] = [0x10, 0x11, 0x12, 0x13, 0x14, 0x15, 0x16, 0x17, 0x18];

const CELLS: [u64; 2] = [0x1615_1413_1211_1007, 0x0000_0000_0018_1702];

#[test]
fn packs_a_full_and_a_short_cell(rt: HostRuntime) -> Result<(), Fail> {
    assert_eq!(rt; pack(&PAYLOAD).as_slice(), CELLS.as_slice());
    assert_eq!(rt; pack(&[]).len(), 0);
    Ok(())
}

#[test]
fn carries_bytes_across_cells(rt: HostRuntime) -> Result<(), Fail> {
    let mut carry = Carry::new();
    let cells = pack(&PAYLOAD);
    assert_eq!(rt; cells.len(), 2);
    carry.add(cells[0]);
    carry.add(cells[1]);
    assert_eq!(rt; carry.len(), 9);
    let mut frame: ArrayVec<u8, 64> = ArrayVec::new();
    carry.take(8, &mut frame);
    assert_eq!(rt; frame.as_slice(), &PAYLOAD[..8]);
    assert_eq!(rt; carry.len(), 1);
    Ok(())
}
