ghost use Rattle.std.specs.Prelude.{◌≡◌, ◌+◌, ◌/◌, ◌<◌, ◌≤◌, length};
ghost use Rattle.gw_base.specs.Cell.{IsCell, cell_bytes, counted};
ghost use Rattle.cell_stream.specs.Packing.{IsPacked};

use arrayvec::ArrayVec;

/// The most bytes of a cell.
const CELL_BYTES: usize = 7;

/// The cells that the longest payload, of 64 bytes, is packed into.
const MOST_CELLS: usize = 10;

/// The cell of one to seven bytes.
fn cell_of(bytes: &[u8]) -> u64
    requires some { 0 < length bytes.now }
    requires most { length bytes.now ≤ 7 }
    ensures cell { IsCell result }
    ensures bytes { cell_bytes result ≡ bytes.now }
{
    let len = bytes.len();
    let mut word = [0; CELL_BYTES + 1];
    word[0] = len as u8;
    word[1..1 + len].copy_from_slice(bytes);
    u64::from_le_bytes(word)
}

/// The cells of a payload of at most 64 bytes: of seven bytes each, and one of the rest (this project's own).
pub fn pack(bytes: &[u8]) -> ArrayVec<u64, MOST_CELLS>
    requires { length bytes.now ≤ 64 }
    ensures packed { IsPacked bytes.now result.items }
    ensures number { length result.items ≡ (length bytes.now + 6) / 7 }
    ensures counted { counted result.items ≡ length bytes.now }
{
    let mut cells = ArrayVec::new();
    let mut rest = bytes;
    while !rest.is_empty() {
        let (piece, later) = rest.split_at(rest.len().min(CELL_BYTES));
        cells.push(cell_of(piece));
        rest = later;
    }
    cells
}
