// The rows of a progressive picture in segmented-frame order, and back (request 2026-01).
#![tactic(auto)]

ghost use Rattle.std.specs.Prelude.{◌≡◌, ◌++◌, ◌+◌, ◌*◌, ◌<◌, ◌≤◌, length, take, drop};
ghost use Rattle.systems.specs.Refusals.{outcome};
ghost use Rattle.segmented.specs.declared.Order.TheVariants.{Segmented, Progressive};
ghost use Rattle.segmented.specs.Segmented.{source, byte_row, rows_by, can_move, move_outcome, buffer_after};

use systems::Refusal;

// The order into which rows are brought.
#[derive(Clone, Copy)]
pub enum Order {
    Segmented,
    Progressive,
}

const ROWS: usize = 1080;

// The rows of `progressive` in rising total line. Refused: 31. A call each way, as the C interface has them.
pub fn to_segmented(progressive: &[u8], segmented: &mut [u8]) -> Result<(), Refusal>
    ensures result_value { outcome result ≡ move_outcome (length progressive.now) (length segmented.old) }
    ensures segmented_after { segmented.new ≡ buffer_after Segmented progressive.now segmented.old }
{
    reorder(Order::Segmented, progressive, segmented)
}

// And back. Refused: 31.
pub fn to_progressive(segmented: &[u8], progressive: &mut [u8]) -> Result<(), Refusal>
    ensures result_value { outcome result ≡ move_outcome (length segmented.now) (length progressive.old) }
    ensures progressive_after { progressive.new ≡ buffer_after Progressive segmented.now progressive.old }
{
    reorder(Order::Progressive, segmented, progressive)
}

fn reorder(order: Order, from: &[u8], to: &mut [u8]) -> Result<(), Refusal>
    ensures result_value { outcome result ≡ move_outcome (length from.now) (length to.old) }
    ensures to_after { to.new ≡ buffer_after order from.now to.old }
{
    if !can_move(from.len(), to.len()) {
        return Err(Refusal::Length);
    }
    move_rows(order, from.len() / ROWS, from, to);
    Ok(())
}

// Whether the lengths are alike, not 0, and a multiple of 1080.
fn can_move(from: usize, to: usize) -> bool
    ensures { result ≡ can_move from to }
{
    (from != 0) & (from % ROWS == 0) & (from == to)
}

// Every row to its place, as a run of bytes.
fn move_rows(order: Order, bytes: usize, from: &[u8], to: &mut [u8])
    requires { (length from.now ≡ bytes * 1080) × (length to.old ≡ bytes * 1080) }
    ensures { to.new ≡ rows_by (source order) bytes from.now 1080 }
{
    for k in 0..ROWS {
        move_row(bytes, from, order.source(k), to, k);
    }
}

impl Order {
    // The row that comes to place k.
    fn source(self, k: usize) -> usize
        requires { k < 1080 }
        ensures { result ≡ source self k }
    {
        match self {
            Order::Segmented => row_at(k),
            Order::Progressive => place_of(k),
        }
    }
}

// The row at a place of the segmented order: odd active lines, which are the rows 0, 2, 4, .., come first.
fn row_at(place: usize) -> usize
    requires { place < 1080 }
    ensures { result ≡ source Segmented place }
{
    if place < ROWS / 2 {
        return 2 * place;
    }
    2 * (place - ROWS / 2) + 1
}

// The place of a row in the segmented order.
fn place_of(row: usize) -> usize
    requires { row < 1080 }
    ensures { result ≡ source Progressive row }
{
    if row % 2 == 0 {
        return row / 2;
    }
    ROWS / 2 + row / 2
}

// One row of so many bytes to its place.
fn move_row(bytes: usize, from: &[u8], source: usize, to: &mut [u8], place: usize)
    requires { (bytes * source + bytes ≤ length from.now) × (bytes * place + bytes ≤ length to.old) }
    ensures { to.new ≡ take (bytes * place) to.old ++ (byte_row bytes from.now source ++ drop (bytes * place + bytes) to.old) }
{
    let start = bytes * source;
    let at = bytes * place;
    to[at..at + bytes].copy_from_slice(&from[start..start + bytes]);
}
