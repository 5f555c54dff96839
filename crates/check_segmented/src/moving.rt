// One move of rows, beside the answer and the bytes that are due.
ghost use Rattle.std.specs.Prelude.{◌≡◌, length};
ghost use Rattle.systems.specs.Refusals.{outcome};
ghost use Rattle.segmented.specs.Segmented.{move_outcome, buffer_after};
ghost use Rattle.check_segmented.specs.Cases.{agrees, moves, moved};

use check_records::begin_alike;
use segmented::Order;
use systems::Refusal;

// The longest buffer, of 5 bytes a row, and what a buffer holds before a call.
pub const ROOM: usize = 5400;

pub const FILLED: u8 = 171;

// Whether moving rows into a buffer of so many bytes gives what is due.
pub fn is_moved(order: Order, answer: Result<(), u32>, from: &[u8], due: &[u8], to: usize) -> bool
    ensures { result ≡ moved order answer from.now due.now to }
{
    // An array and no Vec: a Vec would make each function above answer for memory.
    let mut lent = [FILLED; ROOM];
    if to > lent.len() {
        return false;
    }
    moves(order, answer, from, due, &mut lent[..to])
}

fn moves(order: Order, answer: Result<(), u32>, from: &[u8], due: &[u8], lent: &mut [u8]) -> bool
    ensures { result ≡ moves order answer from.now due.now lent.old }
{
    let found = call(order, from, lent);
    is_due(found, answer) & begin_alike(lent, due, lent.len())
}

// By the order, which the definitions name: a closure would have to be told both what it answers and what it leaves.
fn call(order: Order, from: &[u8], to: &mut [u8]) -> Result<(), Refusal>
    ensures result_value { outcome result ≡ move_outcome (length from.now) (length to.old) }
    ensures to_after { to.new ≡ buffer_after order from.now to.old }
{
    match order {
        Order::Segmented => segmented::to_segmented(from, to),
        Order::Progressive => segmented::to_progressive(from, to),
    }
}

fn is_due(found: Result<(), Refusal>, answer: Result<(), u32>) -> bool
    ensures { result ≡ agrees (outcome found) answer }
{
    found.map_err(Refusal::number) == answer
}
