// Rows in progressive order, and the same rows in segmented order behind them: the files 'rows_1' to 'rows_5'.
ghost use Rattle.std.specs.Prelude.{◌≡◌};
ghost use Rattle.check_segmented.specs.Cases.{rows_compared};

use crate::moving::is_moved;
use check_records::Tally;
use segmented::Order;

// Compares both ways with the other half of the file.
pub fn compare(rows: &[u8]) -> Tally
    ensures { result ≡ rows_compared rows.now }
{
    let (progressive, segmented) = rows.split_at(rows.len() / 2);
    let there = is_moved(
        Order::Segmented,
        Ok(()),
        progressive,
        segmented,
        progressive.len(),
    );
    let back = is_moved(
        Order::Progressive,
        Ok(()),
        segmented,
        progressive,
        progressive.len(),
    );
    Tally::NONE.with(there).with(back)
}
