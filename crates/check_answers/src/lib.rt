// What the programs that compare reading with data have in common: the answers that are due.
#![tactic(auto)]

mod answer;
mod behind;
mod due;
mod part;
mod print;

pub use answer::{Answer, number_of};
pub use behind::print_each;
pub use due::{Due, agrees};
pub use part::Part;
pub use print::print_answers;
