// The lines of a check behind what they have in common.

use crate::print::print_answers;
use check_records::Tally;
use std::io;

// Writes the lines of `print_answers`, each behind `before`, such as 'open refused 21, widest: 5 compared, 0 differ'.
pub fn print_each<F: Fn(u32) -> Tally>(
    rt: &HostRuntime,
    before: &str,
    answers: &[u32],
    after: &str,
    compare: F,
) -> io::Result<()>
    requires { F.IsAlwaysCallable compare }
{
    for number in answers {
        let tally = compare(*number);
        print!(rt; "{before}")?;
        print_answers(rt, &[*number], after, |_| tally)?;
    }
    Ok(())
}

#[cfg(test)]
mod tests {
    use super::*;
    use std::cell::Cell;

    #[test]
    fn compares_each_answer(rt: HostRuntime) -> io::Result<()> {
        let compared = Cell::new(1u32);
        print_each(&rt, "open ", &[0, 21, 4], ", widest", |answer| {
            compared.set(compared.get().wrapping_mul(100).wrapping_add(answer));
            Tally::NONE
        })?;
        assert_eq!(rt; compared.get(), 1002104);
        Ok(())
    }
}
