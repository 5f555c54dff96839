// The lines of a check, one for each answer that the data have.

use crate::answer::Answer;
use check_records::Tally;
use std::io;

// Writes the tally of each of these answers, which are numbers of the data's, in a line such as 'refused 33, widest: 5
// compared, 0 differ'. What stands after the answer says of what it is, and may be empty.
pub fn print_answers<F: Fn(u32) -> Tally>(
    rt: &HostRuntime,
    answers: &[u32],
    after: &str,
    compare: F,
) -> io::Result<()>
    requires { F.IsAlwaysCallable compare }
{
    for number in answers {
        let tally = compare(*number);
        println!(rt; "{}{after}: {tally}", Answer(*number))?;
    }
    Ok(())
}
