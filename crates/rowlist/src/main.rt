// Lists the block on standard input: its system, row number, count, and the components clipped low and high, then R, G and B of each
// sample, a line each; or the number of the refusal.
#![tactic(auto)]

use std::io;

fn main(rt: HostRuntime) -> io::Result<()> {
    listing::list(&mut rt.stdin(), &mut rt.stdout())
}
