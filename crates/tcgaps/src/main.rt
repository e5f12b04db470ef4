// Lists the gaps of standard input.
#![tactic(auto)]

use std::io;

fn main(rt: HostRuntime) -> io::Result<()> {
    gap_report::run(&mut rt.stdin(), &mut rt.stdout())
}
