// Judges the packets of standard input.
#![tactic(auto)]

use std::io;

fn main(rt: HostRuntime) -> io::Result<()> {
    report::run(&mut rt.stdin(), &mut rt.stdout())
}
