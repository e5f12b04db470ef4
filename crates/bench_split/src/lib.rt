// What the benchmark links: a step of the splitter, for a caller in C. In a crate of its own, as in a program that has this one use for it.
#![tactic(auto)]

ghost use Rattle.std.specs.Prelude.{◌≡◌};
ghost use Rattle.tc_strict.specs.Split.{step_of};
ghost use Rattle.bench_split.specs.Numbers.{step_number};

use tc_strict::split::{Cursor, Step};

// Where the next packet begins, 0 where this one is not accepted.
#[unsafe(no_mangle)]
pub extern "C" fn port_step(capture: &[u8], at: usize) -> usize
    ensures { result ≡ step_number (step_of capture.now at) }
{
    let here = Cursor { at };
    match here.step(capture) {
        Step::Packet {
            verdict: Ok(_),
            next,
            ..
        } => next.at,
        _ => 0,
    }
}
