// What the benchmark links: the strict verdict, for a caller in C. In a crate of its own, as in a program that has this one use for it.
#![tactic(auto)]

ghost use Rattle.std.specs.Prelude.{◌≡◌};
ghost use Rattle.tc_strict.specs.Verdict.{strict_of};
ghost use Rattle.bench_judge.specs.Numbers.{total_number};

// The octets of the packet that is accepted, 0 where it is refused.
#[unsafe(no_mangle)]
pub extern "C" fn port_judge(data: &[u8]) -> usize
    ensures { result ≡ total_number (strict_of «data».now) }
{
    tc_strict::judge(data).map_or(0, |record| record.total)
}
