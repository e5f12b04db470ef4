// What the benchmark links: the strict verdict on telemetry, for a caller in C. In a crate of its own, as in a program that has this one use for it.
#![tactic(auto)]

ghost use Rattle.std.specs.Prelude.{◌≡◌};
ghost use Rattle.tm_strict.specs.Verdict.{strict_in};
ghost use Rattle.bench_tm_judge.specs.Numbers.{total_number};

// The octets of a time field.
const TIME_LEN: u8 = 7;

// The octets of the packet that is accepted, 0 where it is refused.
#[unsafe(no_mangle)]
pub extern "C" fn port_tm_judge(data: &[u8]) -> usize
    ensures { result ≡ total_number (strict_in 7 «data».now) }
{
    tm_strict::judge(TIME_LEN, data).map_or(0, |record| record.total)
}
