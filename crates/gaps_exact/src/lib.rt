// What the list of gaps tells, as theorems: specs/History.antt and specs/Tells.antt have the words, proofs/ the theorems.
//
// They are also proved here of the call itself. The function below is there for its contract, and nothing calls it.
#![tactic(auto)]

ghost use Rattle.gaps_exact.specs.Tells.{Tells};

use gaps::Listing;

fn told(capture: &[u8], list: &mut [[u16; 3]]) -> Listing
    ensures { Tells capture.now list.old result list.new }
{
    gaps::list_gaps(capture, list)
}
