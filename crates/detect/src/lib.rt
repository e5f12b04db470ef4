// What the checksum detects: theorems only, in proofs/.
#![tactic(auto)]
