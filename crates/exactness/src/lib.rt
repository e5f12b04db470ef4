// Exactness of the strict verdict, for every kind of packet: theorems only, in proofs/.
#![tactic(auto)]
