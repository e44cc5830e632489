// The promises in one place, demand by demand. No code: the table T1 to T12 is specs/Table.antt, the theorems are in proofs/.
#![tactic(auto)]
