// What holds of a scan over any shift. No code: the definitions are in specs/Shift.antt, the theorems in proofs/Laws.antt.
#![tactic(auto)]
