// What holds of a filter box over any evening. No code: the definitions are in specs/Evening.antt, the theorems in proofs/Laws.antt.
#![tactic(auto)]
