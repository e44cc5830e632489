// The first of some places that fits. No code: the definition is in specs/First.antt, the laws in proofs/Laws.antt.
#![tactic(auto)]
