// What holds of the lanes over any calls on them and at the desk. No code: the definitions are in specs/, the theorems in proofs/.
#![tactic(auto)]
