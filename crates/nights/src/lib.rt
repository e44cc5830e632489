// What holds of the desk over any sequence of calls. No code: the definitions are in specs/Night.antt, the theorems in proofs/Laws.antt.
#![tactic(auto)]
