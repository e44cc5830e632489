// A sheet and its text, there and back. No code: the definitions are in specs/Texts.antt, the theorems in proofs/Laws.antt.
#![tactic(auto)]
