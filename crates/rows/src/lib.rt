// How refusals are numbered and ranked. No code: the definitions are in specs/Rows.antt, the laws in proofs/Laws.antt.
#![tactic(auto)]
