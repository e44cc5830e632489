// What the listing of a captured line is. No code: the definitions are in specs/, the laws in proofs/. The crate `lister` lists.
#![tactic(auto)]
