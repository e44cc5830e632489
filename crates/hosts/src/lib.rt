// What a C host is promised, by the calls of `kamzhor`: definitions and laws only, no code.
#![tactic(auto)]
