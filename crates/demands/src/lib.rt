// The three demands, stated in specs/Demands.antt and proved in proofs/. There is no code here: they are about the other crates'.
#![tactic(auto)]
