// What the customer is promised: statements over the definitions of the other crates, and their proofs. There is no code here.
#![tactic(auto)]
