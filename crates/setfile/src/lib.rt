// Set files, written and loaded: what is loaded is what was written. There is no code here.
#![tactic(auto)]
