// No code: specs/ has the theory.
#![tactic(auto)]
