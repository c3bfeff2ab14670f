// No code: specs/ has the notation as rules.
#![tactic(auto)]
