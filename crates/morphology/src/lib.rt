// No code: specs/ has the definitions of document 01, proofs/ their laws.
#![tactic(auto)]
