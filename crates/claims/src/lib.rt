// No code: specs/ has the claims as statements, proofs/ a proof of each.
#![tactic(auto)]
