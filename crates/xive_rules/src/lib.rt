// The rules of paper 02, ticket 1, as a plain machine: definitions in specs/, examples and laws in proofs/. No code.
#![tactic(auto)]
