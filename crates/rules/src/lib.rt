// The rules of paper 01 as a plain machine: definitions in specs/, examples and laws in proofs/. No code.
#![tactic(auto)]
