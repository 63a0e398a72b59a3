// That each promise fixes its result: laws in proofs/, no code.
#![tactic(auto)]
