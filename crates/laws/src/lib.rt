// Laws that no part owns: definitions in specs/ and laws in proofs/, no code. Every other crate may stand on this one.
#![tactic(auto)]
