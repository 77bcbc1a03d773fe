#![tactic(auto)]

// No code: this crate is the rules, docs/RULES.md, as definitions, in specs/, and the laws about them, in proofs/.
