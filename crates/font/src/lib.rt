// What a property list says of a font. The crate has definitions and proofs only.
#![tactic(auto)]
