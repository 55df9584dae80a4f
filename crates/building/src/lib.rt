// The file that PLtoTF makes of a font. The crate has definitions and proofs only.
#![tactic(auto)]
