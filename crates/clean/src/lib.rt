// The laws of files that are judged clean. The crate has definitions and proofs only.
#![tactic(auto)]
