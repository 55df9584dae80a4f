// What the listing of a file states, and that reading its text gives that back. The crate has definitions and proofs only.
#![tactic(auto)]
