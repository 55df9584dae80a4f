// What R-1 promises: the file that is built of a listing keeps what the listed file holds. The crate has definitions and proofs only.
#![tactic(auto)]
