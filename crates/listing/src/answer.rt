// What `listing` answers.
use judge::Verdict;

// The verdict, and the lengths of the findings and of the listing in bytes. (C is given the lengths, and parts of the buffers would keep them lent.)
#[derive(Clone, Copy, Debug, PartialEq, Eq)]
pub struct Listing {
    pub verdict: Verdict,
    pub findings: usize,
    pub text: usize,
}
