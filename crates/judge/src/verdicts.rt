// What the inspection of a file answers.
ghost use Rattle.std.specs.Prelude.{◌≡◌};
ghost use Rattle.judge.specs.Verdicts.{number};

use std::fmt;

// Clean: nothing needs mending. Mended: the copy is, and the findings say where. Looping: a pair is rewritten without end.
#[derive(Clone, Copy, Debug, PartialEq, Eq)]
pub enum Verdict {
    Clean = 1,
    Mended = 2,
    Looping = 3,
}

impl Verdict {
    // The verdict's number, as C reads it.
    pub fn number(self) -> u8
        ensures { result ≡ number self }
    {
        self as u8
    }
}

impl fmt::Display for Verdict {
    fn fmt<W: fmt::Write>(&self, f: &mut fmt::Formatter<W>) -> fmt::Result {
        match self {
            Verdict::Clean => write!(f, "CLEAN"),
            Verdict::Mended => write!(f, "MENDED"),
            Verdict::Looping => write!(f, "LOOPING"),
        }
    }
}

// The verdict on a file, and the length of its findings in bytes. (C is given the length, and a part of the buffer would keep it lent.)
#[derive(Clone, Copy, Debug, PartialEq, Eq)]
pub struct Judgement {
    pub verdict: Verdict,
    pub findings: usize,
}
