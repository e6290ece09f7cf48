// Verdicts.
ghost use Rattle.std.specs.Prelude.{◌≡◌};
ghost use Rattle.verdict.specs.Walk.{verdict_by, verdict_number};

// What is said of a query over all minimal explanations.
#[derive(Clone, Copy, Debug, PartialEq, Eq)]
pub enum Verdict {
    Unexplained,
    Follows,
    Denied,
    Open,
}

impl Verdict {
    // The verdict over a number of minimal explanations: follows says whether a query is true under each of them, and
    // denied whether it is false.
    pub fn over(minimal: u64, follows: bool, denied: bool) -> Verdict
        ensures { result ≡ verdict_by minimal follows denied }
    {
        if minimal == 0 {
            Verdict::Unexplained
        } else if follows {
            Verdict::Follows
        } else if denied {
            Verdict::Denied
        } else {
            Verdict::Open
        }
    }
}

// Document 01's number of a verdict.
impl From<Verdict> for u64 {
    ghost from_gives = { λ v n. n ≡ verdict_number v };

    fn from(verdict: Verdict) -> u64 {
        match verdict {
            Verdict::Unexplained => 0,
            Verdict::Follows => 1,
            Verdict::Denied => 2,
            Verdict::Open => 3,
        }
    }
}
