// What a verifier answers: accepted; rejected, with the check that fails; refused.
#![tactic(auto)]

use job::Refusal;

// Which check failed, and where: sum i; final; base j; fold, with the query's position from 0 and the lower level.
#[derive(Clone, Copy, Debug, PartialEq, Eq)]
pub enum Failure {
    Sum(u32),
    Final,
    Base(u32),
    Fold(u32, u32),
}

#[derive(Clone, Copy, Debug, PartialEq, Eq)]
pub enum Outcome {
    Accepted,
    Rejected(Failure),
    Refused(Refusal),
}

#[derive(Clone, Copy, Debug, PartialEq, Eq)]
pub struct Verdict {
    pub outcome: Outcome,
}
