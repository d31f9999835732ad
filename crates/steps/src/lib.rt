// States that step and what they write: definitions (specs/) and laws (proofs/) for every crate that lays rows, months, answers or lines into lent room. No code.
#![tactic(auto)]
