// The answers of the calls as a caller in Rust or C gets them: 0 or the number of a refusal, and the values in the numbers that he lends.

#![tactic(auto)]

pub mod answer_codes;
pub mod calendar_codes;
pub mod engine_codes;
pub mod plan_codes;
