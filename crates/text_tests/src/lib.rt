//! Tests of what is spelled: messages, schedules, reports, tapes, scripts and answers.
#![tactic(auto)]

#[cfg(test)]
mod tests;
