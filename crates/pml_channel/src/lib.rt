//! Channels of messages (Holzmann, *The SPIN Model Checker*, chapter 3).
#![tactic(auto)]

pub mod channel;
