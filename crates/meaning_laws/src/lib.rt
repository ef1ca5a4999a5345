//! What a tree stands for: a relation between trees and checked models, which the numbering of names meets.
#![tactic(auto)]

pub mod laws;
