//! The checked model of a syntax tree: the tree with each name replaced by what it stands for.
#![tactic(auto)]

mod action;
mod declare;
mod expression;
pub mod model;
mod reached;
mod scope;
mod statement;
