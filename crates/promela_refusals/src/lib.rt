//! Which refusals apply to a tree, and the least of them: definitions. Nothing here is run.
#![tactic(auto)]
