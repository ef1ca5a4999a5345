//! What a session takes a model for: a machine with moves, steps and texts. Definitions alone; nothing here is run.
#![tactic(auto)]
