//! Worked runs of models, as theorems of the definitions.
#![tactic(auto)]
