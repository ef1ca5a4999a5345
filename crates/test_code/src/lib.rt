//! Rows in code: what no text gives. Tokens, places, types and variables that no model has, first states of refused models, a store by itself, growths
//! that may be refused, what a world keeps after each step and answers once it has stopped, and sessions of small machines over devices that fail.
#![tactic(auto)]

#[cfg(test)]
mod adapters;
#[cfg(test)]
mod beginnings;
#[cfg(test)]
mod compare;
#[cfg(test)]
mod expressions;
#[cfg(test)]
mod failing;
#[cfg(test)]
mod footprints;
#[cfg(test)]
mod limits;
#[cfg(test)]
mod machine;
#[cfg(test)]
mod models;
#[cfg(test)]
mod parts;
#[cfg(test)]
mod player;
#[cfg(test)]
mod refused;
#[cfg(test)]
mod row;
#[cfg(test)]
mod run;
mod sample;
#[cfg(test)]
mod sessions;
#[cfg(test)]
mod statements;
#[cfg(test)]
mod stopped;
#[cfg(test)]
mod stores;
#[cfg(test)]
mod tokens;
#[cfg(test)]
mod versions;
#[cfg(test)]
mod wholes;
#[cfg(test)]
mod words;

pub use sample::{ProcessPair, Sample, SettingRounds};
