// Compares what the layers make of the texts of rows with what the rows want, in the files that the words name, and ends with status 0
// where all is as it is wanted, and each layer has rows.
#![tactic(auto)]

mod answer;
mod beginnings;
mod bytes;
mod doing;
mod files;
mod graph;
mod layer;
mod lines;
mod model;
mod numbers;
mod pairs;
mod place;
mod rows;
mod shape;
mod signs;
mod statements;
mod tally;
mod tokens;
mod tree;
mod values;
mod words;

use crate::files::compare_files;
use crate::tally::LayerTally;
use row_files::{Refused, names};
use std::process::ExitCode;

/// Compares the rows of all files that the words name, and prints how many passed. Answers whether all did.
fn compare_all(rt: &HostRuntime) -> Result<bool, Refused> {
    let files = names(rt)?;
    let mut tally = LayerTally::new(rt.alloc());
    compare_files(rt, files.as_slice(), &mut tally);
    Ok(tally.print(rt)?)
}

fn main(rt: HostRuntime) -> ExitCode {
    match compare_all(&rt) {
        Ok(true) => ExitCode::from(0),
        Ok(false) => ExitCode::from(1),
        Err(refused) => {
            let _ = eprintln!(rt; "test_layers: {}", refused.why);
            ExitCode::from(1)
        }
    }
}
