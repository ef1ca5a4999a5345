//! The numbers that a row writes. They stay as long as the program runs.
use row_files::RowWriter;
use std::alloc::{AllocError, Global};

/// The number that is written so.
pub fn number(text: &str, out: &mut RowWriter) -> i32 {
    match text.parse::<i32>() {
        Ok(number) => number,
        Err(_) => {
            out.refuse("no number");
            0
        }
    }
}

fn numbers(alloc: Global, text: &str, out: &mut RowWriter) -> Result<Vec<i32>, AllocError> {
    let mut numbers = Vec::new(alloc);
    for word in text.split(' ') {
        numbers.push(number(word, out))?;
    }
    Ok(numbers)
}

/// The numbers that are written with a blank between them; none, where nothing is written.
pub fn cells(alloc: Global, text: &str, out: &mut RowWriter) -> &'static [i32] {
    if text.is_empty() {
        return &[];
    }
    match numbers(alloc, text, out) {
        Ok(numbers) => numbers.leak(),
        Err(AllocError) => {
            out.no_memory();
            &[]
        }
    }
}

fn counts(alloc: Global, cells: &[i32]) -> Result<Vec<usize>, AllocError> {
    let mut counts = Vec::new(alloc);
    for cell in cells {
        counts.push(usize::try_from(*cell).unwrap_or(usize::MAX))?;
    }
    Ok(counts)
}

/// The same of numbers that are not below 0; a large one stands for one that is.
pub fn indices(alloc: Global, text: &str, out: &mut RowWriter) -> &'static [usize] {
    match counts(alloc, cells(alloc, text, out)) {
        Ok(counts) => counts.leak(),
        Err(AllocError) => {
            out.no_memory();
            &[]
        }
    }
}
