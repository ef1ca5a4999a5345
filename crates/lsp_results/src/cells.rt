//! What the name is that begins at each byte of a text, by number: 0 where none does.

ghost use Rattle.std.specs.Prelude.{◌≡◌, slice_index_or, replicate, IfOk};
ghost use Rattle.lsp_results.specs.Cells.{number_of, put, declared, meant, cells_of, cells_by};

use crate::sorts::{DeclaredSort, sort_in};
use declared_names::declared::Declaration;
use declared_names::occurrence::Occurrence;
use model_names::TextNames;
use std::alloc::{AllocError, Global};

/// The number of what a name is, from 1: its place in the legend behind the names' first one.
fn number_of(sort: DeclaredSort) -> usize
    ensures { result ≡ number_of sort }
{
    match sort {
        DeclaredSort::Variable => 1,
        DeclaredSort::Field => 2,
        DeclaredSort::Constant => 3,
        DeclaredSort::Typedef => 4,
        DeclaredSort::Proctype => 5,
        DeclaredSort::Inline => 6,
        DeclaredSort::Parameter => 7,
        DeclaredSort::Label => 8,
    }
}

/// Puts a number into the cell of a byte, if there is one.
fn put(cells: &mut Vec<usize>, at: usize, number: usize)
    ensures { cells.new.items ≡ put cells.old.items at number }
{
    if at < cells.len() {
        cells[at] = number;
    }
}

/// Puts what declared names are where they are declared.
fn declare(cells: &mut Vec<usize>, all: &[Declaration], some: &[Declaration])
    ensures { cells.new.items ≡ declared all.now cells.old.items some.now }
{
    for declaration in some {
        let number = number_of(sort_in(all, declaration));
        put(cells, declaration.at, number);
    }
}

/// The number in the cell of a byte.
pub fn cell_at(cells: &[usize], at: usize) -> usize
    ensures { result ≡ slice_index_or cells.now at 0 }
{
    match cells.get(at) {
        Some(number) => *number,
        None => 0,
    }
}

/// Puts what names are where they stand, by what is declared.
fn mean(cells: &mut Vec<usize>, declared: &[usize], occurrences: &[Occurrence])
    ensures { cells.new.items ≡ meant declared.now cells.old.items occurrences.now }
{
    for occurrence in occurrences {
        put(cells, occurrence.at, cell_at(declared, occurrence.declared));
    }
}

/// A cell for each byte.
fn empty(alloc: Global, length: usize) -> Result<Vec<usize>, AllocError>
    ensures { IfOk result (λ v. v.items ≡ replicate length 0) }
{
    let mut cells = Vec::new(alloc);
    cells.resize(length, 0)?;
    Ok(cells)
}

/// What the name is that begins at each of so many bytes.
fn cells_of(alloc: Global, length: usize, names: &TextNames) -> Result<Vec<usize>, AllocError>
    ensures { IfOk result (λ v. v.items ≡ cells_of length names.now) }
{
    let all = names.declarations.as_slice();
    let mut declared = empty(alloc, length)?;
    declare(&mut declared, all, all);
    declare(&mut declared, all, names.inlines.declarations.as_slice());
    let mut cells = empty(alloc, length)?;
    mean(&mut cells, &declared, names.meant.as_slice());
    mean(&mut cells, &declared, names.inlines.meant.as_slice());
    Ok(cells)
}

/// The same of a text whose names are known, and nothing of one without.
pub fn cells_by(
    alloc: Global,
    length: usize,
    names: &Option<TextNames>,
) -> Result<Vec<usize>, AllocError>
    ensures { IfOk result (λ v. v.items ≡ cells_by length names.now) }
{
    match names {
        Some(names) => cells_of(alloc, length, names),
        None => Ok(Vec::new(alloc)),
    }
}
