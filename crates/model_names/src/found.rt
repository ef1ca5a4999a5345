//! What is found among the names of a text.

ghost use Rattle.std.specs.Prelude.{◌≡◌, ◌++◌, IfOk, OnOk, find};
ghost use Rattle.std.specs.List.{list_any};
ghost use Rattle.model_names.specs.Found.{touches, name_at, places_in, declared_in, IsOrdered, is_label, is_label_there};

use crate::names::TextNames;
use declared_names::declared::{Declaration, Stands};
use declared_names::occurrence::Occurrence;
use std::alloc::{AllocError, Global};

/// Whether a name touches a place.
fn touches(occurrence: &Occurrence, offset: usize) -> bool
    ensures { result ≡ touches offset occurrence.now }
{
    occurrence.at <= offset && offset - occurrence.at <= occurrence.length
}

/// The first of these names that touches a place.
fn touching(occurrences: &[Occurrence], offset: usize) -> Option<Occurrence>
    ensures { result ≡ find (touches offset) occurrences.now }
{
    for occurrence in occurrences {
        if touches(occurrence, offset) {
            return Some(*occurrence);
        }
    }
    None
}

/// Adds where those of the names stand that mean a declaration.
fn add_places(
    out: &mut Vec<usize>,
    occurrences: &[Occurrence],
    declared: usize,
) -> Result<(), AllocError>
    ensures { OnOk result (out.new.items ≡ out.old.items ++ places_in declared occurrences.now) }
{
    for occurrence in occurrences {
        if occurrence.declared == declared {
            out.push(occurrence.at)?;
        }
    }
    Ok(())
}

/// Adds the declarations that the names at a place mean.
fn add_declared(
    out: &mut Vec<usize>,
    occurrences: &[Occurrence],
    at: usize,
) -> Result<(), AllocError>
    ensures { OnOk result (out.new.items ≡ out.old.items ++ declared_in at occurrences.now) }
{
    for occurrence in occurrences {
        if occurrence.at == at {
            out.push(occurrence.declared)?;
        }
    }
    Ok(())
}

/// Each of these numbers once, the least first.
fn ordered(numbers: Vec<usize>) -> Vec<usize>
    ensures { IsOrdered numbers.items result.items }
{
    let mut numbers = numbers;
    numbers.sort_unstable();
    numbers.dedup();
    numbers
}

fn is_label(stands: Stands) -> bool
    ensures { result ≡ is_label stands }
{
    match stands {
        Stands::Label => true,
        _ => false,
    }
}

fn has_label(declarations: &[Declaration], at: usize) -> bool
    ensures { result ≡ list_any (is_label_there at) declarations.now }
{
    declarations
        .iter()
        .any(|d| d.at == at && is_label(d.stands))
}

impl TextNames {
    /// The name that touches a place, if there is one: of an inline's name or parameter first.
    pub fn at(&self, offset: usize) -> Option<Occurrence>
        ensures { result ≡ name_at self.now offset }
    {
        match touching(self.inlines.meant.as_slice(), offset) {
            Some(found) => Some(found),
            None => touching(self.meant.as_slice(), offset),
        }
    }

    /// Where the names stand that mean a declaration, each place once, in the order of the text.
    pub fn places_of(&self, alloc: Global, declared: usize) -> Result<Vec<usize>, AllocError>
        ensures { IfOk result (λ ps. IsOrdered (places_in declared self.now.inlines.meant.items ++ places_in declared self.now.meant.items) ps.items) }
    {
        let mut places = Vec::new(alloc);
        add_places(&mut places, self.inlines.meant.as_slice(), declared)?;
        add_places(&mut places, self.meant.as_slice(), declared)?;
        Ok(ordered(places))
    }

    /// Where those names are declared that the name at a place means: more than one, if it stands in the body of an inline.
    pub fn declared_at(&self, alloc: Global, at: usize) -> Result<Vec<usize>, AllocError>
        ensures { IfOk result (λ ps. IsOrdered (declared_in at self.now.inlines.meant.items ++ declared_in at self.now.meant.items) ps.items) }
    {
        let mut places = Vec::new(alloc);
        add_declared(&mut places, self.inlines.meant.as_slice(), at)?;
        add_declared(&mut places, self.meant.as_slice(), at)?;
        Ok(ordered(places))
    }

    /// Whether a label is declared at a place.
    pub fn has_label(&self, at: usize) -> bool
        ensures { result ≡ list_any (is_label_there at) self.now.declarations.items }
    {
        has_label(self.declarations.as_slice(), at)
    }
}
