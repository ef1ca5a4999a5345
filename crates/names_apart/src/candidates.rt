//! The names that may be divided: those that bodies declare several times, or an inline once, and the labels of inlines.

ghost use Rattle.std.specs.Prelude.{◌≡◌, ◌≤◌, length, IfOk, OnOk};
ghost use Rattle.names_apart.specs.declared.candidates.TheConstants.{MOST_NAMES};
ghost use Rattle.names_apart.specs.Found as found;

use crate::labels::Labels;
use crate::scope::NameScope;
use prepare::stretch::Stretch;
use std::alloc::{AllocError, Global};
use std::collections::BTreeMap;

/// At most so many names of a text are looked at.
pub const MOST_NAMES: usize = 64;

// A longer name stays.
const MOST_LENGTH: usize = 64;

/// What is divided of a name.
#[derive(Clone, Copy)]
pub enum DividedSort {
    Variables,
    Labels,
}

/// A name, and the line on which it is found to be one that may be divided.
#[derive(Clone, Copy)]
pub struct Candidate<'t> {
    pub name: &'t [u8],
    pub line: u64,
    pub sort: DividedSort,
}

// The line behind a text.
fn line_behind(line: u64, text: &[u8]) -> u64
    ensures { line ≤ result }
{
    let mut line = line;
    for b in text {
        if *b == b'\n' {
            line = line.saturating_add(1);
        }
    }
    line
}

// How often a name is found, in one place more: twice is enough, and so is once in an inline, which may be called twice.
fn one_more(count: u32, is_inline: bool) -> u32
    ensures { result ≡ found.one_more count is_inline }
{
    count.saturating_add(if is_inline { 2 } else { 1 }).min(2)
}

fn add_candidate<'t>(
    out: &mut Vec<Candidate<'t>>,
    candidate: Candidate<'t>,
) -> Result<(), AllocError>
    ensures { OnOk result (length out.old.items ≤ MOST_NAMES → length out.new.items ≤ MOST_NAMES) }
{
    if out.len() < MOST_NAMES && candidate.name.len() <= MOST_LENGTH {
        out.push(candidate)?;
    }
    Ok(())
}

// Adds a name that is declared, if it is one that may be divided now.
fn add_declared<'t>(
    counts: &mut BTreeMap<&'t [u8], u32>,
    out: &mut Vec<Candidate<'t>>,
    candidate: Candidate<'t>,
    is_inline: bool,
) -> Result<(), AllocError>
    ensures { OnOk result (length out.old.items ≤ MOST_NAMES → length out.new.items ≤ MOST_NAMES) }
{
    let before = counts.get(candidate.name).copied().unwrap_or(0);
    let count = one_more(before, is_inline);
    counts.insert(candidate.name, count)?;
    if before < 2 && count > 1 {
        add_candidate(out, candidate)?;
    }
    Ok(())
}

/// The names that may be divided, in the order in which the text has them: those of variables, and then those of labels.
pub fn candidates<'t>(
    alloc: Global,
    stretches: &[Stretch<'t>],
) -> Result<Vec<Candidate<'t>>, AllocError>
    ensures { IfOk result (λ v. length v.items ≤ MOST_NAMES) }
{
    let mut out: Vec<Candidate<'t>> = Vec::new(alloc);
    let mut counts: BTreeMap<&'t [u8], u32> = BTreeMap::new(alloc);
    let mut scope = NameScope::start();
    let mut line = 1;
    for stretch in stretches {
        let kind = stretch.kind();
        let name = stretch.token();
        line = line_behind(line, stretch.gap());
        if scope.braces > 0 && scope.reading.declares(kind) {
            add_declared(
                &mut counts,
                &mut out,
                Candidate {
                    name,
                    line,
                    sort: DividedSort::Variables,
                },
                scope.is_inline,
            )?;
        }
        line = line_behind(line, name);
        scope = scope.behind(b"", 0, kind, name);
    }
    add_labels(&mut out, stretches)?;
    Ok(out)
}

// Adds the labels that inlines have.
fn add_labels<'t>(out: &mut Vec<Candidate<'t>>, stretches: &[Stretch<'t>]) -> Result<(), AllocError>
    ensures { OnOk result (length out.old.items ≤ MOST_NAMES → length out.new.items ≤ MOST_NAMES) }
{
    let mut counts: BTreeMap<&'t [u8], u32> = BTreeMap::new(*out.allocator());
    let mut labels = Labels::start();
    let mut line = 1;
    let mut rest = stretches;
    while let [stretch, back @ ..] = rest {
        let kind = stretch.kind();
        let name = stretch.token();
        line = line_behind(line, stretch.gap());
        if labels.is_inline && labels.is_label(kind, back) {
            let sort = DividedSort::Labels;
            add_declared(&mut counts, out, Candidate { name, line, sort }, true)?;
        }
        line = line_behind(line, name);
        labels = labels.behind(b"", 0, kind, name, back);
        rest = back;
    }
    Ok(())
}
