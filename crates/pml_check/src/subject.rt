//! What is asked of a tree is asked of this.

ghost use Rattle.std.specs.Prelude.{◌≡◌, IfOk};
ghost use Rattle.promela_model.specs.Marks.{of_tree};
ghost use Rattle.check_resolve.specs.Model.{numbered_model};
ghost use Rattle.pml_check.specs.Broken.{AreBroken};
ghost use Rattle.pml_check.specs.Subject.{IsSubject};

use crate::broken::{Broken, broken_on};
use crate::control::{Control, examine_all};
use crate::parsed::Parsed;
use check_names::names::all_names;
use check_resolve::model::number;
use check_uses::model::marks;
use pml_control::findings::{Findings, Plan};
use pml_program::program::Program;
use pml_tree::tree::Tree;
use sqlite_items::Boxed;
use std::alloc::{AllocError, Global};

/// Which conditions are broken on the marks of a tree, the model with its names replaced, the plans of its bodies, and what is found of
/// their control.
#[derive(Drop)]
pub struct Subject<'a> {
    pub broken: Broken,
    pub program: Boxed<Program<'a>>,
    pub plans: Vec<Plan>,
    pub control: Findings,
}

/// Which conditions are broken on the marks of a tree, and the model with its names replaced.
#[derive(Drop)]
struct Numbered<'a> {
    broken: Broken,
    program: Program<'a>,
}

/// All that is read of a tree. Its marks are let go before the model is made.
fn number_parsed<'a>(alloc: Global, parsed: &Parsed<'a>) -> Result<Numbered<'a>, AllocError>
    ensures broken { IfOk result (λ n. AreBroken (of_tree parsed.now) n.broken) }
    ensures program { IfOk result (λ n. n.program ≡ numbered_model parsed.now) }
{
    let tree = parsed.tree();
    let marks = marks(alloc, tree)?;
    let names = all_names(alloc, marks.as_slice())?;
    let broken = broken_on(alloc, &names.table, marks.as_slice())?;
    drop(marks);
    let program = number(alloc, tree, &names.table)?;
    Ok(Numbered { broken, program })
}

/// The same of a tree, which is let go.
fn number_tree<'a>(alloc: Global, tree: Tree<'a>) -> Result<Numbered<'a>, AllocError>
    ensures broken { IfOk result (λ n. AreBroken (of_tree tree.entry) n.broken) }
    ensures program { IfOk result (λ n. n.program ≡ numbered_model tree.entry) }
{
    // Lent from a pattern: where a parameter is lent, the check of its loan does not end.
    match Parsed::new(alloc, tree) {
        Ok(parsed) => number_parsed(alloc, &parsed),
        Err(AllocError) => Err(AllocError),
    }
}

/// What is asked of a tree. The tree is let go as soon as the model with its names replaced is made.
pub fn subject_of<'a>(alloc: Global, tree: Tree<'a>) -> Result<Subject<'a>, AllocError>
    ensures { IfOk result (λ subject. IsSubject tree.entry subject) }
{
    let Numbered { broken, program } = number_tree(alloc, tree)?;
    let Control {
        plans,
        found: control,
    } = examine_all(alloc, program.proctypes.as_slice())?;
    let program = Boxed::new(alloc, program)?;
    Ok(Subject {
        broken,
        program,
        plans,
        control,
    })
}
