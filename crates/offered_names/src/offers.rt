//! Which declared names may stand at a place.

ghost use Rattle.std.specs.Prelude.{◌≡◌, ◌++◌, filter, OnOk};
ghost use Rattle.offered_names.specs.Offers.{may_stand, must_precede, begins_so, is_offered, name_of};

use crate::asked::Fitting;
use declared_names::declared::{Declaration, Stands};
use promela_model::thing::Thing;
use std::alloc::AllocError;

/// Which names are asked for.
#[derive(Clone, Copy)]
pub struct SoughtNames<'w> {
    pub asked: Fitting,
    /// Whose names: 0 for global ones.
    pub owner: usize,
    /// How many bytes stand before the place.
    pub offset: usize,
    /// What is typed of the name.
    pub typed: &'w [u8],
}

/// Whether what is declared so may stand where this is asked.
fn may_stand(asked: Fitting, stands: Stands) -> bool
    ensures { result ≡ may_stand asked stands }
{
    match (asked, stands) {
        (Fitting::Proctype, Stands::Thing(Thing::Proctype(_, _))) => true,
        (Fitting::Label, Stands::Label) => true,
        (Fitting::Field, Stands::Thing(Thing::Variable(_))) => true,
        (Fitting::Any | Fitting::Message, Stands::Thing(Thing::Variable(_))) => true,
        (Fitting::Any | Fitting::Message, Stands::Thing(Thing::Constant(_))) => true,
        (Fitting::Any | Fitting::Message, Stands::Thing(Thing::Typedef(_, _))) => true,
        (Fitting::Any | Fitting::Message, Stands::Inline) => true,
        (Fitting::Any | Fitting::Message, Stands::Parameter) => true,
        _ => false,
    }
}

/// Whether what is asked for has to be declared before the place.
fn must_precede(asked: Fitting) -> bool
    ensures { result ≡ must_precede asked }
{
    match asked {
        Fitting::Any | Fitting::Message => true,
        Fitting::Proctype | Fitting::Label | Fitting::Field => false,
    }
}

/// The name that is declared.
pub fn name_in<'t>(text: &'t [u8], declaration: &Declaration) -> &'t [u8]
    ensures { result.now ≡ name_of text.now declaration.now }
{
    let rest = if declaration.at < text.len() {
        &text[declaration.at..]
    } else {
        &text[..0]
    };
    if declaration.length < rest.len() {
        &rest[..declaration.length]
    } else {
        rest
    }
}

/// Whether a name begins as typed, and is not the word `init`, which is declared as the name of its process.
fn begins_so(name: &[u8], typed: &[u8]) -> bool
    ensures { result ≡ begins_so name.now typed.now }
{
    name.starts_with(typed) && name != b"init".as_slice()
}

/// Whether a declared name is wished for.
fn is_offered(text: &[u8], wish: SoughtNames<'_>, declaration: &Declaration) -> bool
    ensures { result ≡ is_offered text.now wish.entry declaration.now }
{
    declaration.owner == wish.owner
        && may_stand(wish.asked, declaration.stands)
        && (!must_precede(wish.asked) || declaration.at < wish.offset)
        && begins_so(name_in(text, declaration), wish.typed)
}

/// Adds those of the declarations that are wished for.
pub fn add_offered(
    out: &mut Vec<Declaration>,
    text: &[u8],
    wish: SoughtNames<'_>,
    declarations: &[Declaration],
) -> Result<(), AllocError>
    ensures { OnOk result (out.new.items ≡ out.old.items ++ filter (is_offered text.now wish.entry) declarations.now) }
{
    for declaration in declarations {
        if is_offered(text, wish, declaration) {
            out.push(*declaration)?;
        }
    }
    Ok(())
}
