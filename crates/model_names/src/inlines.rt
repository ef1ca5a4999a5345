//! The names of inlines and of their parameters, by tokens alone.

ghost use Rattle.std.specs.Prelude.{◌≡◌, ◌++◌, ◌∷◌, [], flat_map, OnOk, IfOk};
ghost use Rattle.declared_names.specs.Meant.{at_place};
ghost use Rattle.check_names.specs.Places.{IsKept};
ghost use Rattle.model_names.specs.Inlines.{same_name, declares, declaration, of_parameter, declared_parameter, of_definition, declared_definition, of_definitions};
ghost use Rattle.model_names.specs.Inlines.{declared_definitions, is_called};

use crate::scanned::{behind, body_of, is_name, parameters_of};
use check_names::places::Places;
use declared_names::declared::{Declaration, Stands};
use declared_names::occurrence::{Occurrence, add_name};
use pml_token::token::{Kind, Token, same_kind};
use std::alloc::{AllocError, Global};

/// The names of inlines and of their parameters.
#[derive(Drop)]
pub struct Inlines {
    pub declarations: Vec<Declaration>,
    pub meant: Vec<Occurrence>,
}

fn add_declaration(
    out: &mut Vec<Declaration>,
    name: &Token<'_>,
    owner: usize,
    stands: Stands,
) -> Result<(), AllocError>
    ensures { OnOk result (out.new.items ≡ out.old.items ++ declaration owner stands name.now ∷ []) }
{
    out.push(Declaration {
        at: name.line() as usize,
        length: name.text().len(),
        owner,
        stands,
    })?;
    Ok(())
}

/// Adds a name that means another, if it is the same.
fn add_same(out: &mut Vec<Occurrence>, site: &Token<'_>, name: &Token<'_>) -> Result<(), AllocError>
    ensures { OnOk result (out.new.items ≡ out.old.items ++ same_name site.now name.now) }
{
    if is_name(name) && name.text() == site.text() {
        add_name(out, name, Some(site.line() as usize))
    } else {
        Ok(())
    }
}

/// Adds a parameter, and where it stands in the body.
fn add_parameter(
    out: &mut Vec<Occurrence>,
    parameter: &Token<'_>,
    body: &[Token<'_>],
) -> Result<(), AllocError>
    ensures { OnOk result (out.new.items ≡ out.old.items ++ (declares parameter.now ++ flat_map (same_name parameter.now) body.now)) }
{
    add_name(out, parameter, Some(parameter.line() as usize))?;
    for token in body {
        add_same(out, parameter, token)?;
    }
    Ok(())
}

fn add_parameters(
    out: &mut Vec<Occurrence>,
    parameters: &[Token<'_>],
    body: &[Token<'_>],
) -> Result<(), AllocError>
    ensures { OnOk result (out.new.items ≡ out.old.items ++ flat_map (of_parameter body.now) parameters.now) }
{
    for token in parameters {
        if is_name(token) {
            add_parameter(out, token, body)?;
        }
    }
    Ok(())
}

/// Adds the names of the definition whose name begins these tokens.
fn add_definition(out: &mut Vec<Occurrence>, tokens: &[Token<'_>]) -> Result<(), AllocError>
    ensures { OnOk result (out.new.items ≡ out.old.items ++ of_definition tokens.now) }
{
    match tokens {
        [name, _, rest @ ..] if is_name(name) => {
            add_name(out, name, Some(name.line() as usize))?;
            let parameters = parameters_of(rest);
            let body = body_of(behind(rest, parameters.len() + 1));
            add_parameters(out, parameters, body)
        }
        _ => Ok(()),
    }
}

fn declare_parameters(
    out: &mut Vec<Declaration>,
    owner: usize,
    parameters: &[Token<'_>],
) -> Result<(), AllocError>
    ensures { OnOk result (out.new.items ≡ out.old.items ++ flat_map (declared_parameter owner) parameters.now) }
{
    for token in parameters {
        if is_name(token) {
            add_declaration(out, token, owner, Stands::Parameter)?;
        }
    }
    Ok(())
}

/// Adds what the definition declares whose name begins these tokens.
fn declare_definition(out: &mut Vec<Declaration>, tokens: &[Token<'_>]) -> Result<(), AllocError>
    ensures { OnOk result (out.new.items ≡ out.old.items ++ declared_definition tokens.now) }
{
    match tokens {
        [name, _, rest @ ..] if is_name(name) => {
            add_declaration(out, name, 0, Stands::Inline)?;
            declare_parameters(out, name.line() as usize, parameters_of(rest))
        }
        _ => Ok(()),
    }
}

/// The names of the definitions among tokens.
fn of_definitions(alloc: Global, tokens: &[Token<'_>]) -> Result<Vec<Occurrence>, AllocError>
    ensures { IfOk result (λ os. os.items ≡ of_definitions tokens.now) }
{
    let mut out = Vec::new(alloc);
    for (i, token) in tokens.iter().enumerate() {
        if same_kind(token.kind(), Kind::Inline) {
            add_definition(&mut out, behind(tokens, i + 1))?;
        }
    }
    Ok(out)
}

/// What the definitions among tokens declare.
fn declared_definitions(alloc: Global, tokens: &[Token<'_>]) -> Result<Vec<Declaration>, AllocError>
    ensures { IfOk result (λ ds. ds.items ≡ declared_definitions tokens.now) }
{
    let mut out = Vec::new(alloc);
    for (i, token) in tokens.iter().enumerate() {
        if same_kind(token.kind(), Kind::Inline) {
            declare_definition(&mut out, behind(tokens, i + 1))?;
        }
    }
    Ok(out)
}

/// Which token is the name of each inline.
fn sites_of<'a>(alloc: Global, tokens: &'a [Token<'a>]) -> Result<Places<'a, usize>, AllocError>
    ensures { IfOk result (λ s. IsKept s.numbers s.places) }
{
    let mut sites = Places::new(alloc);
    for (i, token) in tokens.iter().enumerate() {
        if i > 0 && same_kind(tokens[i - 1].kind(), Kind::Inline) {
            if sites.find(0, token.text()).is_none() {
                sites.put(0, token.text(), i)?;
            }
        }
    }
    Ok(sites)
}

/// Whether a name that may be called stands first among tokens, and is called.
fn is_called(tokens: &[Token<'_>]) -> bool
    ensures { result ≡ is_called tokens.now }
{
    match tokens {
        [name, behind, ..] => is_name(name) && same_kind(behind.kind(), Kind::OpenParen),
        _ => false,
    }
}

/// The names of inlines and of their parameters among the tokens of a text: those of the definitions, and the calls.
pub fn inlines_of<'a>(alloc: Global, tokens: &'a [Token<'a>]) -> Result<Inlines, AllocError>
    ensures { IfOk result (λ names. names.declarations.items ≡ declared_definitions tokens.now) }
{
    let sites = sites_of(alloc, tokens)?;
    let mut meant = of_definitions(alloc, tokens)?;
    for (i, token) in tokens.iter().enumerate() {
        if let Some(site) = sites.find(0, token.text()) {
            if site != i && site < tokens.len() && is_called(behind(tokens, i)) {
                add_same(&mut meant, &tokens[site], token)?;
            }
        }
    }
    Ok(Inlines {
        declarations: declared_definitions(alloc, tokens)?,
        meant,
    })
}
