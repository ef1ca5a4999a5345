//! Writes stretches.

ghost use Rattle.std.specs.Prelude.{◌≡◌, ◌++◌, [], false, map, IfOk, OnOk};
ghost use Rattle.std.specs.List.{filter};
ghost use Rattle.promela_text.specs.Tokens.{is_line_feed};
ghost use Rattle.prepare.specs.Contexts.{written};
ghost use Rattle.prepare.specs.Spelling as spelling;

use crate::FORM_FEED;
use crate::context::Supply;
use crate::stretch::{Stretch, StretchForm};
use std::alloc::{AllocError, Global};

fn blank(b: u8) -> u8
    ensures { result ≡ spelling.blank b }
{
    if b == b'\n' || b == FORM_FEED {
        b
    } else {
        b' '
    }
}

/// Writes blanks in place of a token, but for what ends its lines.
pub(crate) fn add_blanks(out: &mut Vec<u8>, token: &[u8]) -> Result<(), AllocError>
    ensures { OnOk result (out.new.items ≡ out.old.items ++ map spelling.blank token.now) }
{
    for b in token {
        out.push(blank(*b))?;
    }
    Ok(())
}

fn is_break(is_escaped: bool, b: u8, rest: &[u8]) -> bool
    ensures { result ≡ spelling.is_break is_escaped b rest.now }
{
    b == b'\n' || (!is_escaped && (b == b'\\' && matches!(rest, [b'\n', ..])))
}

fn escapes(is_escaped: bool, b: u8) -> bool
    ensures { result ≡ spelling.escapes is_escaped b }
{
    !is_escaped && b == b'\\'
}

/// Writes a byte of a string, if it stays.
fn add_byte(out: &mut Vec<u8>, is_escaped: bool, b: u8, rest: &[u8]) -> Result<(), AllocError>
    ensures { OnOk result (out.new.items ≡ out.old.items ++ spelling.unless_break (spelling.is_break is_escaped b rest.now) b []) }
{
    if !is_break(is_escaped, b, rest) {
        out.push(b)?;
    }
    Ok(())
}

fn add_unbroken(out: &mut Vec<u8>, token: &[u8]) -> Result<(), AllocError>
    ensures { OnOk result (out.new.items ≡ out.old.items ++ spelling.unbroken false token.now) }
{
    let mut at = 0;
    let mut is_escaped = false;
    while at < token.len() {
        let b = token[at];
        at += 1;
        add_byte(out, is_escaped, b, &token[at..])?;
        is_escaped = escapes(is_escaped, b);
    }
    Ok(())
}

/// Writes the line feeds of a token.
pub(crate) fn add_feeds(out: &mut Vec<u8>, token: &[u8]) -> Result<(), AllocError>
    ensures { OnOk result (out.new.items ≡ out.old.items ++ filter is_line_feed token.now) }
{
    for b in token {
        if *b == b'\n' {
            out.push(*b)?;
        }
    }
    Ok(())
}

fn add_token(out: &mut Vec<u8>, form: StretchForm, token: &[u8]) -> Result<(), AllocError>
    ensures { OnOk result (out.new.items ≡ out.old.items ++ spelling.shown form token.now) }
{
    match form {
        StretchForm::Kept => out.extend_from_slice(token),
        StretchForm::Joined => {
            add_unbroken(out, token)?;
            add_feeds(out, token)
        }
        StretchForm::Blanked => add_blanks(out, token),
    }
}

/// Writes what is supplied before a gap: behind `skip` a blank, where the gap is none.
fn add_supply(out: &mut Vec<u8>, supply: Supply, gap: &[u8]) -> Result<(), AllocError>
    ensures { OnOk result (out.new.items ≡ out.old.items ++ (written supply ++ spelling.divider supply gap.now)) }
{
    match supply {
        Supply::Nothing => Ok(()),
        Supply::Separator => out.extend_from_slice(b";"),
        Supply::Skip => out.extend_from_slice(if gap.is_empty() { b" skip " } else { b" skip" }),
    }
}

fn add_stretch(out: &mut Vec<u8>, stretch: &Stretch<'_>) -> Result<(), AllocError>
    ensures { OnOk result (out.new.items ≡ out.old.items ++ spelling.spelled_stretch stretch.now) }
{
    add_supply(out, stretch.supply(), stretch.gap())?;
    out.extend_from_slice(stretch.gap())?;
    add_token(out, stretch.form(), stretch.token())
}

/// What is written of stretches: the text that they are of, with what is supplied, and blanks in place of blocks.
pub fn spelled(alloc: Global, stretches: &[Stretch<'_>]) -> Result<Vec<u8>, AllocError>
    ensures { IfOk result (λ v. v.items ≡ spelling.spelled stretches.now) }
{
    let mut out = Vec::new(alloc);
    for stretch in stretches {
        add_stretch(&mut out, stretch)?;
    }
    Ok(out)
}
