//! How many labels of one name inlines have, and what becomes of each token where these are divided.

ghost use Rattle.std.specs.Prelude.{◌≡◌, IfOk, OnOk};
ghost use Rattle.names_apart.specs.Tallies.{as_tallied};
ghost use Rattle.names_apart.specs.Labels as rules;

use crate::changes::{NameChange, index};
use crate::labels::Labels;
use crate::scope::{is_name, more};
use crate::tally::{DeclarationTally, InlineCount, count_at, home_behind};
use pml_token::token::Kind;
use prepare::changed::Changed;
use prepare::stretch::Stretch;
use std::alloc::{AllocError, Global};

// Adds the inline whose body a token ends, if it has labels.
fn add_counted<'t>(
    table: &mut Vec<InlineCount<'t>>,
    labels: Labels,
    home: &'t [u8],
    kind: Kind,
) -> Result<(), AllocError>
    ensures { OnOk result (table.new.items ≡ rules.table_behind table.old.items labels home.now kind) }
{
    let total = labels.total();
    if labels.is_inline && (labels.ends_body(kind) && total > 0) {
        table.push(InlineCount::new(home, total))?;
    }
    Ok(())
}

fn most_behind(most: u32, labels: Labels, kind: Kind) -> u32
    ensures { result ≡ rules.most_behind most labels kind }
{
    if !labels.is_inline && labels.ends_body(kind) {
        most.max(labels.total())
    } else {
        most
    }
}

// Whether the labels of the name stay.
fn is_odd(labels: Labels, name: &[u8], kind: Kind, token: &[u8], back: &[Stretch<'_>]) -> bool
    ensures { result ≡ rules.is_odd labels name.now kind token.now back.now }
{
    (is_name(name, kind, token)
        && (labels.is_header() || (labels.has && labels.is_label(kind, back))))
        || (labels.ends_body(kind)
            && ((labels.goes && !labels.has) || (labels.has && labels.count > 0)))
}

/// What is known of the labels of a name in a text.
pub fn labelled_of<'t>(
    alloc: Global,
    name: &[u8],
    stretches: &[Stretch<'t>],
) -> Result<DeclarationTally<'t>, AllocError>
    ensures { IfOk result (λ t. as_tallied t.table.items t.most t.is_left ≡ rules.labelled name.now stretches.now) }
{
    let mut table: Vec<InlineCount<'t>> = Vec::new(alloc);
    let mut labels = Labels::start();
    let mut home: &'t [u8] = b"";
    let mut most = 0;
    let mut is_left = false;
    let mut rest = stretches;
    while let [stretch, back @ ..] = rest {
        let kind = stretch.kind();
        let token = stretch.token();
        add_counted(&mut table, labels, home, kind)?;
        most = most_behind(most, labels, kind);
        is_left = is_left || is_odd(labels, name, kind, token, back);
        home = home_behind(home, kind, back);
        labels = labels.behind(name, count_at(&table, kind, token), kind, token, back);
        rest = back;
    }
    Ok(DeclarationTally {
        table,
        most,
        is_left,
    })
}

fn change_at(
    labels: Labels,
    name: &[u8],
    kind: Kind,
    token: &[u8],
    back: &[Stretch<'_>],
) -> NameChange
    ensures { result ≡ rules.change_at labels name.now kind token.now back.now }
{
    if is_name(name, kind, token) {
        if labels.is_label(kind, back) || labels.is_target() {
            return NameChange::Named(index(labels.is_inline, 1));
        }
        return NameChange::Kept;
    }
    if labels.ends_call(kind) {
        let call = labels.call;
        return NameChange::Passed(
            index(labels.is_inline, more(labels.count, 1)),
            call.within,
            call.is_bare,
        );
    }
    NameChange::Kept
}

/// What becomes of the tokens of a text where the labels of a name are divided which these inlines have.
pub fn label_changes<'t>(
    alloc: Global,
    name: &[u8],
    table: &[InlineCount<'_>],
    stretches: &[Stretch<'t>],
) -> Result<Vec<Changed<'t, NameChange>>, AllocError>
    ensures { IfOk result (λ v. v.items ≡ rules.changes name.now table.now stretches.now) }
{
    let mut out = Vec::new(alloc);
    let mut labels = Labels::start();
    let mut rest = stretches;
    while let [stretch, back @ ..] = rest {
        let kind = stretch.kind();
        let token = stretch.token();
        out.push(Changed::new(stretch, change_at(labels, name, kind, token, back)))?;
        labels = labels.behind(name, count_at(table, kind, token), kind, token, back);
        rest = back;
    }
    Ok(out)
}
