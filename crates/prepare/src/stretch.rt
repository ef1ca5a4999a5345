//! A stretch: a token with what stands before it.

ghost use Rattle.std.specs.Prelude.{◌≡◌};
ghost use Rattle.std.specs.List.{list_any};
ghost use Rattle.prepare.specs.Stretches as stretches;

use crate::FORM_FEED;
use crate::context::{BlankedBlock, Context, LastToken, Supply, is_blanked, supply_at};
use crate::roles::{TokenRole, role_of};
use pml_token::token::Kind;
use std::marker::Model;

/// How a token is written.
#[derive(Clone, Copy)]
pub enum StretchForm {
    /// As it stands.
    Kept,
    /// On one line, its line feeds behind it.
    Joined,
    /// As blanks, but for line feeds.
    Blanked,
}

/// What is to be said of a token.
#[derive(Clone, Copy)]
pub enum StretchRemark {
    Nothing,
    /// It heads a block that is blanked.
    BlockBegins,
    /// It ends one.
    BlockEnds,
    /// It stands for something that is left out, or is no token.
    LeftOut,
    /// It opens a list of initialisers.
    List,
}

/// A token, the blanks and comments before it, and what is written before these.
#[derive(Drop)]
pub struct Stretch<'t> {
    supply: Supply,
    gap: &'t [u8],
    token: &'t [u8],
    kind: Kind,
    form: StretchForm,
    remark: StretchRemark,
}

impl<'t> Model for Stretch<'t> {
    ghost use Rattle.prepare.specs.Written.{Written};

    ghost Value = { Written };

    ghost view = { λ t. record { supply = t.supply; gap = t.gap.now; token = t.token.now; kind = t.kind; form = t.form; remark = t.remark } };
}

fn ends_line(b: u8) -> bool
    ensures { result ≡ stretches.ends_line b }
{
    b == b'\n' || b == FORM_FEED
}

fn has_end(gap: &[u8]) -> bool
    ensures { result ≡ list_any stretches.ends_line gap.now }
{
    for b in gap {
        if ends_line(*b) {
            return true;
        }
    }
    false
}

fn form_of(block: BlankedBlock, role: TokenRole) -> StretchForm
    ensures { result ≡ stretches.form_of block role }
{
    if is_blanked(block, role) {
        return StretchForm::Blanked;
    }
    match role {
        TokenRole::Quotes => StretchForm::Joined,
        _ => StretchForm::Kept,
    }
}

fn block_remark(block: BlankedBlock, role: TokenRole) -> StretchRemark
    ensures { result ≡ stretches.block_remark block role }
{
    match block {
        BlankedBlock::Within(depth) => match role {
            TokenRole::Closes => {
                if depth > 1 {
                    StretchRemark::Nothing
                } else {
                    StretchRemark::BlockEnds
                }
            }
            _ => StretchRemark::Nothing,
        },
        _ => match role {
            TokenRole::Heads => StretchRemark::BlockBegins,
            _ => StretchRemark::Nothing,
        },
    }
}

fn code_remark(last: LastToken, role: TokenRole) -> StretchRemark
    ensures { result ≡ stretches.code_remark last role }
{
    match role {
        TokenRole::LeftOut => StretchRemark::LeftOut,
        TokenRole::Opens => {
            if last == LastToken::Assigned {
                StretchRemark::List
            } else {
                StretchRemark::Nothing
            }
        }
        _ => StretchRemark::Nothing,
    }
}

impl<'t> Stretch<'t> {
    /// A token of this kind behind a gap.
    #[tactic(auto, unfolding(crate::specs::Stretches::stretch))]
    pub fn new(context: Context, kind: Kind, gap: &'t [u8], token: &'t [u8]) -> Stretch<'t>
        ensures { result ≡ stretches.stretch context kind gap.now token.now }
    {
        let role = role_of(kind, token);
        let is_blank = is_blanked(context.block, role);
        Stretch {
            supply: if is_blank {
                Supply::Nothing
            } else {
                supply_at(context.code, has_end(gap), role)
            },
            gap,
            token,
            kind,
            form: form_of(context.block, role),
            remark: if is_blank {
                block_remark(context.block, role)
            } else {
                code_remark(context.code.last, role)
            },
        }
    }

    /// What is left behind the last token.
    pub fn last(gap: &'t [u8]) -> Stretch<'t>
        ensures { result ≡ stretches.last_stretch gap.now }
    {
        Stretch {
            supply: Supply::Nothing,
            gap,
            token: b"",
            kind: Kind::End,
            form: StretchForm::Kept,
            remark: StretchRemark::Nothing,
        }
    }

    /// What is written before the gap.
    pub fn supply(&self) -> Supply
        ensures { result ≡ self.now.supply }
    {
        self.supply
    }

    /// The blanks, comments and markers before the token.
    pub fn gap(&self) -> &'t [u8]
        ensures { result.now ≡ self.now.gap }
    {
        self.gap
    }

    /// The token.
    pub fn token(&self) -> &'t [u8]
        ensures { result.now ≡ self.now.token }
    {
        self.token
    }

    /// What the token is.
    pub fn kind(&self) -> Kind
        ensures { result ≡ self.now.kind }
    {
        self.kind
    }

    /// How the token is written.
    pub fn form(&self) -> StretchForm
        ensures { result ≡ self.now.form }
    {
        self.form
    }

    /// What is to be said of the token.
    pub fn remark(&self) -> StretchRemark
        ensures { result ≡ self.now.remark }
    {
        self.remark
    }
}
