//! Where a token stands: in code, or in a block that is blanked.

ghost use Rattle.std.specs.Prelude.{◌≡◌};
ghost use Rattle.prepare.specs.Contexts as contexts;

use crate::roles::{TokenRole, begins};

/// How deep brackets are counted. What is deeper counts as so deep.
pub const MOST_DEPTH: u32 = 1_000_000;

/// What the last token of the code was.
#[derive(Clone, Copy, PartialEq, Eq)]
pub enum LastToken {
    /// A token behind which a statement may end.
    Ended,
    /// A colon, as behind a label.
    Labelled,
    /// `=`.
    Assigned,
    /// `mtype`, or the name of a subtype of it.
    Typed,
    /// The colon of such a subtype.
    Subtyped,
    /// Another one, or none.
    Open,
}

/// What is known of the code before a token.
#[derive(Clone, Copy)]
pub struct Code {
    /// How many braces are open.
    pub braces: u32,
    /// How many other brackets are open.
    pub brackets: u32,
    /// Whether the braces are those of a list, and hold no statements.
    pub is_list: bool,
    /// Whether the braces are those of a typedef, and hold its fields.
    pub is_fields: bool,
    /// Whether a `for` waits for its body.
    pub is_head: bool,
    pub last: LastToken,
}

/// Whether a token stands in a block that is blanked.
#[derive(Clone, Copy)]
pub enum BlankedBlock {
    Outside,
    /// Behind the word that heads one, and before its `{`.
    Ahead,
    /// Within so many braces of one.
    Within(u32),
}

/// What is known before a token.
#[derive(Clone, Copy)]
pub struct Context {
    pub code: Code,
    pub block: BlankedBlock,
}

/// What is written behind a token.
#[derive(Clone, Copy)]
pub enum Supply {
    Nothing,
    /// `;`.
    Separator,
    /// ` skip`.
    Skip,
}

/// One bracket more.
pub fn deeper(depth: u32) -> u32
    ensures { result ≡ contexts.deeper depth }
{
    if depth < MOST_DEPTH { depth + 1 } else { depth }
}

fn opened(code: Code) -> Code
    ensures { result ≡ contexts.opened code }
{
    Code {
        braces: deeper(code.braces),
        brackets: code.brackets,
        is_list: code.is_list || code.last == LastToken::Assigned,
        is_fields: code.is_fields,
        is_head: false,
        last: LastToken::Open,
    }
}

fn closed(code: Code) -> Code
    ensures { result ≡ contexts.closed code }
{
    let is_within = code.braces > 1;
    Code {
        braces: code.braces.saturating_sub(1),
        brackets: code.brackets,
        is_list: code.is_list && is_within,
        is_fields: code.is_fields && is_within,
        is_head: code.is_head,
        last: if code.is_fields && is_within {
            LastToken::Ended
        } else {
            LastToken::Open
        },
    }
}

fn entered(code: Code) -> Code
    ensures { result ≡ contexts.entered code }
{
    Code {
        brackets: deeper(code.brackets),
        last: LastToken::Open,
        ..code
    }
}

fn left(code: Code) -> Code
    ensures { result ≡ contexts.left code }
{
    let last = if code.is_head && code.brackets < 2 {
        LastToken::Open
    } else {
        LastToken::Ended
    };
    Code {
        brackets: code.brackets.saturating_sub(1),
        last,
        ..code
    }
}

fn assigned(code: Code) -> Code
    ensures { result ≡ contexts.assigned code }
{
    let last = if code.last == LastToken::Typed {
        LastToken::Open
    } else {
        LastToken::Assigned
    };
    Code { last, ..code }
}

fn labelled(code: Code) -> Code
    ensures { result ≡ contexts.labelled code }
{
    let last = if code.last == LastToken::Typed {
        LastToken::Subtyped
    } else {
        LastToken::Labelled
    };
    Code { last, ..code }
}

fn named(code: Code) -> Code
    ensures { result ≡ contexts.named code }
{
    let last = if code.last == LastToken::Subtyped {
        LastToken::Typed
    } else {
        LastToken::Ended
    };
    Code { last, ..code }
}

/// What is known of the code behind a token.
fn code_behind(code: Code, role: TokenRole) -> Code
    ensures { result ≡ contexts.code_behind code role }
{
    match role {
        TokenRole::Opens => opened(code),
        TokenRole::Closes => closed(code),
        TokenRole::Enters | TokenRole::Indexes => entered(code),
        TokenRole::Leaves => left(code),
        TokenRole::Assigns => assigned(code),
        TokenRole::Labels => labelled(code),
        TokenRole::Typedef => Code {
            is_fields: true,
            last: LastToken::Open,
            ..code
        },
        TokenRole::For => Code {
            is_head: true,
            last: LastToken::Open,
            ..code
        },
        TokenRole::Mtype => Code {
            last: LastToken::Typed,
            ..code
        },
        TokenRole::Names => named(code),
        TokenRole::Both | TokenRole::Ends => Code {
            last: LastToken::Ended,
            ..code
        },
        _ => Code {
            last: LastToken::Open,
            ..code
        },
    }
}

/// Whether a token belongs to a block that is blanked.
pub fn is_blanked(block: BlankedBlock, role: TokenRole) -> bool
    ensures { result ≡ contexts.is_blanked block role }
{
    match block {
        BlankedBlock::Outside => matches!(role, TokenRole::Heads),
        BlankedBlock::Ahead => matches!(
            role,
            TokenRole::Heads | TokenRole::Names | TokenRole::Opens
        ),
        BlankedBlock::Within(_) => true,
    }
}

/// Where the text stands behind a token, as to blocks.
fn block_behind(block: BlankedBlock, role: TokenRole) -> BlankedBlock
    ensures { result ≡ contexts.block_behind block role }
{
    match block {
        BlankedBlock::Outside => match role {
            TokenRole::Heads => BlankedBlock::Ahead,
            _ => BlankedBlock::Outside,
        },
        BlankedBlock::Ahead => match role {
            TokenRole::Heads | TokenRole::Names => BlankedBlock::Ahead,
            TokenRole::Opens => BlankedBlock::Within(1),
            _ => BlankedBlock::Outside,
        },
        BlankedBlock::Within(depth) => match role {
            TokenRole::Opens => BlankedBlock::Within(deeper(depth)),
            TokenRole::Closes => {
                if depth > 1 {
                    BlankedBlock::Within(depth - 1)
                } else {
                    BlankedBlock::Outside
                }
            }
            _ => BlankedBlock::Within(depth),
        },
    }
}

impl Context {
    /// The beginning of a text.
    pub fn start() -> Context
        ensures { result ≡ contexts.start }
    {
        let code = Code {
            braces: 0,
            brackets: 0,
            is_list: false,
            is_fields: false,
            is_head: false,
            last: LastToken::Open,
        };
        Context {
            code,
            block: BlankedBlock::Outside,
        }
    }

    /// What is known behind a token.
    pub fn behind(self, role: TokenRole) -> Context
        ensures { result ≡ contexts.behind self role }
    {
        let code = if is_blanked(self.block, role) {
            self.code
        } else {
            code_behind(self.code, role)
        };
        Context {
            code,
            block: block_behind(self.block, role),
        }
    }
}

/// Whether statements stand here.
fn has_statements(code: Code) -> bool
    ensures { result ≡ contexts.has_statements code }
{
    code.braces > 0 && (code.brackets == 0 && !code.is_list)
}

/// What is to be written between the last token and one of this role, where `is_over` says whether a line ends between them.
pub fn supply_at(code: Code, is_over: bool, role: TokenRole) -> Supply
    ensures { result ≡ contexts.supply code is_over role }
{
    match code.last {
        LastToken::Labelled => match role {
            TokenRole::Closes | TokenRole::Parts => Supply::Skip,
            _ => Supply::Nothing,
        },
        LastToken::Ended => {
            if is_over && (begins(role) && has_statements(code)) {
                Supply::Separator
            } else {
                Supply::Nothing
            }
        }
        _ => Supply::Nothing,
    }
}
