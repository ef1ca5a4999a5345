//! Where a model declares which names, and where a label stands before a `for` or a `select`: by its tokens, once its inlines are replaced.

ghost use Rattle.std.specs.Prelude.{◌≡◌, ◌<◌, ◌+◌, ◌^◌, ◌++◌, [], nat_eq, IfOk, OnOk};
ghost use Rattle.std.specs.List.{slice_get, list_any};
ghost use Rattle.trail_text.specs.Declarations.{types, kind_of, kind_in, line_of, labels, label_lines, begins};
ghost use Rattle.trail_text.specs.Lists.{is_shown_as, behind_plain, behind, opened, list_behind};

use crate::declared::{Declaring, is_closing, is_opening};
use pml_token::token::{Kind, Token};
use std::alloc::{AllocError, Global};

/// What is marked of a model.
#[derive(Drop)]
pub struct Marks {
    declared: Vec<Declaring>,
    /// The lines of labels before loops that begin with an assignment, and of these loops.
    labelled: Vec<usize>,
}

// A list of names that is being declared.
#[derive(Clone, Copy)]
struct NameList {
    /// How many brackets are open in it.
    depth: usize,
    /// The next name is declared.
    is_expected: bool,
}

fn is_type(kind: Kind) -> bool
    ensures { result ≡ types kind }
{
    match kind {
        Kind::Bit
        | Kind::Bool
        | Kind::Byte
        | Kind::Chan
        | Kind::Int
        | Kind::Mtype
        | Kind::Pid
        | Kind::Short
        | Kind::Unsigned => true,
        _ => false,
    }
}

fn kind_at(tokens: &[Token<'_>], at: usize) -> Kind
    ensures { result ≡ kind_of (slice_get tokens.now at) }
{
    match tokens.get(at) {
        Some(token) => token.kind(),
        None => Kind::End,
    }
}

fn line_at(tokens: &[Token<'_>], at: usize) -> usize
    ensures { result ≡ line_of (slice_get tokens.now at) }
{
    match tokens.get(at) {
        Some(token) => token.line() as usize,
        None => 0,
    }
}

// Whether a list of names begins behind this token: behind a type, and behind a typedef's name.
fn begins(tokens: &[Token<'_>], at: usize) -> bool
    ensures { at + 1 < 2 ^ 64 → result ≡ begins (kind_in tokens.now at) (kind_in tokens.now (at + 1)) }
{
    let kind = kind_at(tokens, at);
    kind_at(tokens, at.saturating_add(1)) == Kind::Name && (is_type(kind) || kind == Kind::Name)
}

// The list behind a token that stands in no brackets of it; none where it has ended.
fn behind_plain(list: NameList, kind: Kind) -> Option<NameList>
    ensures { result ≡ behind_plain list kind }
{
    match kind {
        Kind::Semicolon | Kind::Arrow => None,
        Kind::Comma => Some(NameList {
            is_expected: true,
            ..list
        }),
        _ => Some(NameList {
            is_expected: false,
            ..list
        }),
    }
}

// The list behind a token of it.
fn behind(list: NameList, kind: Kind) -> Option<NameList>
    ensures { result ≡ behind list kind }
{
    if is_opening(kind) {
        return Some(NameList {
            depth: list.depth.saturating_add(1),
            is_expected: false,
        });
    }
    if list.depth == 0 {
        return if is_closing(kind) {
            None
        } else {
            behind_plain(list, kind)
        };
    }
    if is_closing(kind) {
        return Some(NameList {
            depth: list.depth - 1,
            is_expected: false,
        });
    }
    Some(list)
}

// The list behind a token that is in none.
fn opened(tokens: &[Token<'_>], at: usize) -> Option<NameList>
    ensures { at + 1 < 2 ^ 64 → result ≡ opened (begins (kind_in tokens.now at) (kind_in tokens.now (at + 1))) }
{
    if begins(tokens, at) {
        Some(NameList {
            depth: 0,
            is_expected: true,
        })
    } else {
        None
    }
}

// Whether a label stands before a `for` or a `select`, where these kinds are in a row.
fn is_label(first: Kind, second: Kind, third: Kind) -> bool
    ensures { result ≡ labels first second third }
{
    match (first, second, third) {
        (Kind::Name, Kind::Colon, Kind::For) | (Kind::Name, Kind::Colon, Kind::Select) => true,
        _ => false,
    }
}

// Whether a label stands here, and a `for` or a `select` behind it.
fn is_labelled(tokens: &[Token<'_>], at: usize) -> bool
    ensures { at + 2 < 2 ^ 64 → result ≡ labels (kind_in tokens.now at) (kind_in tokens.now (at + 1)) (kind_in tokens.now (at + 2)) }
{
    let second = kind_at(tokens, at.saturating_add(1));
    let third = kind_at(tokens, at.saturating_add(2));
    is_label(kind_at(tokens, at), second, third)
}

impl Marks {
    /// Of no model.
    pub fn new(alloc: Global) -> Marks
        ensures declared { result.declared.items ≡ [] }
        ensures labelled { result.labelled.items ≡ [] }
    {
        Marks {
            declared: Vec::new(alloc),
            labelled: Vec::new(alloc),
        }
    }

    // Marks the label that stands here.
    fn label(&mut self, tokens: &[Token<'_>], at: usize) -> Result<(), AllocError>
        ensures { at + 2 < 2 ^ 64 → OnOk result (self.new.labelled.items ≡ self.old.labelled.items ++ label_lines tokens.now at) }
    {
        self.labelled.push(line_at(tokens, at))?;
        self.labelled.push(line_at(tokens, at.saturating_add(2)))?;
        Ok(())
    }

    // Marks what stands at a token of a list, or of none; the list behind it.
    fn mark(
        &mut self,
        tokens: &[Token<'_>],
        at: usize,
        list: Option<NameList>,
    ) -> Result<Option<NameList>, AllocError>
        ensures { at + 1 < 2 ^ 64 → IfOk result (λ behind. behind ≡ list_behind tokens.now at list) }
    {
        if is_labelled(tokens, at) {
            self.label(tokens, at)?;
        }
        let Some(list) = list else {
            return Ok(opened(tokens, at));
        };
        match tokens.get(at) {
            Some(token) if list.is_expected && token.kind() == Kind::Name => {
                let alloc = *self.declared.allocator();
                self.declared
                    .push(Declaring::new(tokens, at, token.line() as usize, alloc)?)?;
            }
            _ => {}
        }
        Ok(behind(list, kind_at(tokens, at)))
    }

    /// Marks all of a model.
    pub fn mark_all(&mut self, tokens: &[Token<'_>]) -> Result<(), AllocError> {
        let mut list = None;
        for at in 0..tokens.len() {
            list = self.mark(tokens, at, list)?;
        }
        Ok(())
    }

    /// Whether Spin may show a statement of a line for a declaration there; it is given in one spelling.
    pub fn is_declared(&self, statement: &[u8], line: usize) -> bool
        ensures { result ≡ list_any (λ d. is_shown_as d statement.now line) self.now.declared.items }
    {
        self.declared
            .iter()
            .any(|declared| declared.is_shown_as(statement, line))
    }

    /// Whether a label before a `for` or a `select`, or that, stands on a line.
    pub fn is_labelled(&self, line: usize) -> bool
        ensures { result ≡ list_any (λ labelled. nat_eq labelled line) self.now.labelled.items }
    {
        self.labelled.iter().any(|labelled| *labelled == line)
    }
}
