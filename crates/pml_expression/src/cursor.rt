//! The tokens that are still to be read, and the steps that every rule is made of.

ghost use Rattle.std.specs.Prelude.{◌≡◌, drop, length};
ghost use Rattle.promela_grammar.specs.Expressions.{between};
ghost use Rattle.pml_expression.specs.Reading as reading;
ghost use Rattle.pml_expression.specs.Reading.{Reads};

use crate::fault::ReadFault;
use pml_token::token::{Kind, Token, same_kind};
use pml_tree::tokens::Tokens;
use std::marker::Model;

/// The tokens that are still to be read, which contracts see as their list.
#[derive(Drop)]
pub struct Cursor<'a> {
    rest: &'a [Token<'a>],
}

impl<'a> Model for Cursor<'a> {
    ghost use Rattle.std.specs.Prelude.{List};
    ghost use Rattle.pml_token.specs.Word.{Word};

    ghost Value = { List Word };

    ghost view = { λ c. c.rest.now };
}

impl<'a> Cursor<'a> {
    /// All of these tokens are still to be read.
    pub fn new(tokens: &'a [Token<'a>]) -> Cursor<'a>
        ensures { result ≡ tokens.now }
    {
        Cursor { rest: tokens }
    }

    /// How many tokens are left.
    pub fn left(&self) -> usize
        ensures { result ≡ length self.now }
    {
        self.rest.len()
    }

    /// Whether no token is left.
    pub fn is_empty(&self) -> bool
        ensures { result ≡ reading.is_empty self.now }
    {
        self.rest.is_empty()
    }

    /// The fault that no rule reads the next token.
    pub fn refuse(&self) -> ReadFault
        ensures { result ≡ ReadFault.Syntax (length self.now) }
    {
        ReadFault::Syntax(self.rest.len())
    }

    /// The kind of the next token.
    pub fn peek(&self) -> Kind
        ensures { result ≡ reading.next self.now }
    {
        match self.rest {
            [] => Kind::End,
            [first, ..] => first.kind(),
        }
    }

    /// Whether the next token is of this kind.
    #[tactic(auto, unfolding(crate::specs::Reading::sees))]
    pub fn sees(&self, kind: Kind) -> bool
        ensures { result ≡ reading.sees kind self.now }
    {
        same_kind(self.peek(), kind)
    }

    /// Whether the token behind the next one is of this kind.
    #[tactic(auto, unfolding(crate::specs::Reading::sees))]
    pub fn sees_second(&self, kind: Kind) -> bool
        ensures { result ≡ reading.sees kind (drop 1 self.now) }
    {
        match self.rest {
            [_, second, ..] => same_kind(second.kind(), kind),
            _ => same_kind(Kind::End, kind),
        }
    }

    /// Leaves the next token out.
    pub fn skip(&mut self)
        ensures { self.new ≡ drop 1 self.old }
    {
        if let [_, rest @ ..] = self.rest {
            self.rest = rest;
        }
    }

    /// Takes the next token, which is to be of this kind.
    #[tactic(auto, unfolding(crate::specs::Reading::expect, crate::specs::Reading::pick))]
    pub fn expect(&mut self, kind: Kind) -> Result<Token<'a>, ReadFault>
        ensures { Reads (reading.expect kind self.old) result self.new }
    {
        match self.rest {
            [first, rest @ ..] if same_kind(first.kind(), kind) => {
                let token = first.copied();
                self.rest = rest;
                Ok(token)
            }
            _ => Err(ReadFault::Syntax(self.rest.len())),
        }
    }

    /// Takes the next tokens, which are to be of these kinds.
    #[tactic(auto, unfolding(crate::specs::Reading::expect_all, crate::specs::Reading::and_then))]
    pub fn expect_all(&mut self, kinds: &[Kind]) -> Result<(), ReadFault>
        ensures { Reads (reading.expect_all kinds.now self.old) result self.new }
    {
        for kind in kinds {
            self.expect(*kind)?;
        }
        Ok(())
    }

    /// Takes the next token, which is to be of this kind and closes what was read.
    #[tactic(auto, unfolding(crate::specs::Reading::closing, crate::specs::Reading::and_then))]
    pub fn closing<T: Drop>(&mut self, kind: Kind, x: T) -> Result<T, ReadFault>
        ensures { Reads (reading.closing kind x self.old) result self.new }
    {
        self.expect(kind)?;
        Ok(x)
    }

    /// Takes the next token, which is to be of this kind, and puts it behind what was read.
    #[tactic(auto, unfolding(crate::specs::Reading::ending, crate::specs::Reading::and_then))]
    pub fn ending<T: Drop>(&mut self, kind: Kind, x: T) -> Result<(T, Token<'a>), ReadFault>
        ensures { Reads (reading.ending kind x self.old) result self.new }
    {
        let end = self.expect(kind)?;
        Ok((x, end))
    }

    /// Takes a name between two tokens of these kinds.
    #[tactic(auto, unfolding(crate::specs::Reading::expect_name, crate::specs::Reading::and_then))]
    pub fn expect_name(&mut self, front: Kind, back: Kind) -> Result<Token<'a>, ReadFault>
        ensures { Reads (reading.expect_name front back self.old) result self.new }
    {
        self.expect(front)?;
        let name = self.expect(Kind::Name)?;
        self.expect(back)?;
        Ok(name)
    }

    /// The tokens from the next one on.
    pub fn ahead(&self) -> &'a [Token<'a>]
        ensures { result.now ≡ self.now }
    {
        self.rest
    }

    /// The tokens that were read since `start` lay ahead.
    pub fn since(&self, start: &'a [Token<'a>]) -> Tokens<'a>
        ensures { result ≡ between start.now self.now }
    {
        Tokens::new(&start[..start.len().saturating_sub(self.rest.len())])
    }
}
