use pml_token::token::Token;
use pml_tree::tree::Scalar;

/// What a declaration begins with, before the names that it declares.
#[derive(Drop)]
pub enum Opener<'a> {
    Plain(Scalar),
    /// `unsigned`; each name has a width of its own.
    Unsigned,
    /// A typedef.
    Named(Token<'a>),
}
