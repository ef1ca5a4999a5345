//! What stands at the posts of a body.

/// The name of a label: how many bytes of the text stand before it, and how many it has.
#[derive(Clone, Copy)]
pub struct Label {
    pub offset: u32,
    pub length: usize,
}

/// What stands at a post, as far as it is told.
#[derive(Clone, Copy)]
pub enum PostMatter {
    /// The end of an arm.
    Bare,
    Other,
    Else,
    Break,
    Goto(Label),
    /// A d_step, with the least post inside and that of its first statement, which is the greatest.
    DStep(usize, usize),
}

/// What stands at a post, and how many bytes of the text stand before its first token behind its labels. The end of an arm has no token.
#[derive(Clone, Copy)]
pub struct PostSite {
    pub offset: Option<u32>,
    pub matter: PostMatter,
}
