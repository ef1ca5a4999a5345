//! The session over a text.

ghost use Rattle.std.specs.Prelude.{◌≡◌, ◌≢◌, ◌<◌, ℕ, List, Err, IfOk, IfErr, OnOk};
ghost use Rattle.promela_session.specs.declared.ends.End.{End};
ghost use Rattle.promela_session.specs.Events.{Part};
ghost use Rattle.promela_session.specs.Devices.{CanBeReplayed};
ghost use Rattle.promela_session.specs.Session.{end_of, transcript};
ghost use Rattle.promela_run.specs.World.{rules};
ghost use Rattle.session.specs.Writes.{CountsAll, IsOwnEnd, Runs};
ghost use Rattle.promela_text.specs.Tokens.{AreTokens};
ghost use Rattle.promela_grammar.specs.Models.{Spells};
ghost use Rattle.pml_play.specs.Transcript.{AreExpanded, IsModel, IsSpelled, IsTranscript, PlaysWhole, PlaysBroken};
ghost use Rattle.pml_play.specs.Parts as parts;
ghost use Rattle.pml_play.specs.Parts.{IsReady, IsRejected, Rejects, PlaysText};

use devices::Devices;
use diagnostics::Refusal;
use pml_check::{CheckFault, Checked, check};
use pml_inline::expand;
use pml_lex::cut;
use pml_lex::fault::LexError;
use pml_sim::world::World;
use pml_syntax::{SyntaxError, parse};
use pml_token::token::Token;
use pml_tree::tree::Tree;
use promela_text::inline_fault::InlineError;
use session::{Broken, End, Options, Version, end_of, failure, refuse, run};
use std::alloc::{AllocError, Global};

/// Why a text has no model.
#[derive(Clone, Copy, Debug, PartialEq, Eq)]
pub enum Rejection {
    Memory,
    /// It is refused, on this line, or 0 where the refusal has none.
    Refused(Refusal, u32),
}

fn of_lexical(fault: LexError) -> Rejection
    ensures { result ≡ parts.of_lexical fault }
{
    match fault {
        LexError::Memory => Rejection::Memory,
        LexError::TooLong => Rejection::Refused(Refusal::TextTooLong, 0),
        LexError::Lexical(line) => Rejection::Refused(Refusal::Lexical, line),
        LexError::LeftOut(line) => Rejection::Refused(Refusal::LeftOut, line),
    }
}

/// The text's tokens.
fn tokens_of<'t>(alloc: Global, text: &'t [u8]) -> Result<Vec<Token<'t>>, Rejection>
    ensures ok { IfOk result (λ tokens. AreTokens text.now tokens.items) }
    ensures err { IfErr result (IsRejected text.now) }
{
    match cut(alloc, text) {
        Ok(tokens) => Ok(tokens),
        Err(fault) => Err(of_lexical(fault)),
    }
}

fn of_inline(fault: InlineError) -> Rejection
    ensures { result ≡ parts.of_inline fault }
{
    match fault {
        InlineError::Memory => Rejection::Memory,
        InlineError::Inline(_) => Rejection::Refused(Refusal::Inline, 0),
        InlineError::TooDeep(line, _) => Rejection::Refused(Refusal::TooDeep, line),
    }
}

/// What comes of tokens, where the calls of inlines are replaced.
fn expansion_of<'t>(alloc: Global, tokens: &[Token<'t>]) -> Result<Vec<Token<'t>>, Rejection>
    ensures ok { (text : List ℕ) → AreTokens text tokens.now → IfOk result (λ expanded. AreExpanded text expanded.items) }
    ensures err { (text : List ℕ) → AreTokens text tokens.now → IfErr result (IsRejected text) }
{
    match expand(alloc, tokens) {
        Ok(expanded) => Ok(expanded),
        Err(fault) => Err(of_inline(fault)),
    }
}

/// What comes of the text's tokens, which are let go.
pub fn expanded_of<'t>(alloc: Global, text: &'t [u8]) -> Result<Vec<Token<'t>>, Rejection>
    ensures ok { IfOk result (λ expanded. AreExpanded text.now expanded.items) }
    ensures err { IfErr result (IsRejected text.now) }
{
    match tokens_of(alloc, text) {
        Ok(tokens) => expansion_of(alloc, &tokens),
        Err(rejection) => Err(rejection),
    }
}

fn of_syntax(fault: SyntaxError) -> Rejection
    ensures { result ≡ parts.of_syntax fault }
{
    match fault {
        SyntaxError::Memory => Rejection::Memory,
        SyntaxError::Syntax(line) => Rejection::Refused(Refusal::Syntax, line),
    }
}

fn of_check(fault: CheckFault) -> Rejection
    ensures { result ≡ parts.of_check fault }
{
    match fault {
        CheckFault::Memory => Rejection::Memory,
        CheckFault::Refused(refusal) => Rejection::Refused(refusal, 0),
    }
}

/// The tree that the tokens spell.
fn tree_of<'a>(alloc: Global, tokens: &'a [Token<'a>]) -> Result<Tree<'a>, Rejection>
    ensures ok { IfOk result (λ tree. Spells tree tokens.now) }
    ensures err { (text : List ℕ) → AreExpanded text tokens.now → IfErr result (IsRejected text) }
{
    match parse(alloc, tokens) {
        Ok(tree) => Ok(tree),
        Err(fault) => Err(of_syntax(fault)),
    }
}

/// The checked model of a tree, which is let go.
fn model_of<'a>(alloc: Global, tree: Tree<'a>) -> Result<Checked<'a>, Rejection>
    ensures ok { (text : List ℕ) → IsSpelled text tree.entry → IfOk result (IsReady text) }
    ensures err { (text : List ℕ) → IsSpelled text tree.entry → IfErr result (IsRejected text) }
{
    match check(alloc, tree) {
        Ok(checked) => Ok(checked),
        Err(fault) => Err(of_check(fault)),
    }
}

/// The checked model of the tree that the tokens spell.
pub fn checked_of<'a>(alloc: Global, tokens: &'a [Token<'a>]) -> Result<Checked<'a>, Rejection>
    ensures ok { (text : List ℕ) → AreExpanded text tokens.now → IfOk result (IsReady text) }
    ensures err { (text : List ℕ) → AreExpanded text tokens.now → IfErr result (IsRejected text) }
{
    match tree_of(alloc, tokens) {
        Ok(tree) => model_of(alloc, tree),
        Err(rejection) => Err(rejection),
    }
}

/// The first state of a checked model.
pub fn world_of<'p, 'a>(
    alloc: Global,
    checked: &'p Checked<'a>,
    lossy: bool,
) -> Result<World<'p, 'a>, Rejection>
    ensures ok { (text : List ℕ) → IsReady text checked.now → IfOk result (IsModel text lossy) }
    ensures err { (text : List ℕ) → IsReady text checked.now → IfErr result (IsRejected text) }
{
    match World::start(alloc, checked, lossy) {
        Ok(world) => Ok(world),
        Err(AllocError) => Err(Rejection::Memory),
    }
}

/// Writes the line of a refused text, and ends its session.
fn reject<D: Devices>(alloc: Global, rejection: Rejection, devices: &mut D) -> Result<End, Broken>
    ensures text { Rejects rejection result (D.holds devices.old) (D.holds devices.new) }
    ensures own { IfOk result (IsOwnEnd 0) }
    ensures count { CountsAll result (D.holds devices.old).failures (D.holds devices.new).failures }
{
    match rejection {
        Rejection::Memory => Err(Broken::Memory),
        Rejection::Refused(refusal, line) => refuse(alloc, refusal, line, devices),
    }
}

/// Runs the session of a model from its first state, which is let go, and counts its steps.
fn run_world<D: Devices>(
    alloc: Global,
    world: World<'_, '_>,
    options: &Options,
    steps: &mut u32,
    devices: &mut D,
) -> Result<End, Broken>
    requires { steps.old ≡ 0 }
    ensures part { Runs result (D.holds devices.old) (D.holds devices.new) steps.new (transcript rules options.now world.entry) }
    ensures own { IfOk result (IsOwnEnd steps.new) }
    ensures count { CountsAll result (D.holds devices.old).failures (D.holds devices.new).failures }
{
    let mut world = world;
    run(alloc, Version::First, &mut world, options, steps, devices)
}

/// Plays a checked model, and counts its steps.
fn play_checked<D: Devices>(
    alloc: Global,
    checked: &Checked<'_>,
    options: &Options,
    steps: &mut u32,
    devices: &mut D,
) -> Result<End, Broken>
    requires { steps.old ≡ 0 }
    ensures part { (text : List ℕ) → IsReady text checked.now → PlaysText text options.now result (D.holds devices.old) (D.holds devices.new) steps.new }
    ensures own { IfOk result (IsOwnEnd steps.new) }
    ensures count { CountsAll result (D.holds devices.old).failures (D.holds devices.new).failures }
{
    match world_of(alloc, checked, options.lossy) {
        Ok(world) => run_world(alloc, world, options, steps, devices),
        Err(rejection) => reject(alloc, rejection, devices),
    }
}

/// Plays the text, and counts its steps.
fn stages<D: Devices>(
    alloc: Global,
    text: &[u8],
    options: &Options,
    steps: &mut u32,
    devices: &mut D,
) -> Result<End, Broken>
    requires { steps.old ≡ 0 }
    ensures part { PlaysText text.now options.now result (D.holds devices.old) (D.holds devices.new) steps.new }
    ensures own { IfOk result (IsOwnEnd steps.new) }
    ensures count { CountsAll result (D.holds devices.old).failures (D.holds devices.new).failures }
{
    let tokens = match expanded_of(alloc, text) {
        Ok(tokens) => tokens,
        Err(rejection) => return reject(alloc, rejection, devices),
    };
    match checked_of(alloc, &tokens) {
        Ok(checked) => play_checked(alloc, &checked, options, steps, devices),
        Err(rejection) => reject(alloc, rejection, devices),
    }
}

/// Plays the text of a model. Where the status is not 6, the two sinks have taken the output and the record of its
/// transcript and its end is answered. Where it is 6, a device or memory failed, and what the devices hold is where a
/// beginning of the transcript's events leaves them.
pub fn play<D: Devices>(alloc: Global, text: &[u8], options: &Options, devices: &mut D) -> End
    ensures left { (left : List ℕ) × (D.holds devices.new).source left }
    ensures whole { result.status ≢ 6 → PlaysWhole text.now options.now (D.holds devices.old) (D.holds devices.new) result.steps result }
    ensures quiet { result.status ≢ 6 → (D.holds devices.new).failures ≡ (D.holds devices.old).failures }
    ensures broken { result.status ≡ 6 → PlaysBroken text.now options.now (D.holds devices.old) (D.holds devices.new) result }
    ensures end { result ≡ end_of result.cause result.steps }
    // Played again on its record, it is the same.
    ensures replay { (part : List ℕ → Part End) → IsTranscript text.now options.now part → CanBeReplayed part }
{
    let mut steps = 0;
    match stages(alloc, text, options, &mut steps, devices) {
        Ok(end) => end,
        Err(broken) => end_of(failure(broken), steps),
    }
}
