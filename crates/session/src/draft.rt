//! The texts of a session, composed in buffers that are kept.
ghost use Rattle.std.specs.Prelude.{◌≡◌, ◌+◌, ◌++◌, ◌<◌, ◌≤◌, ◌^◌, [], ◌∷◌, drop, length, IfOk, OnOk, OnErr, codes};
ghost use Rattle.std.specs.Io.{StartsWith};
ghost use Rattle.std.specs.Fmt.{decimal};
ghost use Rattle.profile.specs.declared.TheConstants.{LINE_BYTES};
ghost use Rattle.session.specs.Takes.{CanBeShown};
ghost use Rattle.promela_session.specs.Events.{list_from, prompt, record_line, placed_line, last_words, last_line, step_line, fault_line, refusal_line};

use crate::step_numbers::StepNumbers;
use crate::{Cause, Machine};
use diagnostics::{Fault, Refusal};
use itoa::write_digits;
use std::alloc::{AllocError, Global};

/// The buffer that a session keeps for what is composed.
#[derive(Drop)]
pub struct Draft {
    /// The piece that is composed.
    pub piece: Vec<u8>,
    /// Where in it the prompt of the question that is asked begins.
    pub prompt: usize,
    /// How lines of steps begin.
    pub numbers: StepNumbers,
}

impl Draft {
    /// An empty buffer.
    pub fn new(alloc: Global) -> Self {
        Draft {
            piece: Vec::new(alloc),
            prompt: 0,
            numbers: StepNumbers::new(),
        }
    }
}

// Where the places of words and digits end.
const ROOM: usize = 32;

// Appends words and the places behind them, from here on.
#[inline(always)]
fn add_before(
    piece: &mut Vec<u8>,
    words: &[u8],
    places: &mut [u8],
    from: usize,
) -> Result<(), AllocError>
    requires within { from ≤ length places.old }
    requires room { length words.now ≤ from }
    ensures { OnOk result (piece.new.items ≡ piece.old.items ++ (words.now ++ drop from places.old)) }
{
    let begin = from - words.len();
    places[begin..from].copy_from_slice(words);
    piece.extend_from_slice(&places[begin..])
}

// Appends words and a number in decimal, and what stands behind the places of both, at once.
#[inline(always)]
fn add_number(
    piece: &mut Vec<u8>,
    words: &[u8],
    n: u64,
    places: &mut [u8],
) -> Result<(), AllocError>
    requires room { 32 ≤ length places.old }
    requires short { length words.now ≤ 12 }
    ensures { OnOk result (piece.new.items ≡ piece.old.items ++ (words.now ++ (decimal n ++ drop 32 places.old))) }
{
    if n < 10 {
        places[ROOM - 1] = b'0' + n as u8;
        return add_before(piece, words, places, ROOM - 1);
    }
    let digits = write_digits(n, places, ROOM);
    add_before(piece, words, places, digits)
}

// Appends a line feed.
#[inline(always)]
fn add_line_feed(piece: &mut Vec<u8>) -> Result<(), AllocError>
    ensures added { OnOk result (piece.new.items ≡ piece.old.items ++ codes "\n") }
    ensures kept { OnErr result (piece.new.items ≡ piece.old.items) }
{
    piece.reserve(1)?;
    piece.push_reserved(b'\n');
    Ok(())
}

// Appends `WORDS N` and a line feed.
#[inline(always)]
fn add_counted(piece: &mut Vec<u8>, words: &[u8], n: u64) -> Result<(), AllocError>
    requires { length words.now ≤ 12 }
    ensures { OnOk result (piece.new.items ≡ piece.old.items ++ (words.now ++ (decimal n ++ codes "\n"))) }
{
    let mut places = *b"................................\n";
    add_number(piece, words, n, &mut places)
}

// Appends a number and a line feed: at once where it has one digit.
#[inline(always)]
#[tactic(auto, using(std::proofs::lemmas::Fmt::decimal_digit))]
fn add_line(piece: &mut Vec<u8>, n: u64) -> Result<(), AllocError>
    ensures { OnOk result (piece.new.items ≡ piece.old.items ++ (decimal n ++ codes "\n")) }
{
    if n < 10 {
        let digit = b'0' + n as u8;
        return piece.extend_from_slice(&[digit, b'\n']);
    }
    add_counted(piece, b"", n)
}

// Appends `choose 1..N` and a line feed: at once where N has one digit.
#[inline(always)]
pub fn add_prompt(piece: &mut Vec<u8>, most: u64) -> Result<(), AllocError>
    ensures { OnOk result (piece.new.items ≡ piece.old.items ++ prompt most) }
{
    if most < 10 {
        let digit = b'0' + most as u8;
        return piece.extend_from_slice(&[
            b'c', b'h', b'o', b'o', b's', b'e', b' ', b'1', b'.', b'.', digit, b'\n',
        ]);
    }
    add_counted(piece, b"choose 1..", most)
}

// Appends `choice N: `: at once where N has one digit.
#[inline(always)]
#[tactic(auto, using(std::proofs::lemmas::Fmt::decimal_digit))]
fn add_choice(piece: &mut Vec<u8>, n: u64) -> Result<(), AllocError>
    ensures { OnOk result (piece.new.items ≡ piece.old.items ++ (codes "choice " ++ (decimal n ++ codes ": "))) }
{
    if n < 10 {
        let digit = b'0' + n as u8;
        return piece.extend_from_slice(&[
            b'c', b'h', b'o', b'i', b'c', b'e', b' ', digit, b':', b' ',
        ]);
    }
    let mut places = *b"................................: ";
    add_number(piece, b"choice ", n, &mut places)
}

// Appends the text of a move and a line feed.
#[inline(always)]
fn add_text<M: Machine>(machine: &M, m: &M::Move, piece: &mut Vec<u8>) -> Result<(), AllocError>
    requires { CanBeShown M.rules machine.now m.now }
    ensures added { OnOk result (piece.new.items ≡ piece.old.items ++ (M.rules.text machine.now m.now ++ codes "\n")) }
    ensures kept { OnErr result (StartsWith piece.new.items piece.old.items) }
{
    machine.show(m, piece)?;
    add_line_feed(piece)
}

// Appends `WORDS N: TEXT` and a line feed, with the text of a move.
#[inline(always)]
fn add_move<M: Machine>(
    machine: &M,
    m: &M::Move,
    words: &[u8],
    n: u64,
    piece: &mut Vec<u8>,
) -> Result<(), AllocError>
    requires present { CanBeShown M.rules machine.now m.now }
    requires short { length words.now ≤ 12 }
    ensures { OnOk result (piece.new.items ≡ piece.old.items ++ (words.now ++ (decimal n ++ (codes ": " ++ (M.rules.text machine.now m.now ++ codes "\n"))))) }
{
    let mut places = *b"................................: ";
    add_number(piece, words, n, &mut places)?;
    add_text(machine, m, piece)
}

// Appends `LETTERS N (WORDS)`.
fn add_diagnosis(piece: &mut Vec<u8>, letters: &[u8], n: u8, words: &[u8]) -> Result<(), AllocError>
    requires { length letters.now ≤ 12 }
    ensures { OnOk result (piece.new.items ≡ piece.old.items ++ (letters.now ++ (decimal n ++ (codes " (" ++ (words.now ++ codes ")"))))) }
{
    let mut places = *b"................................ (";
    add_number(piece, letters, u64::from(n), &mut places)?;
    piece.extend_from_slice(words)?;
    piece.extend_from_slice(b")")
}

/// Composes the list of a question.
#[inline(always)]
pub fn draft_list<M: Machine>(
    machine: &M,
    moves: &[M::Move],
    draft: &mut Draft,
) -> Result<(), AllocError>
    requires { moves.now ≡ M.rules.moves machine.now }
    ensures { OnOk result (draft.new.piece.items ≡ list_from (M.rules.text machine.now) 1 moves.now) }
{
    draft.piece.clear();
    for (i, m) in moves.iter().enumerate() {
        add_choice(&mut draft.piece, i as u64 + 1)?;
        add_text(machine, m, &mut draft.piece)?;
    }
    Ok(())
}

/// Composes the prompt for one of so many moves behind the piece, and keeps where it begins.
#[inline(always)]
pub fn draft_prompt(most: usize, draft: &mut Draft) -> Result<(), AllocError>
    ensures piece { OnOk result (draft.new.piece.items ≡ draft.old.piece.items ++ prompt most) }
    ensures begins { OnOk result (draft.new.prompt ≡ length draft.old.piece.items) }
{
    draft.prompt = draft.piece.len();
    add_prompt(&mut draft.piece, most as u64)
}

/// Composes the record's line of an accepted number.
#[inline(always)]
pub fn draft_record(n: usize, piece: &mut Vec<u8>) -> Result<(), AllocError>
    ensures line { OnOk result (piece.new.items ≡ record_line n) }
    ensures short { length (record_line n) ≤ LINE_BYTES + 1 }
{
    piece.clear();
    add_line(piece, n as u64)
}

// Appends a number, a process and a line, parted by spaces, and a line feed.
fn add_placed(piece: &mut Vec<u8>, n: u64, process: u32, line: u32) -> Result<(), AllocError>
    ensures { OnOk result (piece.new.items ≡ piece.old.items ++ (decimal n ++ (codes " " ++ (decimal process ++ (codes " " ++ (decimal line ++ codes "\n")))))) }
{
    let mut places = *b"................................ ";
    add_number(piece, b"", n, &mut places)?;
    let mut places = *b"................................ ";
    add_number(piece, b"", u64::from(process), &mut places)?;
    add_counted(piece, b"", u64::from(line))
}

/// Composes the line of an accepted number with the process and the line of its move.
pub fn draft_placed(
    n: usize,
    process: u32,
    line: u32,
    piece: &mut Vec<u8>,
) -> Result<(), AllocError>
    ensures line { OnOk result (piece.new.items ≡ placed_line n (process, line)) }
    ensures short { length (placed_line n (process, line)) ≤ LINE_BYTES + 1 }
{
    piece.clear();
    add_placed(piece, n as u64, process, line)
}

fn words_of(cause: Cause) -> &'static [u8]
    ensures { result.now ≡ last_words cause }
{
    match cause {
        Cause::Valid => b"end: valid, steps ",
        Cause::Quit => b"end: quit, steps ",
        Cause::Invalid => b"end: invalid, steps ",
        Cause::ChoicesEnded => b"stop: choices ended, steps ",
        Cause::LineTooLong => b"stop: line too long, steps ",
        Cause::BadChoices => b"stop: 100 bad choices, steps ",
        Cause::Misfit => b"stop: choice misfit, steps ",
        Cause::StepLimit => b"stop: step limit, steps ",
        _ => b"",
    }
}

/// Composes the last line of a session.
pub fn draft_last(cause: Cause, steps: u32, piece: &mut Vec<u8>) -> Result<(), AllocError>
    ensures { OnOk result (piece.new.items ≡ last_line cause steps) }
{
    piece.clear();
    piece.extend_from_slice(words_of(cause))?;
    add_counted(piece, b"", u64::from(steps))
}

/// Appends the line of a step.
#[inline(always)]
pub fn add_step<M: Machine>(
    machine: &M,
    m: &M::Move,
    n: u64,
    numbers: &mut StepNumbers,
    text: &mut Vec<u8>,
) -> Result<(), AllocError>
    requires present { CanBeShown M.rules machine.now m.now }
    ensures added { OnOk result (text.new.items ≡ text.old.items ++ step_line n (M.rules.text machine.now m.now)) }
    ensures kept { OnErr result (StartsWith text.new.items text.old.items) }
{
    numbers.add(n, text)?;
    add_text(machine, m, text)
}

/// Composes the line of a fault.
#[inline(never)]
pub fn draft_fault<M: Machine>(
    machine: &M,
    m: &M::Move,
    fault: Fault,
    n: u64,
    draft: &mut Draft,
) -> Result<(), AllocError>
    requires present { CanBeShown M.rules machine.now m.now }
    ensures { OnOk result (draft.new.piece.items ≡ fault_line fault n (M.rules.text machine.now m.now)) }
{
    draft.piece.clear();
    add_diagnosis(
        &mut draft.piece,
        b"fault F",
        fault.number(),
        diagnostic_words::of_fault(fault),
    )?;
    add_move(machine, m, b": step ", n, &mut draft.piece)
}

/// Composes the line of a refused model.
pub fn draft_refusal(refusal: Refusal, piece: &mut Vec<u8>) -> Result<(), AllocError>
    ensures { OnOk result (piece.new.items ≡ refusal_line refusal) }
{
    piece.clear();
    add_diagnosis(
        piece,
        b"refused M",
        refusal.number(),
        diagnostic_words::of_refusal(refusal),
    )?;
    piece.push(b'\n')?;
    Ok(())
}
