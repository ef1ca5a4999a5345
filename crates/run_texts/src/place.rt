//! Where a process is, in words.

ghost use Rattle.std.specs.Prelude.{◌≡◌, ◌<◌, ◌≤◌, ◌++◌, OnOk, OnErr, codes};
ghost use Rattle.std.specs.Io.{StartsWith};
ghost use Rattle.promela_run.specs.Lines.{proctype_name};
ghost use Rattle.promela_run.specs.World.{heading as heading_of, line};
ghost use Rattle.run_texts.specs.Opening.{opening, init_heading};

use itoa::Buffer;
use pml_program::program::Proctype;
use pml_token::token::{Kind, Token, same_kind};
use std::alloc::AllocError;

/// Appends `proc P (` where P has two digits.
#[inline(always)]
#[tactic(auto, using(crate::proofs::Digits::two))]
fn add_of_two(process: usize, text: &mut Vec<u8>) -> Result<(), AllocError>
    requires most { process < 100 }
    requires least { 10 ≤ process }
    ensures added { OnOk result (text.new.items ≡ text.old.items ++ opening process) }
    ensures kept { OnErr result (StartsWith text.new.items text.old.items) }
{
    let number = process as u8;
    let ten = b'0' + number / 10;
    let one = b'0' + number % 10;
    text.extend_from_slice(&[b'p', b'r', b'o', b'c', b' ', ten, one, b' ', b'('])
}

/// Appends `proc P (` where P has three digits, and fits a byte.
#[inline(always)]
#[tactic(auto, using(crate::proofs::Digits::three))]
fn add_of_three(process: usize, text: &mut Vec<u8>) -> Result<(), AllocError>
    requires most { process < 256 }
    requires least { 100 ≤ process }
    ensures added { OnOk result (text.new.items ≡ text.old.items ++ opening process) }
    ensures kept { OnErr result (StartsWith text.new.items text.old.items) }
{
    let number = process as u8;
    let hundred = b'0' + number / 100;
    let ten = b'0' + number / 10 % 10;
    let one = b'0' + number % 10;
    text.extend_from_slice(&[b'p', b'r', b'o', b'c', b' ', hundred, ten, one, b' ', b'('])
}

/// Appends `proc P (` for any P.
#[inline(never)]
fn add_of_many(process: usize, text: &mut Vec<u8>) -> Result<(), AllocError>
    ensures added { OnOk result (text.new.items ≡ text.old.items ++ opening process) }
    ensures kept { OnErr result (StartsWith text.new.items text.old.items) }
{
    let mut digits = Buffer::new();
    text.extend_from_slice(b"proc ")?;
    text.extend_from_slice(digits.format(process).as_bytes())?;
    text.extend_from_slice(b" (")
}

/// Appends `proc P (`: at once where P fits a byte, as that of each process does.
#[inline(always)]
#[tactic(auto, using(std::proofs::lemmas::Fmt::decimal_digit))]
fn add_process(process: usize, text: &mut Vec<u8>) -> Result<(), AllocError>
    ensures added { OnOk result (text.new.items ≡ text.old.items ++ opening process) }
    ensures kept { OnErr result (StartsWith text.new.items text.old.items) }
{
    if process < 10 {
        let digit = b'0' + process as u8;
        return text.extend_from_slice(&[b'p', b'r', b'o', b'c', b' ', digit, b' ', b'(']);
    }
    if process < 100 {
        return add_of_two(process, text);
    }
    if process < 256 {
        return add_of_three(process, text);
    }
    add_of_many(process, text)
}

/// Appends `) `.
#[inline(always)]
fn add_closing(text: &mut Vec<u8>) -> Result<(), AllocError>
    ensures added { OnOk result (text.new.items ≡ text.old.items ++ codes ") ") }
    ensures kept { OnErr result (StartsWith text.new.items text.old.items) }
{
    text.reserve(2)?;
    text.push_reserved(b')');
    text.push_reserved(b' ');
    Ok(())
}

/// Appends `NAME) `.
#[inline(always)]
fn add_name(name: &[u8], text: &mut Vec<u8>) -> Result<(), AllocError>
    ensures added { OnOk result (text.new.items ≡ text.old.items ++ (name.now ++ codes ") ")) }
    ensures kept { OnErr result (StartsWith text.new.items text.old.items) }
{
    text.extend_from_slice(name)?;
    add_closing(text)
}

/// Appends `proc P (:init:) ` where P has one digit.
#[inline(always)]
#[tactic(auto, using(std::proofs::lemmas::Fmt::decimal_digit))]
fn add_init_of_one(process: usize, text: &mut Vec<u8>) -> Result<(), AllocError>
    requires { process < 10 }
    ensures added { OnOk result (text.new.items ≡ text.old.items ++ init_heading process) }
    ensures kept { OnErr result (StartsWith text.new.items text.old.items) }
{
    let numeral = b'0' + process as u8;
    text.extend_from_slice(&[
        b'p', b'r', b'o', b'c', b' ', numeral, b' ', b'(', b':', b'i', b'n', b'i', b't', b':',
        b')', b' ',
    ])
}

/// Appends `proc P (:init:) ` for any P.
#[inline(never)]
fn add_init_of_many(process: usize, text: &mut Vec<u8>) -> Result<(), AllocError>
    ensures added { OnOk result (text.new.items ≡ text.old.items ++ init_heading process) }
    ensures kept { OnErr result (StartsWith text.new.items text.old.items) }
{
    add_process(process, text)?;
    text.extend_from_slice(b":init:) ")
}

/// Appends `proc P (:init:) `: at once where P has one digit, as it has in most models.
#[inline(always)]
fn add_init(process: usize, text: &mut Vec<u8>) -> Result<(), AllocError>
    ensures added { OnOk result (text.new.items ≡ text.old.items ++ init_heading process) }
    ensures kept { OnErr result (StartsWith text.new.items text.old.items) }
{
    if process < 10 {
        return add_init_of_one(process, text);
    }
    add_init_of_many(process, text)
}

/// Appends `proc P (NAME) `.
#[inline(always)]
pub fn add_heading(
    process: usize,
    proctype: &Proctype<'_>,
    text: &mut Vec<u8>,
) -> Result<(), AllocError>
    ensures added { OnOk result (text.new.items ≡ text.old.items ++ heading_of process proctype.now) }
    ensures kept { OnErr result (StartsWith text.new.items text.old.items) }
{
    if same_kind(proctype.name.kind(), Kind::Init) {
        return add_init(process, text);
    }
    add_process(process, text)?;
    add_name(proctype.name.text(), text)
}

/// The name of a proctype, or `:init:`.
pub fn name_of<'a>(name: &Token<'a>) -> &'a [u8]
    ensures { result.now ≡ proctype_name name.now }
{
    if same_kind(name.kind(), Kind::Init) {
        return b":init:";
    }
    name.text()
}

/// Appends `line L`.
pub fn add_line(number: u32, text: &mut Vec<u8>) -> Result<(), AllocError>
    ensures added { OnOk result (text.new.items ≡ text.old.items ++ line number) }
    ensures kept { OnErr result (StartsWith text.new.items text.old.items) }
{
    let mut digits = Buffer::new();
    text.extend_from_slice(b"line ")?;
    text.extend_from_slice(digits.format(number).as_bytes())
}
