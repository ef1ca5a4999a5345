//! The macros and folders that a command line gives.

ghost use Rattle.std.specs.Prelude.{◌≡◌, ◌++◌, ◌∷◌, [], map, IfOk, OnOk, string_bytes};
ghost use Rattle.prepared.specs.Given as as_given;

use crate::unprepared::Unprepared;
use std::alloc::{AllocError, Global};

/// How a text is prepared.
#[derive(Debug, Drop)]
pub struct How {
    /// It is read as it is, without a preprocessor.
    pub is_plain: bool,
    /// The lines that stand for `-D` and `-U`.
    pub given: Vec<u8>,
    /// The folders of `-I`.
    pub folders: Vec<String>,
}

/// The option of a macro, by its letter, and what stands behind that.
#[derive(Clone, Copy)]
pub struct MacroOption<'w> {
    pub letter: char,
    pub value: &'w str,
}

fn is_name_byte(b: u8) -> bool
    ensures { result ≡ as_given.is_name_byte b }
{
    b.is_ascii_alphanumeric() || b == b'_'
}

// Whether a name goes on, to its end or to a `=` or `(`.
fn goes_on(bytes: &[u8]) -> bool
    ensures { result ≡ as_given.goes_on bytes.now }
{
    let mut rest = bytes;
    while let [b, others @ ..] = rest {
        if *b == b'=' || *b == b'(' {
            return true;
        }
        if !is_name_byte(*b) {
            return false;
        }
        rest = others;
    }
    true
}

// Whether a macro's name stands before the first `=` or `(`.
fn has_name(value: &[u8]) -> bool
    ensures { result ≡ as_given.has_name value.now }
{
    match value {
        [] => false,
        [b'0'..=b'9', ..] => false,
        [b'=', ..] => false,
        [b'(', ..] => false,
        _ => goes_on(value),
    }
}

// Adds the line that stands for `-DNAME=VALUE` or `-DNAME`.
fn add_definition(given: &mut Vec<u8>, value: &str) -> Result<(), AllocError> {
    given.extend_from_slice(b"#define ")?;
    match value.split_once('=') {
        Some((name, body)) => {
            given.extend_from_slice(name.as_bytes())?;
            given.push(b' ')?;
            given.extend_from_slice(body.as_bytes())?;
        }
        None => {
            given.extend_from_slice(value.as_bytes())?;
            given.extend_from_slice(b" 1")?;
        }
    }
    given.push(b'\n')?;
    Ok(())
}

/// Adds the line that stands for `-DNAME=VALUE`, `-DNAME` or `-UNAME`.
pub fn add_line(
    alloc: Global,
    given: &mut Vec<u8>,
    valued: MacroOption<'_>,
) -> Result<(), Unprepared> {
    let value = valued.value;
    if !has_name(value.as_bytes())
        || (valued.letter == 'U' && value.contains('='))
        || value.contains('\n')
    {
        let word = format!(in alloc;
            "-{} wants the name of a macro, and '{value}' has none",
            valued.letter
        )?;
        return Err(Unprepared::Odd(word));
    }
    if valued.letter == 'U' {
        given.extend_from_slice(b"#undef ")?;
        given.extend_from_slice(value.as_bytes())?;
        given.push(b'\n')?;
        return Ok(());
    }
    add_definition(given, value)?;
    Ok(())
}

/// Adds a folder of `-I`.
pub fn add_folder(alloc: Global, folders: &mut Vec<String>, value: &str) -> Result<(), Unprepared>
    ensures { OnOk result (map string_bytes folders.new.items ≡ map string_bytes folders.old.items ++ value.now ∷ []) }
{
    if value.is_empty() {
        return Err(Unprepared::Odd(String::from_str(alloc, "-I wants a folder")?));
    }
    folders.push(String::from_str(alloc, value)?)?;
    Ok(())
}

impl How {
    /// With the values of `-D` and of `-I`, in their order.
    pub fn with(
        alloc: Global,
        is_plain: bool,
        defined: &[String],
        named: &[String],
    ) -> Result<How, Unprepared> {
        let mut given = Vec::new(alloc);
        let mut folders = Vec::new(alloc);
        for value in defined {
            let valued = MacroOption {
                letter: 'D',
                value: value.as_str(),
            };
            add_line(alloc, &mut given, valued)?;
        }
        for value in named {
            add_folder(alloc, &mut folders, value.as_str())?;
        }
        Ok(How {
            is_plain,
            given,
            folders,
        })
    }
}
