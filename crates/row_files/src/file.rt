//! The files that a program is given.
use crate::refused::{Refused, refuse};
use std::io::Read;
use std::{env, fs};

/// A file has fewer bytes than this.
const MOST_READ: u64 = 1_048_576;

/// A text that stays as long as the program runs, as the files of rows do: each is read once.
pub fn lasting(bytes: Vec<u8>) -> Result<&'static str, Refused> {
    let bytes: &'static [u8] = bytes.leak();
    match str::from_utf8(bytes) {
        Ok(text) => Ok(text),
        Err(_) => Err(Refused::from("a file that is no text")),
    }
}

/// The names of the files that the words of the command line name.
pub fn names(rt: &HostRuntime) -> Result<Vec<&'static str>, Refused> {
    let words: Vec<String> = env::args(rt)?.collect(rt.alloc())?;
    let mut names = Vec::new(rt.alloc());
    for word in words.leak().iter().skip(1) {
        if names.push(word.as_str()).is_err() {
            return refuse(0, "out of memory");
        }
    }
    Ok(names)
}

/// The text of a file, whole.
pub fn text_of(rt: &HostRuntime, name: &str) -> Result<&'static str, Refused> {
    let mut text = String::new(rt.alloc());
    let file = fs::open(rt, name)?;
    file.take(MOST_READ).read_to_string(&mut text)?;
    if text.len() as u64 == MOST_READ {
        return refuse(0, "a file is too long");
    }
    lasting(text.into_bytes())
}
