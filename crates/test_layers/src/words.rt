//! What is read of a command line: a letter for each flag, or a dash, the limit and the files, with a dash for what is not there, and words for the options behind them.
use command_line::{Arguments, arguments};
use row_files::RowWriter;
use std::alloc::{AllocError, Global};

fn add_flag(set: bool, letter: &str, out: &mut RowWriter) {
    out.word(if set { letter } else { "-" });
}

fn add_file(name: &Option<String>, out: &mut RowWriter) {
    out.word(" ");
    match name {
        Some(name) => out.word(name.as_str()),
        None => out.word("-"),
    }
}

fn add_named(word: &str, name: &Option<String>, out: &mut RowWriter) {
    if let Some(name) = name {
        out.word(word);
        out.word(name.as_str());
    }
}

fn add_all(word: &str, texts: &[String], out: &mut RowWriter) {
    for text in texts {
        out.word(word);
        out.word(text.as_str());
    }
}

fn add_read(read: &Arguments, out: &mut RowWriter) {
    add_flag(read.options.steps, "p", out);
    add_flag(read.options.globals, "g", out);
    add_flag(read.options.locals, "l", out);
    add_flag(read.options.lossy, "m", out);
    out.word(" ");
    out.count(read.options.limit);
    out.word(" ");
    out.word(read.model.as_str());
    add_file(&read.choices, out);
    add_file(&read.rec, out);
    out.word(" ");
    add_flag(read.convert, "convert", out);
    out.word(if read.check { " check" } else { "" });
    out.word(if read.explain { " explain" } else { "" });
    add_named(" name ", &read.name, out);
    add_named(" source ", &read.source, out);
    add_named(" lines ", &read.lines, out);
    out.word(if read.prepare { " prepare" } else { "" });
    out.word(if read.no_cpp { " no-cpp" } else { "" });
    add_all(" D ", read.defines.as_slice(), out);
    add_all(" I ", read.folders.as_slice(), out);
}

fn words_of(alloc: Global, text: &[u8]) -> Result<Vec<&str>, AllocError> {
    str::from_utf8(text)
        .unwrap_or("(bytes that are no text)")
        .split(' ')
        .collect(alloc)
}

fn add_arguments(alloc: Global, words: &[&str], out: &mut RowWriter) {
    match arguments(alloc, words) {
        Ok(read) => add_read(&read, out),
        Err(error) => out.kind(&error.kind()),
    }
}

/// Writes what is read of words with spaces between them, or why they are refused.
pub fn add_words(alloc: Global, text: &[u8], out: &mut RowWriter) {
    match words_of(alloc, text) {
        Ok(words) => add_arguments(alloc, words.as_slice(), out),
        Err(AllocError) => out.no_memory(),
    }
}
