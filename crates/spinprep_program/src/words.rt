// The words of the command line.

use crate::stop::Hindrance;
use prepared::given::{How, MacroOption, add_folder, add_line};
use prepared::unprepared::Unprepared;
use std::alloc::Global;

// What is asked for.
#[derive(Drop)]
pub struct PreparingCommand {
    pub is_strict: bool,
    // what the preprocessor leaves is written, and nothing is prepared
    pub is_expanded: bool,
    pub file: String,
    // what the file is called
    pub name: Option<String>,
    // the file for the table of included lines
    pub lines: Option<String>,
    pub how: How,
}

// Words that are wrong by themselves.
fn odd(words: String) -> Hindrance {
    Hindrance::Unprepared(Unprepared::Odd(words))
}

// What the words ask for, as far as they are read.
#[derive(Drop)]
struct Reading {
    is_strict: bool,
    is_plain: bool,
    is_expanded: bool,
    // the words of options are over
    is_over: bool,
    // the letter of an option whose value is the next word
    waiting: Option<char>,
    file: Option<String>,
    name: Option<String>,
    lines: Option<String>,
    given: Vec<u8>,
    folders: Vec<String>,
}

impl Reading {
    fn new(alloc: Global) -> Reading {
        Reading {
            is_strict: false,
            is_plain: false,
            is_expanded: false,
            is_over: false,
            waiting: None,
            file: None,
            name: None,
            lines: None,
            given: Vec::new(alloc),
            folders: Vec::new(alloc),
        }
    }

    // `-D`, `-U` or `-I` with its value.
    fn add_valued(&mut self, alloc: Global, valued: MacroOption<'_>) -> Result<(), Hindrance> {
        if valued.letter == 'I' {
            add_folder(alloc, &mut self.folders, valued.value)?;
        } else {
            add_line(alloc, &mut self.given, valued)?;
        }
        Ok(())
    }

    // The file, if it is the first.
    fn add_file(&mut self, alloc: Global, word: &str) -> Result<(), Hindrance> {
        match &self.file {
            Some(first) => {
                let first = first.as_str();
                Err(odd(format!(in alloc; "more than one model: '{first}' and '{word}'")?))
            }
            None => {
                self.file = Some(String::from_str(alloc, word)?);
                Ok(())
            }
        }
    }

    // A word that has its value behind it.
    fn add_with_value(&mut self, alloc: Global, word: &str) -> Result<(), Hindrance> {
        if let Some(own) = word.strip_prefix("--name=") {
            self.name = Some(String::from_str(alloc, own)?);
        } else if let Some(table) = word.strip_prefix("--lines=") {
            self.lines = Some(String::from_str(alloc, table)?);
        } else if let Some(value) = word.strip_prefix("-D") {
            return self.add_lettered(alloc, 'D', value);
        } else if let Some(value) = word.strip_prefix("-U") {
            return self.add_lettered(alloc, 'U', value);
        } else if let Some(value) = word.strip_prefix("-I") {
            return self.add_lettered(alloc, 'I', value);
        } else if word.starts_with("-") && word.len() > 1 {
            return Err(odd(format!(in alloc; "no option '{word}'; see spinprep --help")?));
        } else {
            return self.add_file(alloc, word);
        }
        Ok(())
    }

    // A letter with its value in the same word, or in the next.
    fn add_lettered(&mut self, alloc: Global, letter: char, value: &str) -> Result<(), Hindrance> {
        if value.is_empty() {
            self.waiting = Some(letter);
            return Ok(());
        }
        self.add_valued(alloc, MacroOption { letter, value })
    }

    // One word more.
    fn add(&mut self, alloc: Global, word: &str) -> Result<(), Hindrance> {
        if let Some(letter) = self.waiting.take() {
            return self.add_valued(
                alloc,
                MacroOption {
                    letter,
                    value: word,
                },
            );
        }
        if self.is_over {
            return self.add_file(alloc, word);
        }
        match word {
            "--help" => return Err(Hindrance::Help),
            "-h" => return Err(Hindrance::Help),
            "--strict" => self.is_strict = true,
            "--no-cpp" => self.is_plain = true,
            "--expand" => self.is_expanded = true,
            "--" => self.is_over = true,
            word => return self.add_with_value(alloc, word),
        }
        Ok(())
    }

    // What they ask for.
    fn asked(self, alloc: Global) -> Result<PreparingCommand, Hindrance> {
        let Reading {
            is_strict,
            is_plain,
            is_expanded,
            is_over: _,
            waiting,
            file,
            name,
            lines,
            given,
            folders,
        } = self;
        if let Some(letter) = waiting {
            return Err(odd(format!(in alloc; "-{letter} wants a value")?));
        }
        let Some(file) = file else {
            return Err(Hindrance::Words);
        };
        Ok(PreparingCommand {
            is_strict,
            is_expanded,
            file,
            name,
            lines,
            how: How {
                is_plain,
                given,
                folders,
            },
        })
    }
}

// What these words ask for.
pub fn asked_by(alloc: Global, words: &[String]) -> Result<PreparingCommand, Hindrance> {
    let mut reading = Reading::new(alloc);
    for word in words {
        reading.add(alloc, word.as_str())?;
    }
    reading.asked(alloc)
}
