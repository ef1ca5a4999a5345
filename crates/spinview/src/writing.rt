// The files that a run writes: the record of a walk, and its page. Each is opened once, and is what was opened.
ghost use Rattle.std.specs.Prelude.{◌≤◌, length};

use crate::stop::{NoView, RunDevice, failed};
use program_files::fault::{NoFile, not_opened, not_written};
use program_files::held::{FileRole, Held};
use program_files::identity::identity_of;
use std::alloc::AllocError;
use std::fs::{File, OpenFile, OpenOptions};
use std::io::Write;
use std::os::unix::fs::FileExt;
use std::{fs, io};
use view_page::page::Contents;
use view_page::pieces::Pieces;
use view_session::record::add_record;
use view_text::writer::Writer;
use view_walk::leg::Leg;

// Opens a file for writing, which keeps what it holds, unless it is another one of the run; and notes what it is.
fn opened(rt: &HostRuntime, name: &str, held: &mut Held, role: FileRole) -> Result<File, NoFile> {
    let opened = OpenOptions::new().write(true).create(true).open(rt, name);
    let file = match opened {
        Ok(file) => file,
        Err(error) => return Err(not_opened(rt.alloc(), name, error)),
    };
    let own = identity_of(&file);
    if let Some(own) = own {
        if let Some(other) = held.role_of(own) {
            return Err(NoFile::WouldEmpty(String::from_str(rt.alloc(), name)?, other));
        }
    }
    held.add(own, role)?;
    Ok(file)
}

// Writes bytes from a place of a file on, and cuts off what is behind them.
fn put_at(file: &File, bytes: &[u8], place: u64) -> io::Result<()> {
    file.write_all_at(bytes, place)?;
    file.set_len(place.saturating_add(bytes.len() as u64))
}

// Where two texts part.
fn common(one: &[u8], other: &[u8]) -> usize
    ensures { result ≤ length other.now }
{
    let most = one.len().min(other.len());
    for at in 0..most {
        if one[at] != other[at] {
            return at;
        }
    }
    most
}

// The file of a walk's choices.
#[derive(Drop)]
pub struct Record {
    file: File,
    is_regular: bool,
    // what it holds of the walk; until its first choice, what it held before
    kept: Vec<u8>,
    is_begun: bool,
}

// The record of these choices.
fn record_of(rt: &HostRuntime, legs: &[Leg]) -> Result<Vec<u8>, AllocError> {
    let mut record = Writer::new(rt.alloc());
    add_record(legs, &mut record);
    record.finish()
}

impl Record {
    // Opens it. What it holds stays until there is a choice.
    pub fn open(rt: &HostRuntime, name: &str, held: &mut Held) -> Result<Record, NoFile> {
        let file = opened(rt, name, held, FileRole::Record)?;
        Ok(Record {
            is_regular: identity_of(&file).is_some(),
            file,
            kept: Vec::new(rt.alloc()),
            is_begun: false,
        })
    }

    // Changes what a regular file holds: for a moment, where choices were made anew, it is the part that stays.
    fn change(&mut self, record: &[u8]) -> io::Result<()> {
        let same = common(self.kept.as_slice(), record);
        if !self.is_begun || same < self.kept.len() {
            self.file.set_len(same as u64)?;
        }
        put_at(&self.file, &record[same..], same as u64)
    }

    // Keeps the record of a walk that is shown, where that can be changed later.
    pub fn keep(&mut self, rt: &HostRuntime, legs: &[Leg]) -> Result<(), NoView> {
        if !self.is_regular {
            return Ok(());
        }
        let record = record_of(rt, legs)?;
        if record.as_slice() == self.kept.as_slice() {
            return Ok(());
        }
        match self.change(record.as_slice()) {
            Ok(()) => {
                self.is_begun = true;
                self.kept = record;
                Ok(())
            }
            Err(error) => Err(failed(RunDevice::Record, error)),
        }
    }

    // Keeps the record of a walk that is over. Of a whole run that had no choice it is empty.
    pub fn close(&mut self, rt: &HostRuntime, legs: &[Leg], is_whole: bool) -> Result<(), NoView> {
        if self.is_regular {
            self.keep(rt, legs)?;
        }
        let record = record_of(rt, legs)?;
        let put = if !self.is_regular {
            self.file.write_all(record.as_slice())
        } else if is_whole && !self.is_begun {
            self.file.set_len(0)
        } else {
            Ok(())
        };
        match put {
            Ok(()) => Ok(()),
            Err(error) => Err(failed(RunDevice::Record, error)),
        }
    }
}

// The file of a page, which holds what it held until the page is whole.
#[derive(Drop)]
pub struct PageFile {
    file: File,
    name: String,
    // the name without links, of a regular file
    real: Option<String>,
}

// So many names are tried of a file beside another.
const MOST_NAMES: u32 = 10;

// A new file beside another, and its name.
fn beside(rt: &HostRuntime, real: &str) -> Result<Option<(File, String)>, AllocError> {
    for number in 0..MOST_NAMES {
        let name = format!(in rt.alloc(); "{real}.{number}.new")?;
        if let Ok(file) = File::create_new(rt, name.as_str()) {
            return Ok(Some((file, name)));
        }
    }
    Ok(None)
}

// Writes a page, piece by piece. How long it is.
fn put_page(rt: &HostRuntime, file: &mut File, page: Contents<'_>) -> io::Result<u64> {
    let mut pieces = Pieces::new(page);
    let mut piece = Writer::new(rt.alloc());
    let mut length: u64 = 0;
    for _turn in 0..u64::MAX {
        if !pieces.add_next(&mut piece) {
            break;
        }
        if piece.is_refused() {
            return Err(io::Error::from(io::ErrorKind::OutOfMemory));
        }
        file.write_all(piece.bytes())?;
        length = length.saturating_add(piece.len() as u64);
        piece.clear();
    }
    Ok(length)
}

impl PageFile {
    // Opens it. What it holds stays.
    pub fn open(rt: &HostRuntime, name: &str, held: &mut Held) -> Result<PageFile, NoFile> {
        let file = opened(rt, name, held, FileRole::Page)?;
        let real = match identity_of(&file) {
            Some(_) => match fs::canonicalize(rt, name) {
                Ok(path) => Some(String::from_str(rt.alloc(), path.as_str())?),
                Err(_) => None,
            },
            None => None,
        };
        Ok(PageFile {
            file,
            name: String::from_str(rt.alloc(), name)?,
            real,
        })
    }

    // Writes a page into the file itself.
    fn write_over(&mut self, rt: &HostRuntime, page: Contents<'_>) -> io::Result<()> {
        let length = put_page(rt, &mut self.file, page)?;
        if self.real.is_some() {
            self.file.set_len(length)?;
        }
        Ok(())
    }

    // Fills a file beside it, with its permissions, and puts that in its place.
    fn replace(
        &self,
        rt: &HostRuntime,
        new: File,
        name: &str,
        real: &str,
        page: Contents<'_>,
    ) -> io::Result<()> {
        let mut new = new;
        if let Ok(about) = self.file.metadata() {
            let _ = OpenFile::set_permissions(&new, about.permissions());
        }
        put_page(rt, &mut new, page)?;
        fs::rename(rt, name, real)
    }

    fn put(&mut self, rt: &HostRuntime, page: Contents<'_>) -> io::Result<()> {
        if let Some(real) = &self.real {
            if let Ok(Some((new, name))) = beside(rt, real.as_str()) {
                let put = self.replace(rt, new, name.as_str(), real.as_str(), page);
                if put.is_err() {
                    let _ = fs::remove_file(rt, name.as_str());
                }
                return put;
            }
        }
        self.write_over(rt, page)
    }

    // Writes the page: the file holds what it held, or the whole page.
    pub fn write(&mut self, rt: &HostRuntime, page: Contents<'_>) -> Result<(), NoFile> {
        match self.put(rt, page) {
            Ok(()) => Ok(()),
            Err(error) => Err(not_written(rt.alloc(), self.name.as_str(), error)),
        }
    }
}

// Why a walk's choices are not saved in a file.
#[derive(Clone, Copy, PartialEq, Eq)]
pub enum Unsaved {
    // The file is there, and was not named twice.
    Asked,
    Failed,
}

// A failure of the system, of which no more is said.
fn or_failed<T: Drop>(done: io::Result<T>) -> Result<T, Unsaved> {
    match done {
        Ok(value) => Ok(value),
        Err(_) => Err(Unsaved::Failed),
    }
}

// The file with a name that is saved in: a new one, or a regular one that is there.
fn saved_file(rt: &HostRuntime, name: &str, is_sure: bool) -> Result<File, Unsaved> {
    if fs::symlink_metadata(rt, name).is_err() {
        return or_failed(File::create_new(rt, name));
    }
    match fs::metadata(rt, name) {
        Ok(about) if about.is_file() => {
            if is_sure {
                or_failed(OpenOptions::new().write(true).open(rt, name))
            } else {
                Err(Unsaved::Asked)
            }
        }
        _ => Err(Unsaved::Failed),
    }
}

// Saves choices in a file, unless it is another one of the run; one that is there is named a second time first.
pub fn save(
    rt: &HostRuntime,
    name: &str,
    is_sure: bool,
    held: &Held,
    legs: &[Leg],
) -> Result<(), Unsaved> {
    let file = saved_file(rt, name, is_sure)?;
    let Some(own) = identity_of(&file) else {
        return Err(Unsaved::Failed);
    };
    if held.role_of(own).is_some() {
        return Err(Unsaved::Failed);
    }
    match record_of(rt, legs) {
        Ok(record) => or_failed(put_at(&file, record.as_slice(), 0)),
        Err(_) => Err(Unsaved::Failed),
    }
}
