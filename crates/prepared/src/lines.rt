//! Where the lines of included files stand in what is prepared: on the line of their `#include`, a form feed behind each.

ghost use Rattle.std.specs.Prelude.{◌≤◌, length};

use prepare::FORM_FEED;
use prepare::markers::{Marker, marker_of};
use std::alloc::{AllocError, Global};

/// Which lines of a text are those of its own file, as `prepare::numbering` puts them.
#[derive(Drop)]
pub struct LineTable<'t> {
    out: Vec<u8>,
    // the model's own file, once a mark has named it
    own: Option<&'t [u8]>,
    // the file of the next line, and its line there, where it is another
    included: Option<&'t [u8]>,
    number: u64,
    // the line that is written to, and how many form feeds stand on it
    line: u64,
    feeds: u64,
    // whether the next line of an included file is to be told
    is_due: bool,
}

fn count(line: &[u8], wanted: u8) -> u64
    ensures { result ≤ length line.now }
{
    let mut count: u64 = 0;
    for byte in line {
        if *byte == wanted {
            count = count.saturating_add(1);
        }
    }
    count
}

impl<'t> LineTable<'t> {
    // The beginning of a text.
    fn new(alloc: Global) -> LineTable<'t> {
        LineTable {
            out: Vec::new(alloc),
            own: None,
            included: None,
            number: 0,
            line: 1,
            feeds: 0,
            is_due: false,
        }
    }

    // Tells that from here on the lines are those of a file from this one on. The model's own has no name.
    fn tell(&mut self, number: u64, file: &[u8]) -> Result<(), AllocError> {
        let (line, feeds) = (self.line, self.feeds);
        let alloc = *self.out.allocator();
        let place = format!(in alloc; "{line} {feeds} {number} ")?;
        self.out.extend_from_slice(place.as_bytes())?;
        self.out.extend_from_slice(file)?;
        self.out.push(b'\n')?;
        Ok(())
    }

    // A mark: the next line is one of this file.
    fn mark(&mut self, mark: &Marker<'t>) -> Result<(), AllocError> {
        let file = mark.file();
        let own = self.own.unwrap_or(file);
        self.own = Some(own);
        self.number = u64::from(mark.line());
        if own != file {
            self.included = Some(file);
            self.is_due = true;
            return Ok(());
        }
        self.included = None;
        if self.number > self.line {
            self.line = self.number;
            self.feeds = 0;
        } else if self.feeds > 0 {
            return self.tell(0, b"");
        }
        Ok(())
    }

    // A line that is no mark.
    fn plain(&mut self, line: &[u8]) -> Result<(), AllocError> {
        let Some(file) = self.included else {
            let ends = count(line, b'\n');
            self.line = self.line.saturating_add(ends);
            self.feeds = if ends > 0 {
                0
            } else {
                self.feeds.saturating_add(count(line, FORM_FEED))
            };
            return Ok(());
        };
        if self.is_due {
            self.tell(self.number, file)?;
        }
        // a form feed of its own is counted too, so that the line behind it is told anew
        let own = count(line, FORM_FEED);
        self.is_due = own > 0;
        self.feeds = self
            .feeds
            .saturating_add(own)
            .saturating_add(count(line, b'\n'));
        self.number = self.number.saturating_add(1);
        Ok(())
    }
}

/// A table of the lines of included files in what is prepared of a text: each row has the line there, how many form feeds stand on it before, and
/// the line of the file that goes on from there, with its name.
pub fn lines_of<'t>(alloc: Global, text: &'t [u8]) -> Result<Vec<u8>, AllocError> {
    let mut lines: LineTable<'t> = LineTable::new(alloc);
    let bare = if text.starts_with(b"\xEF\xBB\xBF") {
        &text[3..]
    } else {
        text
    };
    for line in bare.split_inclusive(|byte| *byte == b'\n') {
        match marker_of(line) {
            Some(mark) => lines.mark(&mark)?,
            None => lines.plain(line)?,
        }
    }
    let LineTable { out, .. } = lines;
    Ok(out)
}
