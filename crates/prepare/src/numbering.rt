//! Puts the lines of a text where its markers say.

ghost use Rattle.std.specs.Prelude.{◌≡◌, ◌≤◌, ◌<◌, ◌+◌, ◌-◌, ◌++◌, max, length, map, replicate, count_by, IfOk, OnOk};
ghost use Rattle.profile.specs.Characters.{line_feed};
ghost use Rattle.promela_text.specs.Tokens.{is_line_feed};
ghost use Rattle.prepare.specs.Markers.{marker};
ghost use Rattle.prepare.specs.Numbering as numbering;

use crate::markers::{MOST_LINE, marker_of};
use crate::{FORM_FEED, MOST_BYTES};
use pml_lex::lexeme::line_bytes;
use std::alloc::{AllocError, Global};
use std::marker::Model;

/// Where the next line of a text goes.
#[derive(Drop)]
struct Standing<'t> {
    is_named: bool,
    own: &'t [u8],
    is_own: bool,
    line: u32,
}

impl<'t> Model for Standing<'t> {
    ghost use Rattle.prepare.specs.Standing.{Standing as Seen};

    ghost Value = { Seen };

    ghost view = { λ s. record { is_named = s.is_named; own = s.own.now; is_own = s.is_own; line = s.line } };
}

fn line_length(text: &[u8]) -> usize
    ensures value { result ≡ numbering.line_length text.now }
    ensures within { result ≤ length text.now }
{
    (line_bytes(text) + 1).min(text.len())
}

fn feeds(text: &[u8]) -> u32
    requires { length text.now ≤ MOST_BYTES }
    ensures count { result ≡ count_by is_line_feed text.now }
    ensures few { result ≤ length text.now }
{
    let mut count = 0;
    for b in text {
        if *b == b'\n' {
            count += 1;
        }
    }
    count
}

fn add_feeds(out: &mut Vec<u8>, count: u32) -> Result<(), AllocError>
    ensures { OnOk result (out.new.items ≡ out.old.items ++ replicate count line_feed) }
{
    for i in 0..count {
        let _ = i;
        out.push(b'\n')?;
    }
    Ok(())
}

fn add_included(out: &mut Vec<u8>, line: &[u8]) -> Result<(), AllocError>
    ensures { OnOk result (out.new.items ≡ out.old.items ++ map numbering.included line.now) }
{
    for b in line {
        out.push(if *b == b'\n' { FORM_FEED } else { *b })?;
    }
    Ok(())
}

impl<'t> Standing<'t> {
    fn start() -> Standing<'t>
        ensures { result ≡ numbering.first_standing }
    {
        Standing {
            is_named: false,
            own: b"",
            is_own: true,
            line: 1,
        }
    }

    fn own_file(&self, file: &'t [u8]) -> &'t [u8]
        ensures { result.now ≡ numbering.own_file self.now file.now }
    {
        if self.is_named { self.own } else { file }
    }

    fn is_own_file(&self, file: &'t [u8]) -> bool
        ensures { result ≡ numbering.is_own_file self.now file.now }
    {
        self.own_file(file) == file
    }

    /// Writes what a line of the text gives.
    fn add(&self, out: &mut Vec<u8>, line: &'t [u8]) -> Result<(), AllocError>
        ensures { OnOk result (out.new.items ≡ out.old.items ++ numbering.placed self.now (marker line.now) line.now) }
    {
        match marker_of(line) {
            Some(marker) => {
                if self.is_own_file(marker.file()) {
                    add_feeds(out, marker.line().saturating_sub(self.line))
                } else {
                    Ok(())
                }
            }
            None => {
                if self.is_own {
                    out.extend_from_slice(line)
                } else {
                    add_included(out, line)
                }
            }
        }
    }

    /// Where the line behind this one goes.
    fn behind(&self, line: &'t [u8]) -> Standing<'t>
        requires few { length line.now ≤ MOST_BYTES }
        requires low { self.now.line ≤ 1000000000 }
        ensures value { result ≡ numbering.standing_behind self.now (marker line.now) line.now }
        ensures most { result.line ≤ max (self.now.line + length line.now) MOST_LINE }
    {
        match marker_of(line) {
            Some(marker) => {
                let is_own = self.is_own_file(marker.file());
                Standing {
                    is_named: true,
                    own: self.own_file(marker.file()),
                    is_own,
                    line: if is_own {
                        self.line.max(marker.line())
                    } else {
                        self.line
                    },
                }
            }
            None => Standing {
                is_named: self.is_named,
                own: self.own,
                is_own: self.is_own,
                line: if self.is_own {
                    self.line + feeds(line)
                } else {
                    self.line
                },
            },
        }
    }
}

/// A text without its byte order mark.
fn bare(text: &[u8]) -> &[u8]
    ensures value { result.now ≡ numbering.bare text.now }
    ensures within { length result.now ≤ length text.now }
{
    if text.starts_with(b"\xEF\xBB\xBF") {
        &text[3..]
    } else {
        text
    }
}

/// The lines of a text, put where its markers say.
///
/// The lines of the model's own file, which the first marker names, stand on their numbers; blank lines fill. What is of another file
/// stands on the line of its `#include`, where a form feed ends each of its lines. A byte order mark goes, and so do the markers.
pub fn numbered(alloc: Global, text: &[u8]) -> Result<Vec<u8>, AllocError>
    requires { length text.now ≤ MOST_BYTES }
    ensures { IfOk result (λ v. v.items ≡ numbering.numbered (numbering.bare text.now)) }
{
    let mut out = Vec::new(alloc);
    let mut standing = Standing::start();
    let mut rest = bare(text);
    while !rest.is_empty() {
        let (line, back) = rest.split_at(line_length(rest));
        standing.add(&mut out, line)?;
        standing = standing.behind(line);
        rest = back;
    }
    Ok(out)
}
