//! What sets the elements of arrays whose lists have different values, and whether it may.

ghost use Rattle.std.specs.Prelude.{◌≡◌, ◌++◌, IfOk, OnOk};
ghost use Rattle.listed_values.specs.Settings as settings;

use crate::course::{ListCourse, begins};
use crate::lists::{MOST_VALUES, are_same, begins_with, behind_brace, front, next, size_at};
use itoa::Buffer;
use pml_token::token::{Kind, same_kind};
use prepare::stretch::Stretch;
use std::alloc::{AllocError, Global};

// An element gets its value.
fn add_setting(out: &mut Vec<u8>, name: &[u8], value: &[u8], at: u32) -> Result<(), AllocError>
    ensures { OnOk result (out.new.items ≡ out.old.items ++ settings.setting name.now value.now at) }
{
    out.extend_from_slice(name)?;
    out.extend_from_slice(b"[")?;
    let mut digits = Buffer::new();
    out.extend_from_slice(digits.format(at).as_bytes())?;
    out.extend_from_slice(b"] = ")?;
    out.extend_from_slice(value)?;
    out.extend_from_slice(b"; ")
}

// So many elements get their values.
fn add_settings(
    out: &mut Vec<u8>,
    name: &[u8],
    values: &[Stretch<'_>],
    size: u32,
) -> Result<(), AllocError>
    ensures { OnOk result (out.new.items ≡ out.old.items ++ settings.settings name.now values.now size) }
{
    let mut at = 0;
    let mut rest = values;
    while at < size {
        add_setting(out, name, front(rest), at)?;
        rest = next(rest);
        at += 1;
    }
    Ok(())
}

fn is_name(name: &[u8], kind: Kind, token: &[u8]) -> bool
    ensures { result ≡ settings.is_name name.now kind token.now }
{
    same_kind(kind, Kind::Name) && token == name
}

fn declared(count: u32, declares: bool) -> u32
    ensures { result ≡ settings.declared count declares }
{
    if declares {
        count.saturating_add(1).min(2)
    } else {
        count
    }
}

// Whether a declaration that is made before the first step reads the name.
fn is_read(course: ListCourse, declares: bool) -> bool
    ensures { result ≡ settings.is_read course declares }
{
    course.stage.reading.goes_on && (!declares && course.is_early())
}

// Whether a name is declared once, and read in no declaration that is made before the first step.
fn is_alone(name: &[u8], stretches: &[Stretch<'_>]) -> bool
    ensures { result ≡ settings.is_alone name.now stretches.now }
{
    let mut course = ListCourse::start();
    let mut count = 0;
    let mut rest = stretches;
    while let [stretch, back @ ..] = rest {
        let kind = stretch.kind();
        let token = stretch.token();
        let is = is_name(name, kind, token);
        let declares = course.stage.reading.declares(kind);
        if is && is_read(course, declares) {
            return false;
        }
        count = declared(count, is && declares);
        course = course.behind(false, kind, token, back);
        rest = back;
    }
    count == 1
}

// Whether a list of so many values has different ones.
fn is_mixed(count: u32, back: &[Stretch<'_>]) -> bool
    ensures { result ≡ settings.is_mixed count back.now }
{
    count > 0 && !are_same(behind_brace(back))
}

// Whether the elements cannot be set at the first step.
fn is_odd(course: ListCourse, name: &[u8], all: &[Stretch<'_>], back: &[Stretch<'_>]) -> bool
    ensures { result ≡ settings.is_odd course name.now all.now back.now }
{
    let size = size_at(back);
    !(course.is_placed() && (0 < size && size < MOST_VALUES)) || !is_alone(name, all)
}

fn starts_behind(starts: u32, kind: Kind, back: &[Stretch<'_>]) -> u32
    ensures { result ≡ settings.starts_behind starts kind back.now }
{
    if !begins(kind) {
        starts
    } else if begins_with(Kind::OpenBracket, back) {
        2
    } else {
        starts.saturating_add(1).min(2)
    }
}

fn add_settings_at(
    out: &mut Vec<u8>,
    is_mixed: bool,
    name: &[u8],
    back: &[Stretch<'_>],
) -> Result<(), AllocError>
    ensures { OnOk result (out.new.items ≡ out.old.items ++ settings.settings_at is_mixed name.now back.now) }
{
    if is_mixed {
        add_settings(out, name, behind_brace(back), size_at(back))
    } else {
        Ok(())
    }
}

/// What is to be set, in how many processes, and whether something cannot be.
#[derive(Drop)]
pub struct Setup {
    pub set: Vec<u8>,
    pub starts: u32,
    pub is_odd: bool,
}

/// What is to be set of a text.
pub fn setup_of(alloc: Global, stretches: &[Stretch<'_>]) -> Result<Setup, AllocError>
    ensures { IfOk result (λ s. settings.as_setup s.set.items s.starts s.is_odd ≡ settings.setup stretches.now) }
{
    let mut set: Vec<u8> = Vec::new(alloc);
    let mut starts = 0;
    let mut odd = false;
    let mut course = ListCourse::start();
    let mut rest = stretches;
    while let [stretch, back @ ..] = rest {
        let kind = stretch.kind();
        let token = stretch.token();
        let mixed = is_mixed(course.listed(kind, back), back);
        add_settings_at(&mut set, mixed, token, back)?;
        starts = starts_behind(starts, kind, back);
        odd = odd || (mixed && is_odd(course, token, stretches, back));
        course = course.behind(false, kind, token, back);
        rest = back;
    }
    Ok(Setup {
        set,
        starts,
        is_odd: odd,
    })
}

impl Setup {
    /// Whether the first step sets them: one process lives at the start, so nothing is done before its first step.
    pub fn is_set(&self) -> bool
        ensures { result ≡ settings.sets (settings.as_setup self.now.set.items self.now.starts self.now.is_odd) }
    {
        self.set.len() > 0 && (self.starts == 1 && !self.is_odd)
    }
}
