//! A list of objects that is written as a member.

ghost use Rattle.std.specs.Prelude.{◌≡◌, ◌++◌, [], ◌∷◌, ℕ, List, true, false, IfOk, if◌then◌else◌, codes};
ghost use Rattle.json.specs.Token.{Token, begin_object, begin_array, key};
ghost use Rattle.json.specs.Print.{print, print_from, ends_value, ArePrintable};
ghost use Rattle.view_text.specs.Written.{Adds};
ghost use Rattle.view_json.specs.Shown.{Lists, ListsMore, listed};
ghost use Rattle.view_json.specs.Added.{ListsObject, begins_list, AddsList, PrintsList};

use std::alloc::{AllocError, Global};
use view_text::writer::Writer;

/// A text of at most so many bytes is copied behind another.
const MOST_COPIED: usize = 65_536;

// Bytes behind others, in the memory of those behind.
fn behind(before: Vec<u8>, text: Vec<u8>) -> Result<Vec<u8>, AllocError>
    ensures { IfOk result (λ v. v.items ≡ before.items ++ text.items) }
{
    let mut whole = text;
    whole.splice(0..0, before)?;
    Ok(whole)
}

// Writes a text in its own memory.
fn add_moved(text: Writer, out: &mut Writer)
    requires { text.refused ≡ false }
    ensures { Adds out.old out.new text.text }
{
    let mut text = text;
    match behind(out.take(), text.take()) {
        Ok(whole) => out.put(whole, Ok(())),
        Err(error) => out.keep(Err(error)),
    }
}

// Writes a text: a large one in its own memory.
fn add_whole(text: Writer, out: &mut Writer)
    ensures added { Adds out.old out.new text.text }
    ensures refused { text.refused ≡ true → out.new.refused ≡ true }
{
    if text.len() <= MOST_COPIED || text.len() <= out.len() || text.is_refused() {
        out.join(&text);
    } else {
        add_moved(text, out);
    }
}

/// Objects, one behind another.
#[derive(Drop)]
pub struct Listing {
    pub text: Writer,
    pub is_empty: bool,
}

impl Listing {
    /// None yet.
    pub fn new(alloc: Global) -> Listing
        ensures { Lists result [] }
    {
        Listing {
            text: Writer::new(alloc),
            is_empty: true,
        }
    }

    /// The next object is to be written.
    pub fn next(&mut self)
        ensures text { Adds self.old.text self.new.text (if self.old.is_empty then [] else codes ",") }
        ensures some { self.new.is_empty ≡ false }
    {
        if !self.is_empty {
            self.text.add(b",");
        }
        self.is_empty = false;
    }

    /// Writes an object, if it is not the same as before.
    pub fn add_unless(&mut self, is_same: bool, object: &[u8])
        ensures { ListsObject (λ ts. if is_same then [] else ts) object.now self.old self.new }
    {
        if is_same {
            return;
        }
        self.next();
        self.text.add(object);
    }

    /// Writes the member that begins so, if it has an object or is always there.
    pub fn end(&self, heading: &[u8], is_always: bool, out: &mut Writer)
        ensures written { (name : List ℕ) (ts : List Token) → heading.now ≡ begins_list name → Lists self.now ts
            → AddsList is_always name ts out.old out.new }
        ensures printable { (name : List ℕ) (ts : List Token) → Lists self.now ts → PrintsList is_always name ts out.new }
    {
        if self.is_empty && !is_always {
            return;
        }
        out.add(heading);
        out.join(&self.text);
        out.add(b"]");
    }

    /// The same, where the list is not wanted any more.
    pub fn put(self, heading: &[u8], is_always: bool, out: &mut Writer)
        ensures written { (name : List ℕ) (ts : List Token) → heading.now ≡ begins_list name → Lists self ts
            → AddsList is_always name ts out.old out.new }
        ensures printable { (name : List ℕ) (ts : List Token) → Lists self ts → PrintsList is_always name ts out.new }
    {
        if self.is_empty && !is_always {
            return;
        }
        out.add(heading);
        add_whole(self.text, out);
        out.add(b"]");
    }
}
