//! JSON that is written token by token. Want of memory is told once, at the end.

ghost use Rattle.std.specs.Prelude.{◌≡◌, ◌≤◌, ◌++◌, ◌∷◌, [], List, true, false, IfOk, length, ltb, if◌then◌else◌, string_bytes};
ghost use Rattle.std.specs.List.{flat_map};
ghost use Rattle.std.specs.Fmt.{decimal, signed_decimal};
ghost use Rattle.std.specs.Str.{IsUtf8};
ghost use Rattle.json.specs.Token.{Token, begin_object, end_object, begin_array, end_array, key, string, number, boolean, null};
ghost use Rattle.json.specs.Print.{print, ArePrintable};
ghost use Rattle.json.specs.Lex.{tokens};
ghost use Rattle.view_text.specs.Written.{Adds};
ghost use Rattle.view_tokens.specs.Printed.{Writes, mended, string_of};
ghost use Rattle.view_tokens.specs.Printing.{IsToken};

use crate::bare::{are_bare, begins};
use crate::bytes::{add_whole, append, append_quoted, escaped_key, escaped_string};
use itoa::Buffer;
use std::alloc::{AllocError, Global};
use std::marker::Model;
use view_text::writer::Writer;

/// A text of JSON that grows. Where memory is refused, what is written from there on is left out.
#[derive(Drop)]
pub struct Json {
    text: Vec<u8>,
    // whether a value has just ended
    is_behind: bool,
    is_refused: bool,
}

impl Model for Json {
    ghost use Rattle.json.specs.Lex.{tokens};
    ghost use Rattle.view_tokens.specs.Printed.{Printed};

    ghost Value = { Printed };

    ghost view = { λ j. record { tokens = tokens j.text.items; refused = j.is_refused } };

    ghost use Rattle.view_tokens.specs.Printing.{IsPrint};

    ghost invariant = { λ j. IsPrint j.text.items j.is_behind };
}

// The character that stands for a byte.
fn mended(byte: u8) -> char
    ensures { result ≡ (if ltb byte 128 then byte else 65533) }
{
    if byte < 128 {
        char::from(byte)
    } else {
        '\u{fffd}'
    }
}

// Bytes as text: what is no UTF-8 has U+FFFD in the place of each byte above 127.
fn replaced(alloc: Global, bytes: &[u8]) -> Result<String, AllocError>
    ensures { IfOk result (λ t. string_bytes t ≡ flat_map mended bytes.now) }
{
    let mut text = String::new(alloc);
    for byte in bytes {
        text.push(mended(*byte))?;
    }
    Ok(text)
}

impl Json {
    /// Nothing is written yet.
    pub fn new(alloc: Global) -> Json
        ensures { result ≡ record { tokens = []; refused = false } }
    {
        Json {
            text: Vec::new(alloc),
            is_behind: false,
            is_refused: false,
        }
    }

    /// Memory was refused for something that was to be written.
    pub fn refuse(&mut self)
        ensures { self.new ≡ record self.old { refused = true } }
    {
        self.is_refused = true;
    }

    /// Whether memory was refused for something that was to be written.
    pub fn is_refused(&self) -> bool
        ensures { result ≡ self.now.refused }
    {
        self.is_refused
    }

    /// Begins anew, with nothing, in the memory of what was written.
    pub fn clear(&mut self)
        ensures { self.new ≡ record { tokens = []; refused = false } }
    {
        self.text.clear();
        self.is_behind = false;
        self.is_refused = false;
    }

    /// What takes its memory.
    pub fn allocator(&self) -> Global {
        *self.text.allocator()
    }

    // Writes a token that has these bytes.
    fn put(&mut self, bytes: &[u8], begins: bool, ends: bool)
        requires { (t : Token) × IsToken t bytes.now begins ends }
        ensures { (t : Token) → IsToken t bytes.now begins ends → Writes self.old self.new (t ∷ []) }
    {
        if self.is_refused {
            return;
        }
        let comma = self.is_behind & begins;
        match append(&mut self.text, comma, bytes) {
            Ok(()) => self.is_behind = ends,
            Err(_) => self.is_refused = true,
        }
    }

    // Writes a token that has these bytes between a quotation mark and what ends them.
    fn put_quoted(&mut self, bytes: &[u8], close: &[u8], ends: bool)
        requires short { length close.now ≤ 2 }
        requires token { (t : Token) × IsToken t (34 ∷ (bytes.now ++ close.now)) true ends }
        ensures { (t : Token) → IsToken t (34 ∷ (bytes.now ++ close.now)) true ends → Writes self.old self.new (t ∷ []) }
    {
        if self.is_refused {
            return;
        }
        match append_quoted(&mut self.text, self.is_behind, bytes, close) {
            Ok(()) => self.is_behind = ends,
            Err(_) => self.is_refused = true,
        }
    }

    /// Begins an object.
    pub fn begin_object(&mut self)
        ensures { Writes self.old self.new (begin_object ∷ []) }
    {
        self.put(b"{", true, false);
    }

    /// Ends it.
    pub fn end_object(&mut self)
        ensures { Writes self.old self.new (end_object ∷ []) }
    {
        self.put(b"}", false, true);
    }

    /// Begins an array.
    pub fn begin_array(&mut self)
        ensures { Writes self.old self.new (begin_array ∷ []) }
    {
        self.put(b"[", true, false);
    }

    /// Ends it.
    pub fn end_array(&mut self)
        ensures { Writes self.old self.new (end_array ∷ []) }
    {
        self.put(b"]", false, true);
    }

    /// Writes `null`.
    pub fn null(&mut self)
        ensures { Writes self.old self.new (null ∷ []) }
    {
        self.put(b"null", true, true);
    }

    /// Writes `true` or `false`.
    pub fn boolean(&mut self, value: bool)
        ensures { Writes self.old self.new (boolean value ∷ []) }
    {
        if value {
            self.put(b"true", true, true);
        } else {
            self.put(b"false", true, true);
        }
    }

    /// Writes a number.
    pub fn number(&mut self, n: usize)
        ensures { Writes self.old self.new (number (decimal n) ∷ []) }
    {
        let mut digits = Buffer::new();
        self.put(digits.format(n).as_bytes(), true, true);
    }

    /// Writes a number that may be less than 0.
    pub fn signed(&mut self, n: i32)
        ensures { Writes self.old self.new (number (signed_decimal n) ∷ []) }
    {
        let mut digits = Buffer::new();
        self.put(digits.format(n).as_bytes(), true, true);
    }

    // Writes a string, with its escapes.
    fn put_string(&mut self, text: &str)
        ensures { Writes self.old self.new (string text.now ∷ []) }
    {
        match escaped_string(self.allocator(), text) {
            Ok(bytes) => self.put(bytes.as_slice(), true, true),
            Err(_) => self.is_refused = true,
        }
    }

    // Writes a key, with its escapes.
    fn put_key(&mut self, name: &str)
        ensures { Writes self.old self.new (key name.now ∷ []) }
    {
        match escaped_key(self.allocator(), name) {
            Ok(bytes) => self.put(bytes.as_slice(), true, false),
            Err(_) => self.is_refused = true,
        }
    }

    /// Writes a string.
    pub fn string(&mut self, text: &str)
        ensures { Writes self.old self.new (string text.now ∷ []) }
    {
        let bytes = text.as_bytes();
        if are_bare(bytes) {
            self.put_quoted(bytes, b"\"", true);
        } else {
            self.put_string(text);
        }
    }

    /// Writes the name of a member.
    pub fn key(&mut self, name: &str)
        ensures { Writes self.old self.new (key name.now ∷ []) }
    {
        let bytes = name.as_bytes();
        if are_bare(bytes) {
            self.put_quoted(bytes, b"\":", false);
        } else {
            self.put_key(name);
        }
    }

    // Writes bytes that are no UTF-8.
    fn other_text(&mut self, bytes: &[u8])
        ensures { Writes self.old self.new (string (flat_map mended bytes.now) ∷ []) }
    {
        match replaced(self.allocator(), bytes) {
            Ok(text) => self.string(text.as_str()),
            Err(_) => self.is_refused = true,
        }
    }

    // Writes bytes that are no UTF-8 as a key.
    fn other_key(&mut self, bytes: &[u8])
        ensures { Writes self.old self.new (key (flat_map mended bytes.now) ∷ []) }
    {
        match replaced(self.allocator(), bytes) {
            Ok(text) => self.key(text.as_str()),
            Err(_) => self.is_refused = true,
        }
    }

    // Writes bytes as a string, with their escapes.
    #[tactic(auto, using(crate::proofs::Strings::is_string, crate::proofs::Strings::no_string))]
    fn put_text(&mut self, bytes: &[u8])
        ensures { Writes self.old self.new (string (string_of bytes.now) ∷ []) }
    {
        match str::from_utf8(bytes) {
            Ok(text) => self.put_string(text),
            Err(_) => self.other_text(bytes),
        }
    }

    // Writes bytes as a key, with their escapes.
    #[tactic(auto, using(crate::proofs::Strings::is_string, crate::proofs::Strings::no_string))]
    fn put_text_key(&mut self, bytes: &[u8])
        ensures { Writes self.old self.new (key (string_of bytes.now) ∷ []) }
    {
        match str::from_utf8(bytes) {
            Ok(text) => self.put_key(text),
            Err(_) => self.other_key(bytes),
        }
    }

    /// Writes bytes as a string.
    pub fn text(&mut self, bytes: &[u8])
        ensures { Writes self.old self.new (string (string_of bytes.now) ∷ []) }
    {
        if are_bare(bytes) {
            self.put_quoted(bytes, b"\"", true);
        } else {
            self.put_text(bytes);
        }
    }

    /// Writes bytes as a key.
    pub fn text_key(&mut self, bytes: &[u8])
        ensures { Writes self.old self.new (key (string_of bytes.now) ∷ []) }
    {
        if are_bare(bytes) {
            self.put_quoted(bytes, b"\":", false);
        } else {
            self.put_text_key(bytes);
        }
    }

    /// Writes what was written elsewhere; where memory was refused for it, it is refused here.
    pub fn join(&mut self, other: &Json)
        ensures known { (ts : List Token) → (other.now.refused ≡ false → other.now.tokens ≡ ts) → Writes self.old self.new ts }
        ensures refused { other.now.refused ≡ true → self.new.refused ≡ true }
    {
        if self.is_refused || other.is_refused {
            self.is_refused = true;
            return;
        }
        let bytes = other.text.as_slice();
        let comma = self.is_behind & begins(bytes);
        match append(&mut self.text, comma, bytes) {
            Ok(()) => {
                if !bytes.is_empty() {
                    self.is_behind = other.is_behind;
                }
            }
            Err(_) => self.is_refused = true,
        }
    }

    /// Writes what was written, where it is to stand.
    pub fn finish(self, out: &mut Writer)
        ensures written { Adds out.old out.new (print self.tokens) }
        ensures refused { self.refused ≡ true → out.new.refused ≡ true }
        ensures printable { ArePrintable self.tokens }
        ensures reads_back { tokens (print self.tokens) ≡ self.tokens }
        ensures utf8 { IsUtf8 (print self.tokens) }
    {
        let Json {
            text,
            is_refused,
            ..
        } = self;
        add_whole(text, out);
        if is_refused {
            out.refuse();
        }
    }
}
