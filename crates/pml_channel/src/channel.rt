//! A channel: messages in order, never more than its capacity.

ghost use Rattle.std.specs.Prelude.{◌≡◌, ◌+◌, ◌*◌, ◌<◌, ◌≤◌, ◌++◌, ◌∷◌, List, ℤ, [], length, take, drop, vec_len, IfSome, OnOk, OnErr, remove, slice_get, Some};
ghost use Rattle.std.specs.List.{position_from};
ghost use Rattle.promela_process.specs.Expressions.{matched};
ghost use Rattle.promela_process.specs.Store.{cut, sorted_in, is_greater};
ghost use Rattle.pml_channel.specs.Laid.{Belongs, MovesLast, rotated, numbers_in};

use pml_eval::clip::clip;
use pml_eval::pattern::matches;
use pml_program::form::Form;
use promela_process::sought::Sought;
use sqlite_items::Items;
use std::alloc::{AllocError, Global};
use std::marker::Model;

/// A channel. The messages are numbers one behind another, the oldest first: a send takes memory only where the vector grows, and
/// to take out the oldest moves none of the others.
#[derive(Drop)]
pub struct Channel {
    capacity: u16,
    types: Items<Form>,
    /// The fields of the messages, behind those of messages that are gone.
    numbers: Vec<i32>,
    /// Where the oldest message begins.
    start: usize,
    count: usize,
}

impl Model for Channel {
    ghost use Rattle.std.specs.Prelude.{drop, length};
    ghost use Rattle.promela_process.specs.Store.{ChannelState};
    ghost use Rattle.pml_channel.specs.Laid.{IsLaid, messages_in};

    ghost Value = { ChannelState };

    ghost view = { λ c. record { capacity = c.capacity; types = c.types; messages = messages_in c.count (length c.types) (drop c.start c.numbers.items) } };

    ghost invariant = { λ c. IsLaid c.capacity (length c.types) c.count c.start c.numbers.items };
}

impl Channel {
    /// An empty channel.
    pub fn new(alloc: Global, capacity: u16, types: Items<Form>) -> Channel
        ensures { result ≡ record { capacity = capacity; types = types; messages = [] } }
    {
        Channel {
            capacity,
            types,
            numbers: Vec::new(alloc),
            start: 0,
            count: 0,
        }
    }

    /// How many messages it holds at most.
    pub fn capacity(&self) -> u16
        ensures { result ≡ self.now.capacity }
    {
        self.capacity
    }

    /// How many messages it holds.
    pub fn len(&self) -> usize
        ensures value { result ≡ length self.now.messages }
        ensures few { length self.now.messages ≤ self.now.capacity }
    {
        self.count
    }

    /// How many numbers its messages have.
    pub fn numbers(&self) -> usize
        ensures value { result ≡ numbers_in self.now.messages }
        ensures few { result ≤ self.now.capacity * length self.now.types }
    {
        self.numbers.len() - self.start
    }

    /// The types of its fields.
    pub fn types(&self) -> &[Form]
        ensures { result.now ≡ self.now.types }
    {
        self.types.as_slice()
    }

    /// The fields of a message, the oldest at place 0.
    pub fn message(&self, place: usize) -> &[i32]
        requires { place < length self.now.messages }
        ensures value { slice_get self.now.messages place ≡ Some result.now }
        ensures arity { length result.now ≡ length self.now.types }
    {
        let fields = self.types.len();
        message_in(self.numbers.as_slice(), self.start, place, fields)
    }

    /// Puts a message at the end, each field cut to its type. Want of memory changes nothing.
    pub fn send(&mut self, fields: &[i32]) -> Result<(), AllocError>
        requires room { length self.old.messages < self.old.capacity }
        requires arity { length fields.now ≡ length self.old.types }
        ensures ok { OnOk result (self.new
            ≡ record self.old { messages = self.old.messages ++ cut self.old.types fields.now ∷ [] }) }
        ensures err { OnErr result (self.new ≡ self.old) }
    {
        self.reclaim();
        append(&mut self.numbers, self.types.as_slice(), fields)?;
        self.count += 1;
        Ok(())
    }

    /// Takes back the numbers of messages that are gone, where they are as many as those of the others: so a message is moved as
    /// often as one goes, at most.
    fn reclaim(&mut self)
        ensures { self.new ≡ self.old }
    {
        let held = self.numbers.len() - self.start;
        if self.start < held {
            return;
        }
        let end = self.numbers.len();
        rotate(&mut self.numbers, 0, end, held);
        self.numbers.truncate(held);
        self.start = 0;
    }

    /// Puts a message right before the first that is greater, or else at the end. Want of memory changes nothing.
    pub fn send_sorted(&mut self, fields: &[i32]) -> Result<(), AllocError>
        requires room { length self.old.messages < self.old.capacity }
        requires arity { length fields.now ≡ length self.old.types }
        ensures ok { OnOk result (self.new
            ≡ record self.old { messages = sorted_in (cut self.old.types fields.now) self.old.messages }) }
        ensures err { OnErr result (self.new ≡ self.old) }
    {
        self.send(fields)?;
        let at = self.place_of_last();
        self.move_last(at);
        Ok(())
    }

    /// Where the last message belongs among the others, if they are in order: right before the first that is greater.
    fn place_of_last(&self) -> usize
        requires { 0 < length self.now.messages }
        ensures { (others : List (List ℤ)) (last : List ℤ) → self.now.messages ≡ others ++ last ∷ []
            → Belongs result last others }
    {
        let others = self.len() - 1;
        for place in 0..others {
            if greater(self.message(place), self.message(others)) {
                return place;
            }
        }
        others
    }

    /// Moves the last message to a place.
    fn move_last(&mut self, place: usize)
        requires { place < length self.old.messages }
        ensures { MovesLast place self.old self.new }
    {
        let fields = self.types.len();
        let from = end_of(self.numbers.as_slice(), self.start, place, fields) - fields;
        let end = self.numbers.len();
        rotate(&mut self.numbers, from, end, fields);
    }

    /// The least place whose message matches.
    pub fn find(&self, sought: &[Sought]) -> Option<usize>
        ensures value { result ≡ position_from (matched sought.now) 0 self.now.messages }
        ensures within { IfSome result (λ n. n < length self.now.messages) }
    {
        for place in 0..self.len() {
            if matches(sought, self.message(place)) {
                return Some(place);
            }
        }
        None
    }

    /// Removes a message: those before it are moved.
    pub fn take(&mut self, place: usize)
        requires { place < length self.old.messages }
        ensures { self.new ≡ record self.old { messages = remove self.old.messages place } }
    {
        let fields = self.types.len();
        let end = end_of(self.numbers.as_slice(), self.start, place, fields);
        rotate(&mut self.numbers, self.start, end, fields);
        self.start += fields;
        self.count -= 1;
    }
}

/// Where a message ends, among numbers that hold it.
fn end_of(numbers: &[i32], start: usize, place: usize, fields: usize) -> usize
    requires { start + place * fields + fields ≤ length numbers.now }
    ensures { result ≡ start + place * fields + fields }
{
    start + place * fields + fields
}

/// The fields of a message, among numbers that hold it.
fn message_in(numbers: &[i32], start: usize, place: usize, fields: usize) -> &[i32]
    requires { start + place * fields + fields ≤ length numbers.now }
    ensures { result.now ≡ take fields (drop (start + place * fields) numbers.now) }
{
    let end = end_of(numbers, start, place, fields);
    &numbers[end - fields..end]
}

/// Appends the fields of a message, each cut to its type. Want of memory changes nothing.
fn append(numbers: &mut Vec<i32>, types: &[Form], fields: &[i32]) -> Result<(), AllocError>
    requires { length fields.now ≡ length types.now }
    ensures ok { OnOk result (numbers.new.items ≡ numbers.old.items ++ cut types.now fields.now) }
    ensures err { OnErr result (numbers.new.items ≡ numbers.old.items) }
{
    let before = numbers.len();
    for i in 0..types.len() {
        if numbers.push(clip(types[i], fields[i])).is_err() {
            numbers.truncate(before);
            return Err(AllocError);
        }
    }
    Ok(())
}

/// Puts the last `by` numbers of a part before the others of it.
fn rotate(numbers: &mut Vec<i32>, from: usize, end: usize, by: usize)
    requires order { from + by ≤ end }
    requires within { end ≤ vec_len numbers.old }
    ensures { numbers.new.items ≡ rotated from end by numbers.old.items }
{
    numbers.as_mut_slice()[from..end].rotate_right(by);
}

/// Whether `a` is greater than `b`, by the first field in which they differ.
fn greater(a: &[i32], b: &[i32]) -> bool
    requires { length a.now ≡ length b.now }
    ensures { result ≡ is_greater a.now b.now }
{
    for i in 0..a.len() {
        if a[i] != b[i] {
            return a[i] > b[i];
        }
    }
    false
}
