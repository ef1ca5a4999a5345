//! Messages that are still to be sent.

ghost use Rattle.std.specs.Prelude.{◌≡◌, ◌+◌, ◌≤◌, length, OnOk};

use crate::replies::{event, refusal, reply};
use serde_json::{Value, json};
use std::alloc::{AllocError, Global};
use std::marker::Model;

/// Messages that are still to be sent, in their order, each with a number of its own. Contracts see how many there are.
#[derive(Drop)]
pub struct Outbox {
    sent: u64,
    messages: Vec<Value>,
}

impl Model for Outbox {
    ghost use Rattle.std.specs.Prelude.{ℕ, length};

    ghost Value = { ℕ };

    ghost view = { λ o. length o.messages.items };
}

impl Outbox {
    /// None is sent yet.
    pub fn new(alloc: Global) -> Outbox
        ensures { result ≡ 0 }
    {
        Outbox {
            sent: 0,
            messages: Vec::new(alloc),
        }
    }

    /// What takes its memory.
    pub fn allocator(&self) -> Global {
        *self.messages.allocator()
    }

    fn next(&mut self) -> u64
        ensures { self.new ≡ self.old }
    {
        self.sent = self.sent.saturating_add(1);
        self.sent
    }

    /// A request is answered.
    pub fn reply(&mut self, request: &Value, body: Value) -> Result<(), AllocError>
        ensures one { OnOk result (self.new ≡ self.old + 1) }
        ensures stays { self.old ≤ self.new }
    {
        let seq = self.next();
        let message = reply(self.allocator(), seq, request, body)?;
        self.messages.push(message)?;
        Ok(())
    }

    /// A request is not answered, for a reason.
    pub fn refuse(&mut self, request: &Value, why: &str) -> Result<(), AllocError>
        ensures one { OnOk result (self.new ≡ self.old + 1) }
        ensures stays { self.old ≤ self.new }
    {
        let seq = self.next();
        let message = refusal(self.allocator(), seq, request, why)?;
        self.messages.push(message)?;
        Ok(())
    }

    /// Something has happened.
    pub fn event(&mut self, name: &str, body: Value) -> Result<(), AllocError>
        ensures one { OnOk result (self.new ≡ self.old + 1) }
        ensures stays { self.old ≤ self.new }
    {
        let seq = self.next();
        let message = event(self.allocator(), seq, name, body)?;
        self.messages.push(message)?;
        Ok(())
    }

    /// Something is to be shown on the console, or was printed by the model.
    pub fn output(&mut self, category: &str, text: &str) -> Result<(), AllocError>
        ensures { self.old ≤ self.new }
    {
        if text.is_empty() {
            return Ok(());
        }
        let body = json!(in self.allocator(); {"category": category, "output": text})?;
        self.event("output", body)
    }

    /// The messages, which are sent then.
    pub fn take(&mut self) -> Vec<Value>
        ensures all { length result.items ≡ self.old }
        ensures none { self.new ≡ 0 }
    {
        let none = Vec::new(self.allocator());
        std::mem::replace(&mut self.messages, none)
    }
}
