//! Sends and receives that a process takes by itself: what they come to, by what it reads, and then what they leave.

ghost use Rattle.std.specs.Prelude.{◌<◌, ◌≤◌, length};
ghost use Rattle.pml_value.specs.declared.few.TheConstants.{FEW_FIELDS};
ghost use Rattle.run_state.specs.Calls.{sends_by, receives_by};
ghost use Rattle.run_state.specs.Live.{Leads, Keeps};

use crate::live::Live;
use diagnostics::Stop;
use pml_program::expr::{Expr, Target};
use pml_tree::tree::SendOrder;
use pml_value::few::{FEW_FIELDS, FewFields, FewSought};
use pml_value::message::{address_few, addressed};
use pml_value::receive::{Reception, ask_few, asked_at};

impl Live<'_, '_> {
    /// A process sends a message of a few fields by itself.
    fn send_few(
        &mut self,
        process: usize,
        timeout: bool,
        target: &Target,
        order: SendOrder,
        fields: &[Expr],
    ) -> Result<(), Stop>
        requires there { process < length self.old.state.stands }
        requires few { length fields.now ≤ FEW_FIELDS }
        ensures value { Leads (sends_by self.old.state process timeout target.now order fields.now) result self.new.state }
        ensures keeps { Keeps self.old self.new }
    {
        let mut numbers = FewFields::new();
        match address_few(target, fields, &self.view(process, timeout), &mut numbers) {
            Err(fault) => Err(Stop::Fault(fault)),
            Ok(at) => self.put_message(at, order, numbers.as_slice()),
        }
    }

    /// A process sends a message of any number of fields by itself.
    #[inline(never)]
    fn send_many(
        &mut self,
        process: usize,
        timeout: bool,
        target: &Target,
        order: SendOrder,
        fields: &[Expr],
    ) -> Result<(), Stop>
        requires { process < length self.old.state.stands }
        ensures value { Leads (sends_by self.old.state process timeout target.now order fields.now) result self.new.state }
        ensures keeps { Keeps self.old self.new }
    {
        match addressed(target, fields, &self.view(process, timeout)) {
            Err(fault) => Err(Stop::Fault(fault)),
            Ok((at, numbers)) => self.put_message(at, order, numbers.as_slice()),
        }
    }

    /// A process sends a message by itself.
    #[inline(never)]
    pub fn send(
        &mut self,
        process: usize,
        timeout: bool,
        target: &Target,
        order: SendOrder,
        fields: &[Expr],
    ) -> Result<(), Stop>
        requires { process < length self.old.state.stands }
        ensures value { Leads (sends_by self.old.state process timeout target.now order fields.now) result self.new.state }
        ensures keeps { Keeps self.old self.new }
    {
        if fields.len() <= FEW_FIELDS {
            return self.send_few(process, timeout, target, order, fields);
        }
        self.send_many(process, timeout, target, order, fields)
    }

    /// A process receives a message of a few fields by itself.
    fn receive_few(
        &mut self,
        process: usize,
        timeout: bool,
        reception: Reception<'_>,
    ) -> Result<(), Stop>
        requires there { process < length self.old.state.stands }
        requires few { length reception.wants.now ≤ FEW_FIELDS }
        ensures value { Leads (receives_by self.old.state process timeout reception.entry) result self.new.state }
        ensures keeps { Keeps self.old self.new }
    {
        let Reception {
            target,
            search,
            removal,
            wants,
        } = reception;
        let mut sought = FewSought::new();
        match ask_few(target, wants, &self.view(process, timeout), &mut sought) {
            Err(fault) => Err(Stop::Fault(fault)),
            Ok(at) => self.take_message(at, search, removal, sought.as_slice()),
        }
    }

    /// A process receives a message of any number of fields by itself.
    #[inline(never)]
    fn receive_many(
        &mut self,
        process: usize,
        timeout: bool,
        reception: Reception<'_>,
    ) -> Result<(), Stop>
        requires { process < length self.old.state.stands }
        ensures value { Leads (receives_by self.old.state process timeout reception.entry) result self.new.state }
        ensures keeps { Keeps self.old self.new }
    {
        let Reception {
            target,
            search,
            removal,
            wants,
        } = reception;
        match asked_at(target, wants, &self.view(process, timeout)) {
            Err(fault) => Err(Stop::Fault(fault)),
            Ok((at, sought)) => self.take_message(at, search, removal, sought.as_slice()),
        }
    }

    /// A process receives a message by itself.
    #[inline(never)]
    pub fn receive(
        &mut self,
        process: usize,
        timeout: bool,
        reception: Reception<'_>,
    ) -> Result<(), Stop>
        requires { process < length self.old.state.stands }
        ensures value { Leads (receives_by self.old.state process timeout reception.entry) result self.new.state }
        ensures keeps { Keeps self.old self.new }
    {
        if reception.wants.len() <= FEW_FIELDS {
            return self.receive_few(process, timeout, reception);
        }
        self.receive_many(process, timeout, reception)
    }
}
