//! Breaks and displays: what a line does with them.

ghost use Rattle.view_text.specs.Written.{Stays};

use crate::told::Told;
use crate::watch::{condition_of, watch_for, watch_of};
use crate::watches::add_worth;
use pml_sim::world::World;
use std::alloc::AllocError;
use view_commands::command::Command;

// Says that no more are kept.
fn add_full(name: &str, told: &mut Told)
    ensures { Stays told.old.out told.new.out }
{
    told.out.add(b"20 are kept at most: ");
    told.out.add(name.as_bytes());
    told.out.add(b" N lets one go\n");
}

// Keeps a break, and shows it.
fn keep_break(world: &World<'_, '_>, text: &str, told: &mut Told) -> Result<(), AllocError>
    ensures { Stays told.old.out told.new.out }
{
    if told.breaks.is_full() {
        add_full("delete", told);
        return Ok(());
    }
    if let Some(watch) = watch_of(world, text, &mut told.out)? {
        let number = told.breaks.keep(watch)?;
        told.out.add(b"break ");
        told.out.number(number);
        told.out.add(b": ");
        told.out.add(text.as_bytes());
        told.out.add(b"\n");
    }
    Ok(())
}

// Keeps an expression that is shown at each question, and shows it.
fn keep_display(world: &World<'_, '_>, text: &str, told: &mut Told) -> Result<(), AllocError>
    ensures { Stays told.old.out told.new.out }
{
    if told.displays.is_full() {
        add_full("undisplay", told);
        return Ok(());
    }
    if let Some(watch) = watch_for(world, text, &mut told.out)? {
        let number = told.displays.keep(watch)?;
        told.out.add(b"display ");
        told.out.number(number);
        told.out.add(b": ");
        print(world, text, told)?;
    }
    Ok(())
}

// Shows what an expression is worth.
fn print(world: &World<'_, '_>, text: &str, told: &mut Told) -> Result<(), AllocError>
    ensures { Stays told.old.out told.new.out }
{
    if let Some(condition) = condition_of(world, text, &mut told.out)? {
        add_worth(world, text.as_bytes(), &condition, &mut told.out);
    }
    Ok(())
}

// Shows the breaks.
fn add_breaks(told: &mut Told)
    ensures { Stays told.old.out told.new.out }
{
    if told.breaks.is_empty() {
        told.out.add(b"no break\n");
    }
    told.breaks.add("break", &mut told.out);
}

// Lets a break go.
fn delete(number: usize, told: &mut Told)
    ensures { Stays told.old.out told.new.out }
{
    if !told.breaks.let_go(number) {
        told.out.add(b"no such break: breaks lists them\n");
    }
}

// Lets what is shown at each question go.
fn undisplay(number: usize, told: &mut Told)
    ensures { Stays told.old.out told.new.out }
{
    if !told.displays.let_go(number) {
        told.out.add(b"no such display\n");
    }
    told.displays.add("display", &mut told.out);
}

/// Does what a command says of breaks and of what is shown, in this state.
pub fn show<'l>(
    world: &World<'_, '_>,
    command: Command<'l>,
    told: &mut Told,
) -> Result<(), AllocError>
    ensures { Stays told.old.out told.new.out }
{
    match command {
        Command::Break(text) => keep_break(world, text, told),
        Command::Display(text) => keep_display(world, text, told),
        Command::Print(text) => print(world, text, told),
        Command::Breaks => {
            add_breaks(told);
            Ok(())
        }
        Command::Delete(number) => {
            delete(number, told);
            Ok(())
        }
        Command::Undisplay(number) => {
            undisplay(number, told);
            Ok(())
        }
        _ => Ok(()),
    }
}
