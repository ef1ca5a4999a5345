//! What a move does with a message, known before it is taken.

use crate::offers::offered;
use pml_channel::channel::Channel;
use pml_eval::clip::clip;
use pml_eval::eval::{eval, pattern};
use pml_program::expr::{Expr, Want};
use pml_program::form::Form;
use pml_program::program::{Action, Basic};
use pml_tree::tree::{Removal, Search};
use pml_value::view::View;
use profile::MOST_FIELDS;
use promela_process::sought::Sought;
use promela_run::moves::{Move, Pick};
use run_search::executable::named;
use run_state::live::Live;
use std::alloc::{AllocError, Global};

/// What a move does.
#[derive(Clone, Copy, Debug, PartialEq, Eq)]
pub enum Does {
    /// Nothing with a message.
    Statement,
    Send,
    Receive,
    /// A receive that leaves the message where it is.
    Read,
    /// A rendezvous.
    Pass,
    /// A send whose message is lost.
    Lose,
    /// The death of a process.
    End,
}

/// What a move does, with which channel, by its number, and with which message.
#[derive(Drop)]
pub struct Transfer {
    pub does: Does,
    pub channel: usize,
    pub message: Vec<i32>,
}

fn plain(alloc: Global, does: Does) -> Transfer {
    Transfer {
        does,
        channel: 0,
        message: Vec::new(alloc),
    }
}

// The channel with this number does something with a message, where there is one.
fn with_message(alloc: Global, does: Does, number: i32, message: Option<Vec<i32>>) -> Transfer {
    match message {
        Some(message) => Transfer {
            does,
            channel: number.max(0) as usize,
            message,
        },
        None => plain(alloc, Does::Statement),
    }
}

fn clipped(types: &[Form], at: usize, number: i32) -> i32 {
    match types.get(at) {
        Some(form) => clip(*form, number),
        None => number,
    }
}

// The fields that are sent; none, where one comes to a fault.
fn message_sent(
    alloc: Global,
    view: &View<'_>,
    types: &[Form],
    fields: &[Expr],
) -> Result<Option<Vec<i32>>, AllocError> {
    let mut message = Vec::new(alloc);
    for i in 0..fields.len() {
        match eval(&fields[i], view) {
            Ok(number) => message.push(clipped(types, i, number))?,
            Err(_) => return Ok(None),
        }
    }
    Ok(Some(message))
}

fn does_send(channel: &Channel) -> Does {
    if channel.capacity() == 0 {
        Does::Pass
    } else if channel.len() < usize::from(channel.capacity()) {
        Does::Send
    } else {
        Does::Lose
    }
}

// The message that is found; none, where none matches.
fn message_found(
    alloc: Global,
    channel: &Channel,
    search: Search,
    sought: &[Sought],
) -> Result<Option<Vec<i32>>, AllocError> {
    let place = match search {
        Search::First => Some(0),
        Search::Matching => channel.find(sought),
    };
    let Some(place) = place else {
        return Ok(None);
    };
    if place >= channel.len() {
        return Ok(None);
    }
    let mut message = Vec::new(alloc);
    message.extend_from_slice(channel.message(place))?;
    Ok(Some(message))
}

fn does_receive(removal: Removal) -> Does {
    match removal {
        Removal::Remove => Does::Receive,
        Removal::Keep => Does::Read,
    }
}

fn received(
    alloc: Global,
    view: &View<'_>,
    channel: &Channel,
    search: Search,
    wants: &[Want],
) -> Result<Option<Vec<i32>>, AllocError> {
    if wants.len() > MOST_FIELDS {
        return Ok(None);
    }
    match pattern(wants, view) {
        Ok(sought) => message_found(alloc, channel, search, sought.as_slice()),
        Err(_) => Ok(None),
    }
}

fn of_action(alloc: Global, view: &View<'_>, action: &Action<'_>) -> Result<Transfer, AllocError> {
    match action {
        Action::Send(target, _, fields) => match named(view, target, fields.len()) {
            Ok((number, channel)) => {
                let sent = message_sent(alloc, view, channel.types(), fields.as_slice())?;
                Ok(with_message(alloc, does_send(channel), number, sent))
            }
            Err(_) => Ok(plain(alloc, Does::Statement)),
        },
        Action::Receive(target, search, removal, wants) => {
            match named(view, target, wants.len()) {
                Ok((number, channel)) => {
                    let found = received(alloc, view, channel, *search, wants.as_slice())?;
                    Ok(with_message(alloc, does_receive(*removal), number, found))
                }
                Err(_) => Ok(plain(alloc, Does::Statement)),
            }
        }
        _ => Ok(plain(alloc, Does::Statement)),
    }
}

fn of_basic(
    alloc: Global,
    view: &View<'_>,
    basic: Option<&Basic<'_>>,
) -> Result<Transfer, AllocError> {
    match basic {
        Some(Basic::Plain(action)) => of_action(alloc, view, action),
        _ => Ok(plain(alloc, Does::Statement)),
    }
}

fn of_pick(
    alloc: Global,
    live: &Live<'_, '_>,
    pick: Pick,
    timeout: bool,
) -> Result<Transfer, AllocError> {
    match offered(live, pick, timeout) {
        Some((view, basic)) => of_basic(alloc, &view, basic),
        None => Ok(plain(alloc, Does::Statement)),
    }
}

/// What a move of the present state does.
pub fn transfer_of(alloc: Global, live: &Live<'_, '_>, m: &Move) -> Result<Transfer, AllocError> {
    match m {
        Move::Death(_) => Ok(plain(alloc, Does::End)),
        Move::Alone(pick, timeout) => of_pick(alloc, live, *pick, *timeout),
        Move::Pair(sender, _, timeout) => of_pick(alloc, live, *sender, *timeout),
    }
}
