// A model that is checked and not played.
ghost use Rattle.spinplay_program.specs.Ended.{IsChecked};

use crate::telling::{explain_refusal, tell_line, tell_refused};
use program_files::models::Model;
use spinplay::{Arguments, End, Rejection, checked_of, expanded_of};
use std::alloc::Global;

// What came of a model.
#[derive(Clone, Copy)]
pub enum ModelOutcome {
    // It was played.
    Ended(End),
    // It was checked, and is rejected or not.
    Checked(Option<Rejection>),
}

// Why a text stands for no model, if it does not.
fn rejection_of(alloc: Global, text: &[u8]) -> Option<Rejection>
    ensures { IsChecked text.now result }
{
    let tokens = match expanded_of(alloc, text) {
        Ok(tokens) => tokens,
        Err(rejection) => return Some(rejection),
    };
    match checked_of(alloc, &tokens) {
        Ok(_) => None,
        Err(rejection) => Some(rejection),
    }
}

// Says why a text is rejected.
fn tell_rejection(rt: &HostRuntime, asked: &Arguments, model: &Model, rejection: Rejection) {
    match rejection {
        Rejection::Memory => {
            let _ = eprintln!(rt; "spinplay: out of memory");
        }
        Rejection::Refused(refusal, line) => {
            tell_refused(rt, refusal);
            tell_line(rt, refusal, line);
            if asked.explain {
                explain_refusal(rt, asked, model, refusal);
            }
        }
    }
}

/// Checks the text of a model, and says why it stands for none, if it does not.
pub fn check_model(rt: &HostRuntime, asked: &Arguments, model: &Model) -> Option<Rejection>
    ensures { IsChecked model.now.bytes.items result }
{
    let rejection = rejection_of(rt.alloc(), model.bytes.as_slice());
    if let Some(rejection) = rejection {
        tell_rejection(rt, asked, model, rejection);
    }
    rejection
}
