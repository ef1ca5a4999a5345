// An interactive simulator of Promela models: plays the text of a model over a source of choices and two sinks, and reads
// its command line. For other front ends it offers the machine that it plays: the text's tokens, their tree, the checked model and
// its world, whose moves are taken one by one.
#![tactic(auto)]

pub mod values;

pub use command_line::{Arguments, arguments};
pub use devices::{
    ByteReader, Devices, Either, Failed, Failures, Next, Nowhere, PieceWriter, Sink, Source,
    ThreeDevices,
};
pub use diagnostics::{Fault, Refusal, Stop};
pub use explain::{AuthorSource as Prepared, explain, explain_beside, included_file, shown_file};
pub use pml_check::{CheckFault, Checked, check};
pub use pml_inline::expand;
pub use pml_lex::cut;
pub use pml_lex::fault::LexError;
pub use pml_play::{Rejection, checked_of, convert, expanded_of, play, world_of};
pub use pml_sim::ending::Ending;
pub use pml_sim::world::World;
pub use pml_syntax::{SyntaxError, parse};
pub use pml_token::token::{Kind, Token};
pub use pml_tree::tree::Tree;
pub use promela_process::place::Place;
pub use promela_run::halt::Halt;
pub use promela_run::moves::{Move, Pick};
pub use promela_text::inline_fault::InlineError;
pub use promela_text::misuse::{Limit, Misuse, Rule};
pub use run_values::changed::Change;
pub use session::{Cause, Conversion, End, Machine, Options, Report};
pub use streams::followed::FollowedReader;
pub use streams::heard::Heard;
pub use streams::over::{PlayedSession, Streams, convert_over, play_over, session_over};
