//! What is told of characters outside of ASCII.

ghost use Rattle.std.specs.Prelude.{OnOk};
ghost use Rattle.explain.specs.Said.{Keeps};

use crate::message::Notice;
use std::alloc::AllocError;
use std::str;

/// Signs that people or their editors write, and what is written for them here.
const SIGNS: [(&str, &str); 34] = [
    ("\u{2264}", "<="),
    ("\u{2265}", ">="),
    ("\u{2260}", "!="),
    ("\u{2261}", "=="),
    ("\u{2227}", "&&"),
    ("\u{2228}", "||"),
    ("\u{ac}", "!"),
    ("\u{d7}", "*"),
    ("\u{f7}", "/"),
    ("\u{2237}", "::"),
    ("\u{2026}", ".."),
    ("\u{2254}", "="),
    ("\u{2192}", "->"),
    ("\u{27f6}", "->"),
    ("\u{21d2}", "->"),
    ("\u{2190}", "="),
    ("\u{2010}", "-"),
    ("\u{2011}", "-"),
    ("\u{2012}", "-"),
    ("\u{2013}", "-"),
    ("\u{2014}", "-"),
    ("\u{2212}", "-"),
    ("\u{ff1a}", ":"),
    ("\u{ff1b}", ";"),
    ("\u{201c}", "\""),
    ("\u{201d}", "\""),
    ("\u{201e}", "\""),
    ("\u{ab}", "\""),
    ("\u{bb}", "\""),
    ("\u{2018}", "\""),
    ("\u{2019}", "\""),
    ("\u{ff08}", "("),
    ("\u{ff09}", ")"),
    ("\u{ff0c}", ","),
];

/// What is written for a sign.
fn written_for(sign: &str) -> Option<&'static str> {
    for (one, written) in &SIGNS {
        if *one == sign {
            return Some(*written);
        }
    }
    None
}

/// Whether a sign is a blank of another width, or one that is not seen.
fn is_blank(sign: &str) -> bool {
    sign == "\u{a0}" || sign == "\u{202f}" || sign == "\u{200b}" || sign == "\u{feff}"
}

/// What is told of a sign that nothing is known of.
pub const ANY: &str = "letters and signs outside of ASCII stand only in strings and comments";

fn of_sign(message: &mut Notice<'_>, sign: &str) -> Result<(), AllocError>
    ensures { OnOk result (Keeps message.old message.new) }
{
    if is_blank(sign) {
        return message.push("this character is no blank of the language: write a blank for it");
    }
    match written_for(sign) {
        Some(written) => {
            message.push(ANY)?;
            message.around(": write ", written.as_bytes(), " for it")
        }
        None => message.push(ANY),
    }
}

/// Of a character outside of ASCII.
pub fn outside_of_ascii(message: &mut Notice<'_>, sign: &[u8]) -> Result<(), AllocError>
    ensures { OnOk result (Keeps message.old message.new) }
{
    match str::from_utf8(sign) {
        Ok(sign) => of_sign(message, sign),
        Err(_) => message.push(ANY),
    }
}
