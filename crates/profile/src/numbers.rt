//! The limits as numbers: definitions cite them by name, and here stands what they are.

ghost use Rattle.std.specs.Prelude.{◌≡◌};
ghost use Rattle.profile.specs.declared.TheConstants.{MOST_TEXT_BYTES, MOST_OPEN, MOST_IN_A_ROW, MOST_CALLS, MOST_REPLACED};
ghost use Rattle.profile.specs.declared.TheConstants.{MOST_CELLS, MOST_PROCESSES, MOST_CHANNELS, MOST_CONSTANTS, MOST_FIELDS};
ghost use Rattle.profile.specs.declared.TheConstants.{MOST_MESSAGES, MOST_BITS, MOST_DSTEP_STATEMENTS, LINE_BYTES, BAD_LINES};

/// Each limit is this number.
pub fn the_limits_are_these()
    ensures bytes_of_a_text { MOST_TEXT_BYTES ≡ 1048576 }
    ensures open_at_once { MOST_OPEN ≡ 100 }
    ensures tokens_in_a_row { MOST_IN_A_ROW ≡ 1000 }
    ensures calls_within_one_another { MOST_CALLS ≡ 100 }
    ensures tokens_in_place_of_calls { MOST_REPLACED ≡ 200000 }
    ensures cells_of_an_owner { MOST_CELLS ≡ 1000000 }
    ensures processes { MOST_PROCESSES ≡ 255 }
    ensures channels { MOST_CHANNELS ≡ 255 }
    ensures names_of_mtype { MOST_CONSTANTS ≡ 255 }
    ensures fields_of_a_message { MOST_FIELDS ≡ 255 }
    ensures messages_of_a_channel { MOST_MESSAGES ≡ 65535 }
    ensures bits_of_an_unsigned { MOST_BITS ≡ 32 }
    ensures statements_of_a_d_step { MOST_DSTEP_STATEMENTS ≡ 10000 }
    ensures bytes_of_a_choice_line { LINE_BYTES ≡ 80 }
    ensures bad_lines_in_a_row { BAD_LINES ≡ 100 }
{}
