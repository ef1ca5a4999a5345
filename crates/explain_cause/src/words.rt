//! The words of other languages.

use crate::foreign::Foreign;

/// Words of other languages, by what they are meant for.
const MEANT: [(Foreign, &[u8]); 61] = [
    (Foreign::Loop, b"loop while until repeat forever"),
    (Foreign::Cases, b"case when match switch either choice"),
    (Foreign::ElseIf, b"elif elsif elseif"),
    (Foreign::Then, b"then"),
    (Foreign::EndIf, b"esac endif"),
    (Foreign::EndLoop, b"done wend next enddo endfor endwhile"),
    (Foreign::Body, b"end begin enddef endproc"),
    (Foreign::And, b"and AND And"),
    (Foreign::Or, b"or OR Or"),
    (Foreign::Not, b"not NOT Not"),
    (Foreign::Xor, b"xor"),
    (Foreign::Remainder, b"mod rem"),
    (Foreign::Quotient, b"div"),
    (Foreign::To, b"to from range"),
    (Foreign::In, b"in foreach"),
    (
        Foreign::Print,
        b"log fmt echo cout puts disp cerr endl print write debug output println",
    ),
    (Foreign::Print, b"writeln fprintf display console Println"),
    (Foreign::Read, b"cin read scan input scanf"),
    (Foreign::Sleep, b"sleep delay pause clock after every timer"),
    (Foreign::Wait, b"wait await assume"),
    (
        Foreign::Function,
        b"fn def fun func void macro method function procedure",
    ),
    (Foreign::Process, b"task proc node actor thread process"),
    (
        Foreign::Constant,
        b"const final define constant CONSTANTS CONSTANT",
    ),
    (
        Foreign::Variable,
        b"var let val VAR auto vars variable variables VARIABLES VARIABLE",
    ),
    (Foreign::Record, b"class tuple union struct record"),
    (Foreign::Enumeration, b"enum"),
    (
        Foreign::Number,
        b"i8 Int u16 u32 u64 i16 i32 i64 long uint int8 uint8 Short int16 int32",
    ),
    (
        Foreign::Number,
        b"int64 usize isize number int8_t uint16 uint32 uint64 integer Integer",
    ),
    (
        Foreign::Number,
        b"int16_t int32_t int64_t uint16_t uint32_t",
    ),
    (Foreign::Truth, b"Bool boolean Boolean"),
    (Foreign::Byte, b"u8 char Byte BYTE uint8_t"),
    (Foreign::Text, b"str string String"),
    (Foreign::Fraction, b"f32 f64 real float Float double"),
    (Foreign::True, b"True TRUE"),
    (Foreign::False, b"False FALSE"),
    (Foreign::Nothing, b"nil null NULL None"),
    (Foreign::Continue, b"continue"),
    (
        Foreign::Exit,
        b"exit halt stop quit STOP Stop abort panic terminate",
    ),
    (
        Foreign::Lock,
        b"sem lock mutex unlock acquire release monitor critical synchronized",
    ),
    (Foreign::Lock, b"semaphore"),
    (Foreign::Include, b"using import include package"),
    (Foreign::Main, b"main program"),
    (Foreign::Try, b"try catch throw raise except finally"),
    (
        Foreign::Spawn,
        b"go new fork call exec spawn start async create",
    ),
    (Foreign::Random, b"rand random choose nondet randint"),
    (
        Foreign::Message,
        b"put get send recv push signal notify receive",
    ),
    (
        Foreign::Modifier,
        b"global static extern public signed export private mutable volatile",
    ),
    (Foreign::Modifier, b"register protected"),
    (Foreign::Skip, b"nop pass noop yield"),
    (Foreign::Assertion, b"ensure require assert_eq assertEquals"),
    (Foreign::Array, b"list array vector"),
    (Foreign::Parallel, b"par cobegin parbegin parallel"),
    (Foreign::Length, b"size length sizeof"),
    (Foreign::Own, b"self this"),
    (Foreign::Otherwise, b"default otherwise"),
    (Foreign::Join, b"join"),
    (Foreign::Comparison, b"is"),
    (Foreign::Channel, b"make queue channel mailbox"),
    (Foreign::LabelName, b"label"),
    (Foreign::Setting, b"set"),
    (Foreign::Leave, b"leave"),
];

/// What a word of another language is meant for.
pub fn foreign_word(word: &[u8]) -> Option<Foreign> {
    for (foreign, words) in &MEANT {
        if words.split(|byte| *byte == b' ').any(|one| one == word) {
            return Some(*foreign);
        }
    }
    None
}
