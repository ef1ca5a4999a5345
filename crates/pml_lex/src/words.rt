//! The kinds of words and signs.

ghost use Rattle.std.specs.Prelude.{◌≡◌, map, None, unwrap_or};
ghost use Rattle.promela_text.specs.Tables as tables;
ghost use Rattle.pml_lex.specs.Scanning as scan;

use pml_token::token::Kind;

const OF_2: [(&[u8], Kind); 7] = [
    (b"do", Kind::Do),
    (b"fi", Kind::Fi),
    (b"if", Kind::If),
    (b"od", Kind::Od),
    (b"of", Kind::Of),
    (b"xr", Kind::Xr),
    (b"xs", Kind::Xs),
];

const OF_3: [(&[u8], Kind); 8] = [
    (b"bit", Kind::Bit),
    (b"for", Kind::For),
    (b"int", Kind::Int),
    (b"len", Kind::Len),
    (b"pid", Kind::Pid),
    (b"run", Kind::Run),
    (b"ltl", Kind::LeftOut),
    (b"np_", Kind::LeftOut),
];

const OF_4: [(&[u8], Kind); 11] = [
    (b"bool", Kind::Bool),
    (b"byte", Kind::Byte),
    (b"chan", Kind::Chan),
    (b"else", Kind::Else),
    (b"eval", Kind::Eval),
    (b"full", Kind::Full),
    (b"goto", Kind::Goto),
    (b"init", Kind::Init),
    (b"show", Kind::Show),
    (b"skip", Kind::Skip),
    (b"true", Kind::True),
];

const OF_5: [(&[u8], Kind); 11] = [
    (b"break", Kind::Break),
    (b"empty", Kind::Empty),
    (b"false", Kind::False),
    (b"local", Kind::Local),
    (b"mtype", Kind::Mtype),
    (b"nfull", Kind::Nfull),
    (b"short", Kind::Short),
    (b"never", Kind::LeftOut),
    (b"trace", Kind::LeftOut),
    (b"_last", Kind::LeftOut),
    (b"STDIN", Kind::LeftOut),
];

const OF_6: [(&[u8], Kind); 15] = [
    (b"active", Kind::Active),
    (b"assert", Kind::Assert),
    (b"atomic", Kind::Atomic),
    (b"d_step", Kind::DStep),
    (b"hidden", Kind::Hidden),
    (b"inline", Kind::Inline),
    (b"nempty", Kind::Nempty),
    (b"printf", Kind::Printf),
    (b"printm", Kind::Printm),
    (b"select", Kind::Select),
    (b"unless", Kind::Unless),
    (b"return", Kind::LeftOut),
    (b"c_code", Kind::LeftOut),
    (b"c_decl", Kind::LeftOut),
    (b"c_expr", Kind::LeftOut),
];

const OF_7: [(&[u8], Kind); 6] = [
    (b"timeout", Kind::Timeout),
    (b"typedef", Kind::Typedef),
    (b"notrace", Kind::LeftOut),
    (b"enabled", Kind::LeftOut),
    (b"c_state", Kind::LeftOut),
    (b"c_track", Kind::LeftOut),
];

const OF_8: [(&[u8], Kind); 5] = [
    (b"proctype", Kind::Proctype),
    (b"unsigned", Kind::Unsigned),
    (b"pc_value", Kind::LeftOut),
    (b"provided", Kind::LeftOut),
    (b"priority", Kind::LeftOut),
];

const OF_10: [(&[u8], Kind); 1] = [(b"D_proctype", Kind::LeftOut)];

const OF_12: [(&[u8], Kind); 2] = [
    (b"get_priority", Kind::LeftOut),
    (b"set_priority", Kind::LeftOut),
];

fn lookup(mut table: &[(&[u8], Kind)], word: &[u8]) -> Kind
    ensures { result ≡ unwrap_or (tables.lookup (map (λ k. (k.0.now, k.1)) table.entry.now) word.now) Kind.Name }
{
    while let [entry, rest @ ..] = table {
        if entry.0 == word {
            return entry.1;
        }
        table = rest;
    }
    Kind::Name
}

/// The kind of a word. The tables are by length, so few rows are compared.
pub(crate) fn word_kind(word: &[u8]) -> Kind
    ensures { result ≡ tables.word_kind word.now }
{
    match word.len() {
        2 => lookup(&OF_2, word),
        3 => lookup(&OF_3, word),
        4 => lookup(&OF_4, word),
        5 => lookup(&OF_5, word),
        6 => lookup(&OF_6, word),
        7 => lookup(&OF_7, word),
        8 => lookup(&OF_8, word),
        10 => lookup(&OF_10, word),
        12 => lookup(&OF_12, word),
        _ => Kind::Name,
    }
}

pub(crate) fn sign_of_two(a: u8, b: u8) -> Option<Kind>
    ensures { result ≡ scan.sign_of_two a b }
{
    match (a, b) {
        (b'-', b'>') => Some(Kind::Arrow),
        (b':', b':') => Some(Kind::DoubleColon),
        (b'.', b'.') => Some(Kind::DotDot),
        (b'+', b'+') => Some(Kind::Increment),
        (b'-', b'-') => Some(Kind::Decrement),
        (b'<', b'<') => Some(Kind::ShiftLeft),
        (b'>', b'>') => Some(Kind::ShiftRight),
        (b'<', b'=') => Some(Kind::AtMost),
        (b'>', b'=') => Some(Kind::AtLeast),
        (b'=', b'=') => Some(Kind::Equal),
        (b'!', b'=') => Some(Kind::Unequal),
        (b'&', b'&') => Some(Kind::AndAnd),
        (b'|', b'|') => Some(Kind::OrOr),
        (b'!', b'!') => Some(Kind::BangBang),
        (b'?', b'?') => Some(Kind::QueryQuery),
        _ => None,
    }
}

pub(crate) fn sign_of_one(a: u8) -> Option<Kind>
    ensures { result ≡ scan.sign_of_one a }
{
    match a {
        b'(' => Some(Kind::OpenParen),
        b')' => Some(Kind::CloseParen),
        b'[' => Some(Kind::OpenBracket),
        b']' => Some(Kind::CloseBracket),
        b'{' => Some(Kind::OpenBrace),
        b'}' => Some(Kind::CloseBrace),
        b',' => Some(Kind::Comma),
        b';' => Some(Kind::Semicolon),
        b':' => Some(Kind::Colon),
        b'.' => Some(Kind::Dot),
        b'+' => Some(Kind::Plus),
        b'-' => Some(Kind::Minus),
        b'*' => Some(Kind::Star),
        b'/' => Some(Kind::Slash),
        b'%' => Some(Kind::Percent),
        b'&' => Some(Kind::Ampersand),
        b'|' => Some(Kind::Bar),
        b'^' => Some(Kind::Caret),
        b'~' => Some(Kind::Tilde),
        b'!' => Some(Kind::Bang),
        b'<' => Some(Kind::Less),
        b'>' => Some(Kind::Greater),
        b'=' => Some(Kind::Assign),
        b'?' => Some(Kind::Query),
        b'@' => Some(Kind::LeftOut),
        b'\'' => Some(Kind::LeftOut),
        _ => None,
    }
}
