//! Words of the language that may be typed.

/// Words with which a statement or a declaration of a body begins, or an expression.
pub const IN_A_BODY: [&str; 32] = [
    "assert", "atomic", "bit", "bool", "break", "byte", "chan", "d_step", "do", "else", "empty",
    "false", "for", "full", "goto", "if", "int", "len", "mtype", "nempty", "nfull", "pid",
    "printf", "printm", "run", "select", "short", "skip", "timeout", "true", "unless", "unsigned",
];

/// Words with which a unit begins.
pub const OUTSIDE: [&str; 17] = [
    "active", "bit", "bool", "byte", "chan", "hidden", "init", "inline", "int", "local", "mtype",
    "pid", "proctype", "short", "show", "typedef", "unsigned",
];
