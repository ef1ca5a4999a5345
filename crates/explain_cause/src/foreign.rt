//! Words and forms of other languages, which people write for what Promela says otherwise.

/// A word or a form that is none here, by what it is meant for.
#[derive(Clone, Copy, PartialEq, Eq)]
pub enum Foreign {
    Loop,
    Cases,
    ElseIf,
    Then,
    EndIf,
    EndLoop,
    Body,
    And,
    Or,
    Not,
    Xor,
    Remainder,
    Quotient,
    To,
    In,
    Print,
    Read,
    Sleep,
    Wait,
    Function,
    Process,
    Constant,
    Variable,
    Record,
    Enumeration,
    Number,
    Truth,
    Byte,
    Text,
    Fraction,
    True,
    False,
    Nothing,
    Continue,
    Exit,
    Lock,
    Include,
    Main,
    Try,
    Spawn,
    Random,
    Message,
    /// A word such as `static`, which a declaration does not have.
    Modifier,
    Skip,
    Assertion,
    Array,
    Parallel,
    Length,
    /// The process itself.
    Own,
    /// The option for all other cases.
    Otherwise,
    /// Waiting for the end of a process.
    Join,
    /// `**`
    Power,
    /// `<>`
    Unequal,
    /// `=>`
    FatArrow,
    /// `:=`
    ColonEquals,
    /// `===`
    ThreeEquals,
    /// `c ? a : b`
    Conditional,
    /// `++x`
    Prefix,
    /// `y = x++`
    Postfix,
    /// `=` within an expression
    Comparison,
    /// `for (i = 0; ..)`
    Counting,
    /// `assert(x, "..")`
    AssertText,
    /// `init()`
    InitParameters,
    /// `chan c [2] { byte }`
    Channel,
    /// `int[5] a`
    Size,
    /// A parameter without a type.
    ParameterType,
    /// `unsigned u`
    Width,
    /// `::` with nothing behind it.
    EmptyOption,
    /// Braces with nothing between them.
    EmptyBody,
    /// A statement outside of all braces.
    Outside,
    /// `timeout(10)`
    TimeoutArgument,
    /// `for (int i : 1 .. 3)`
    LoopType,
    /// `for i in ..`
    LoopParens,
    /// `select (k in 1 .. 4)`
    SelectRange,
    /// `goto again:`
    GotoColon,
    /// `byte a[3][3]`
    TwoSizes,
    /// `active 2 proctype`
    ActiveCount,
    /// `mtype = { "a", "b" }`
    QuotedName,
    /// `v = c ? x`
    ReceivedValue,
    /// `of (byte)`
    ChannelTypes,
    /// `atomic (..)`
    BraceBody,
    /// `else:`
    ElseArrow,
    /// `skip()`
    NoParens,
    /// `x + 1 = 2`
    Target,
    /// `T t = 1`, where `T` is a typedef.
    RecordValue,
    /// `mtype = { a = 1 }`
    NumberedName,
    /// `mtype m = { a, b }`
    NamedMtype,
    /// `for { .. }`
    EndlessLoop,
    /// `select { .. }`
    SelectCases,
    /// `c ! (1, 2)`, `c ! { 1, 2 }`
    MessageFields,
    /// `int *p`, `&x`
    Pointer,
    /// `*/` where no comment is open.
    CommentEnd,
    /// `=<`
    LessEquals,
    /// `=>` between numbers
    GreaterEquals,
    /// `<->`
    Same,
    /// `1: skip`
    LabelName,
    /// `x: int`
    TypeBehind,
    /// `int a[]`
    EmptyBrackets,
    /// `assert(a -> b)`
    Implication,
    /// `active P()`
    ActiveProctype,
    /// `active init`
    ActiveInit,
    /// `c ? int x`
    ReceivedType,
    /// `int a, int b`
    RepeatedType,
    /// `L: int x`
    LabelDeclaration,
    /// `(byte) x`
    Cast,
    /// `printm("..")`
    PrintmText,
    /// `printf(f"..")`
    TextPrefix,
    /// `printf(x)`
    PrintValue,
    /// `printf(".." + x)`
    PrintJoined,
    /// `0x10`
    Digits,
    /// `2x` as a name
    NameBegins,
    /// `my-var` as a name
    NameSigns,
    /// `c.empty()`
    ChannelQuestion,
    /// `x, y = 1, 2`
    TwoAssignments,
    /// `run` alone
    RunName,
    /// A proctype within braces.
    NestedUnit,
    /// `of { int x }`
    ChannelFields,
    /// `of { T }`, where `T` is a typedef.
    ChannelRecord,
    /// `break L`
    BreakLabel,
    /// `pid = 3`
    TypeName,
    /// `int a[1 .. 3]`
    ArrayRange,
    /// A sign that stands outside of all braces, as one that begins a comment.
    OutsideSign,
    /// `a, b, }`
    LastComma,
    /// `= =`
    TwoEquals,
    /// `c ? x && x > 2`
    ReceiveInCondition,
    /// `c ! 1, c ? x`
    TwoMessages,
    /// `x = a{1}`
    Element,
    /// `L x = 1`, where `L` is meant for a label.
    LabelColon,
    /// `(byte a; byte b;)`
    LastSemicolon,
    /// `int x : 8`
    OtherWidth,
    /// `proctype P(chan c of { byte })`
    ChannelParameter,
    /// `c = [1] of { byte }` as a statement
    ChannelAssignment,
    /// `proctype P(byte a[3])`
    ParameterArray,
    /// `proctype P(byte a = 3)`
    ParameterValue,
    /// `for (i : 3)`
    LoopRange,
    /// `printf("..", x, "..")`
    PrintTexts,
    /// `byte x == 5`
    DeclaredEqual,
    /// `byte proctype P()`
    ProctypeType,
    /// `c ? x + 1`
    ReceiveValue,
    /// `else && x > 0`
    ElseCondition,
    /// `len(c > 0)`
    ChannelAlone,
    /// `goto;`
    GotoLabel,
    /// `:: -> x = 1`
    OptionArrow,
    /// `x in 1 .. 3` as a condition
    InRange,
    /// `proctype P() x = 1 }`
    BodyBrace,
    /// `for (i : 1 .. 3) skip`
    LoopBody,
    /// `c ? <x`
    PeekEnd,
    /// `c ? eval x`
    EvalParens,
    /// `len c`
    ChannelParens,
    /// `proctype P(void)`
    NoParameters,
    /// `of { }`
    NoFields,
    /// `/ text` as a statement
    CommentSign,
    /// `set x = 1`
    Setting,
    /// `a[1, 2] = 3`
    TwoIndexes,
    /// `a[] = 1`
    EmptyIndex,
    /// `run P(byte 1)`
    ArgumentType,
    /// `end` as a statement
    Leave,
    /// `byte a[3] = 1, 2, 3`
    ListValue,
    /// `of { byte; byte }`
    FieldComma,
    /// `f() { .. }` outside of all braces
    Headless,
    /// `(printf`
    StatementWord,
    /// `r = { 1, 2 }`, where `r` is of a typedef.
    RecordList,
    /// An option behind the `fi` or the `od` of its statement.
    OptionBehind,
    /// `proctype byte P()`
    ProctypeResult,
    /// `true()`
    ValueParens,
    /// `assert{x == 1}`
    CallParens,
    /// `short int x`
    TwoTypes,
    /// `atomic proctype P()`
    AtomicUnit,
    /// `for (i in 1 .. 3)`
    LoopIn,
    /// `run P(1; 2)`
    ArgumentComma,
    /// `empty()`
    NoChannel,
}
