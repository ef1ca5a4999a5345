//! What comes of calls of inlines and of whole texts, by rules. Nothing here is run.
#![tactic(auto)]

ghost use Rattle.inline_laws.specs.Called.{ArgumentsAreDerived, CallsAreDerived, ClosersAreDerived};
ghost use Rattle.inline_laws.specs.Called.{DerivedAreArguments, DerivedAreCalls, DerivedAreClosers};
ghost use Rattle.inline_laws.specs.Defined.{DefinitionsAreAsWritten};
ghost use Rattle.inline_laws.specs.Derived.{DerivedAreAnswered, AnswersAreDerived};
ghost use Rattle.inline_laws.specs.Given.{BodiesAreDerived, DerivedAreBodies};
ghost use Rattle.inline_laws.specs.Expanded.{DerivedAreExpansions, ExpansionsAreDerived};

/// What comes of tokens in which calls are replaced is derived by the rules: a token stays, and a call is replaced by what comes of the
/// inline's body with the arguments for its parameters, read again within the call.
pub fn replacements_are_derived()
    ensures { AnswersAreDerived }
{}

/// Nothing else is derived by the rules: what they derive of tokens is what comes of them.
pub fn nothing_else_is_derived()
    ensures { DerivedAreAnswered }
{}

/// The whole of what comes of a text's tokens is what rules derive, and no other: a token stays, a call outside all others is replaced as above, and a
/// definition outside all braces is taken out and known from there on; no name is defined twice, and the replacements are not too many.
pub fn expansions_are_derived()
    ensures forth { ExpansionsAreDerived }
    ensures back { DerivedAreExpansions }
{}

/// The tokens behind a word `inline` are a definition exactly where they begin with a name, parameters in parentheses and a body in braces, by rules.
pub fn definitions_are_as_written()
    ensures { DefinitionsAreAsWritten }
{}

/// The token that closes a bracket is the one before which all brackets of its kind are balanced, by rules.
pub fn closers_are_derived()
    ensures forth { ClosersAreDerived }
    ensures back { DerivedAreClosers }
{}

/// The arguments of a call are the parts between the commas that stand in no bracket, and none where there is no token, by rules.
pub fn arguments_are_derived()
    ensures forth { ArgumentsAreDerived }
    ensures back { DerivedAreArguments }
{}

/// A name with a `(` behind it calls the first inline of its name that is known, by rules, and no other.
pub fn calls_are_derived()
    ensures forth { CallsAreDerived }
    ensures back { DerivedAreCalls }
{}

/// In the body of an inline a token that names a parameter gives way to the argument at the parameter's place, and each other token stays, by rules.
pub fn bodies_are_derived()
    ensures forth { BodiesAreDerived }
    ensures back { DerivedAreBodies }
{}
