//! What a variable keeps of a number.

ghost use Rattle.std.specs.Prelude.{◌≡◌, ◌≤◌, ◌<◌, ◌^◌, true, false, pos, ℤ};
ghost use Rattle.pml_program.specs.declared.form.Form.{Form};
ghost use Rattle.promela_process.specs.Numbers.{bits_of, bits_of_word, is_signed, is_word_signed, residue, signed_part, clipped};
ghost use Rattle.pml_eval.specs.Range.{InBits, IsClip};

use pml_program::form::Form;
use pml_tree::tree::Scalar;

/// What a variable of this type keeps of a number: the one number in the type's range that differs from it by a multiple of
/// 2 ^ n, n its bits. An unsigned type of 32 bits is kept with a sign, and so is one of more, of which no model has any.
#[inline(always)]
pub fn clip(form: Form, v: i32) -> i32
    ensures { result ≡ clipped form v }
{
    if is_small(form, v) {
        return v;
    }
    cut(bits(form), is_signed(form), v)
}

/// Whether a number is in the range of a byte or of an int: most variables are of these two, and most numbers are kept as they are.
#[inline(always)]
#[tactic(auto, unfolding(promela_process::specs::Numbers::bits_of, promela_process::specs::Numbers::is_signed))]
fn is_small(form: Form, v: i32) -> bool
    ensures { result ≡ true → InBits (is_signed form) (bits_of form) v }
{
    match form {
        Form::Plain(Scalar::Byte) => 0 <= v && v < 256,
        Form::Plain(Scalar::Int) => true,
        _ => false,
    }
}

/// What a type of so many bits, with a sign or without, keeps of a number.
#[inline(never)]
fn cut(bits: u32, signed: bool, v: i32) -> i32
    requires narrow { signed ≡ false → bits < 32 }
    requires least { signed ≡ true → 1 ≤ bits }
    requires most { bits ≤ 32 }
    ensures { result ≡ signed_part signed bits (residue bits v) }
{
    if is_in_range(bits, signed, v) {
        return v;
    }
    let whole = modulus(bits);
    let low = i64::from(v).rem_euclid(whole);
    if !signed {
        return low as i32;
    }
    if low < whole / 2 {
        return low as i32;
    }
    (low - whole) as i32
}

/// Whether a number is in the range of so many bits, with a sign or without.
fn is_in_range(bits: u32, signed: bool, v: i32) -> bool
    requires least { signed ≡ true → 1 ≤ bits }
    requires most { bits ≤ 32 }
    ensures { result ≡ true → InBits signed bits v }
{
    let whole = modulus(bits);
    let number = i64::from(v);
    if signed {
        let half = whole / 2;
        -half <= number && number < half
    } else {
        0 <= number && number < whole
    }
}

/// There is one such number, and it is what `clip` answers.
pub fn one_clip()
    ensures there { (form : Form) (v : ℤ) → IsClip form v (clipped form v) }
    ensures only { (form : Form) (v r : ℤ) → IsClip form v r → r ≡ clipped form v }
{}

#[inline(always)]
fn word_bits(word: Scalar) -> u32
    ensures value { result ≡ bits_of_word word }
    ensures narrow { is_word_signed word ≡ false → result < 32 }
    ensures least { is_word_signed word ≡ true → 1 ≤ result }
    ensures most { result ≤ 32 }
{
    match word {
        Scalar::Bit | Scalar::Bool => 1,
        Scalar::Byte | Scalar::Chan | Scalar::Mtype | Scalar::Pid => 8,
        Scalar::Short => 16,
        Scalar::Int => 32,
    }
}

#[inline(always)]
#[tactic(auto, unfolding(promela_process::specs::Numbers::bits_of, promela_process::specs::Numbers::is_signed))]
fn bits(form: Form) -> u32
    ensures value { result ≡ bits_of form }
    ensures narrow { is_signed form ≡ false → result < 32 }
    ensures least { is_signed form ≡ true → 1 ≤ result }
    ensures most { result ≤ 32 }
{
    match form {
        Form::Plain(word) => word_bits(word),
        Form::Unsigned(width) => width.min(32),
        Form::Struct(_) | Form::Unknown => 32,
    }
}

#[inline(always)]
fn is_word_signed(word: Scalar) -> bool
    ensures { result ≡ is_word_signed word }
{
    match word {
        Scalar::Short | Scalar::Int => true,
        _ => false,
    }
}

#[inline(always)]
#[tactic(auto, unfolding(promela_process::specs::Numbers::is_signed))]
fn is_signed(form: Form) -> bool
    ensures { result ≡ is_signed form }
{
    match form {
        Form::Plain(word) => is_word_signed(word),
        Form::Unsigned(width) => width >= 32,
        Form::Struct(_) | Form::Unknown => true,
    }
}

fn modulus(bits: u32) -> i64
    requires { bits ≤ 32 }
    ensures { result ≡ pos (2 ^ bits) }
{
    1i64 << bits
}
