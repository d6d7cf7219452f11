// What words mean that are no names: instructions, types and the other reserved words.

ghost use Rattle.std.specs.Prelude.{◌≡◌, bytes_eq};
ghost use Rattle.std.specs.List.{find};
ghost use Rattle.tcl_text.specs.Words as words;

use tcl_lang::{Op, Ty};
use tcl_text::{Keyword, Token, word_of_op};

/// The instructions.
const OPS: [Op; 23] = [
    Op::Mov,
    Op::Add,
    Op::Adds,
    Op::Adc,
    Op::Adcs,
    Op::Sub,
    Op::Subb,
    Op::Sbb,
    Op::Sbbs,
    Op::Mul,
    Op::Mull,
    Op::Mulj,
    Op::Shl,
    Op::Split,
    Op::Join,
    Op::Cast,
    Op::Vpc,
    Op::Cmov,
    Op::And,
    Op::Or,
    Op::Xor,
    Op::Not,
    Op::Nondet,
];

/// The reserved words that are no instruction and no type.
const KEYWORDS: [Keyword; 16] = [
    Keyword::In,
    Keyword::Pre,
    Keyword::Assert,
    Keyword::Assume,
    Keyword::Cut,
    Keyword::Post,
    Keyword::End,
    Keyword::Rng,
    Keyword::Alg,
    Keyword::Mod,
    Keyword::True,
    Keyword::False,
    Keyword::Ecut,
    Keyword::Rcut,
    Keyword::Proc,
    Keyword::Call,
];

/// How a reserved word is written.
fn word_of_keyword(keyword: Keyword) -> &'static str
    ensures { result.now ≡ words.word_of_keyword keyword }
{
    match keyword {
        Keyword::In => "in",
        Keyword::Pre => "pre",
        Keyword::Assert => "assert",
        Keyword::Assume => "assume",
        Keyword::Cut => "cut",
        Keyword::Post => "post",
        Keyword::End => "end",
        Keyword::Rng => "rng",
        Keyword::Alg => "alg",
        Keyword::Mod => "mod",
        Keyword::True => "true",
        Keyword::False => "false",
        Keyword::Ecut => "ecut",
        Keyword::Rcut => "rcut",
        Keyword::Proc => "proc",
        Keyword::Call => "call",
    }
}

/// The bytes are the word of the instruction.
fn is_word_of_op(word: &[u8], op: Op) -> bool
    ensures { result ≡ bytes_eq word.now (words.word_of_op op) }
{
    word == word_of_op(op).as_bytes()
}

/// The bytes are the reserved word.
fn is_word_of_keyword(word: &[u8], keyword: Keyword) -> bool
    ensures { result ≡ bytes_eq word.now (words.word_of_keyword keyword) }
{
    word == word_of_keyword(keyword).as_bytes()
}

/// The first of the instructions that is written so.
fn first_op(word: &[u8], ops: &[Op]) -> Option<Op>
    ensures { result ≡ find (λ op. bytes_eq word.now (words.word_of_op op)) ops.now }
{
    for op in ops {
        if is_word_of_op(word, *op) {
            return Some(*op);
        }
    }
    None
}

/// The first of the reserved words that is written so.
fn first_keyword(word: &[u8], keywords: &[Keyword]) -> Option<Keyword>
    ensures { result ≡ find (λ keyword. bytes_eq word.now (words.word_of_keyword keyword)) keywords.now }
{
    for keyword in keywords {
        if is_word_of_keyword(word, *keyword) {
            return Some(*keyword);
        }
    }
    None
}

/// The instruction that is written so.
fn op_of_word(word: &[u8]) -> Option<Op>
    ensures { result ≡ words.op_of_word word.now }
{
    first_op(word, &OPS)
}

/// The reserved word that is written so.
fn keyword_of_word(word: &[u8]) -> Option<Keyword>
    ensures { result ≡ words.keyword_of_word word.now }
{
    first_keyword(word, &KEYWORDS)
}

/// Whether the types with this first byte are signed.
fn sign_of_byte(byte: u8) -> Option<bool>
    ensures { result ≡ words.sign_of_byte byte }
{
    match byte {
        b'u' => Some(false),
        b's' => Some(true),
        _ => None,
    }
}

/// The type of a width up to 64 bits. A signed one has at least 2.
fn checked_type(sign: Option<bool>, width: u32) -> Option<Ty>
    ensures { result ≡ words.checked_type sign width }
{
    match sign {
        Some(signed) => {
            let least = if signed { 2 } else { 1 };
            if least <= width && width <= 64 {
                Some(Ty { signed, width })
            } else {
                None
            }
        }
        None => None,
    }
}

/// A type whose width has one digit.
fn short_type(sign: u8, digit: u8) -> Option<Ty>
    ensures { result ≡ words.short_type sign digit }
{
    match digit {
        b'1'..=b'9' => checked_type(sign_of_byte(sign), u32::from(digit - b'0')),
        _ => None,
    }
}

/// A type whose width has two digits.
fn long_type(sign: u8, ten: u8, one: u8) -> Option<Ty>
    ensures { result ≡ words.long_type sign ten one }
{
    match (ten, one) {
        (b'1'..=b'9', b'0'..=b'9') => {
            checked_type(
                sign_of_byte(sign),
                10 * u32::from(ten - b'0') + u32::from(one - b'0'),
            )
        }
        _ => None,
    }
}

/// The type that is written so.
fn type_of_word(word: &[u8]) -> Option<Ty>
    ensures { result ≡ words.type_of_word word.now }
{
    if word.len() == 2 {
        short_type(word[0], word[1])
    } else if word.len() == 3 {
        long_type(word[0], word[1], word[2])
    } else {
        None
    }
}

/// None where the word is a name.
#[tactic(auto, unfolding(tcl_text::specs::Words::meaning_of))]
pub(crate) fn meaning_of(word: &[u8]) -> Option<Token>
    ensures { result ≡ words.meaning_of word.now }
{
    match (op_of_word(word), keyword_of_word(word), type_of_word(word)) {
        (Some(op), _, _) => Some(Token::Instruction(op)),
        (None, Some(keyword), _) => Some(Token::Reserved(keyword)),
        (None, None, Some(ty)) => Some(Token::Kind(ty)),
        (None, None, None) => None,
    }
}
