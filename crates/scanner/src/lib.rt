// The words of a text, read one after another.

#![tactic(auto)]

ghost use Rattle.std.specs.Prelude.{◌≡◌, false, ◌≤◌, ◌<◌, eqb, length, get_or};
ghost use Rattle.std.specs.List.{prefix_len};
ghost use Rattle.grammar.specs.Words.{is_letter_or_digit, times_in};
ghost use Rattle.grammar.specs.Tokens.{token_among, fixed_words, token_of};
ghost use Rattle.grammar.specs.Held.{held, Scanned};
ghost use Rattle.scanner.specs.Scanning.{is_space, numeral_of, WordLength};

use grammar::{Token, Word};

// The words with a meaning of their own.
static WORDS: [(&[u8], Token); 22] = [
    (b"true", Token::True),
    (b"false", Token::False),
    (b"div", Token::Div),
    (b"mod", Token::Mod),
    (b"if", Token::If),
    (b"then", Token::Then),
    (b"else", Token::Else),
    (b"not", Token::Not),
    (b"and", Token::And),
    (b"or", Token::Or),
    (b"(", Token::Open),
    (b")", Token::Close),
    (b",", Token::Comma),
    (b"+", Token::Plus),
    (b"-", Token::Minus),
    (b"*", Token::Times),
    (b"==", Token::Equal),
    (b"!=", Token::Unequal),
    (b"<", Token::Less),
    (b"<=", Token::LessOrEqual),
    (b">", Token::Greater),
    (b">=", Token::GreaterOrEqual),
];

// The greatest number that can be typed.
const GREATEST: u32 = i32::MAX as u32;

// The token of a word with a meaning of its own.
fn fixed_token(word: &[u8]) -> Option<Token>
    ensures { result ≡ token_among fixed_words word.now }
{
    let (_, token) = WORDS.iter().find(|(spelling, _)| *spelling == word)?;
    Some(*token)
}

// What number these digits are, without leading zeros; the greatest of 32 bits stands for all from there on.
fn numeral(digits: &[u8]) -> Option<u32>
    ensures { result ≡ numeral_of digits.now }
{
    match digits {
        [] | [b'0', _, ..] => None,
        _ => ascii::number(digits),
    }
}

// What a word means. Those with a meaning of their own begin neither with a digit nor with `v`.
fn meaning(word: &[u8]) -> Token
    ensures { result ≡ held (token_of word.now) }
{
    match word {
        [] => Token::Unknown,
        [b'v', rest @ ..] => numeral(rest).map_or(Token::Unknown, Token::Variable),
        [b'0'..=b'9', ..] => match numeral(word) {
            Some(number) if number <= GREATEST => Token::Number(number),
            _ => Token::Unknown,
        },
        _ => fixed_token(word).unwrap_or(Token::Unknown),
    }
}

// How many spaces a text begins with.
fn leading_spaces(text: &[u8]) -> usize
    ensures { result ≡ prefix_len is_space text.now }
{
    text.iter().take_while(|byte| **byte == b' ').count()
}

// How many letters and digits a text begins with.
fn leading_run(text: &[u8]) -> usize
    ensures { result ≡ prefix_len is_letter_or_digit text.now }
{
    text.iter()
        .take_while(|byte| byte.is_ascii_alphanumeric())
        .count()
}

// How long the word is that a text begins with. The signs of two bytes are `==`, `!=`, `<=` and `>=`.
fn word_length(text: &[u8]) -> usize
    requires { (0 < length text.now) × (is_space (get_or text.now 0 0) ≡ false) }
    ensures { WordLength text.now result }
{
    let run = leading_run(text);
    if run > 0 {
        return run;
    }
    match text {
        [first, b'=', ..] if b"=!<>".contains(first) => 2,
        _ => 1,
    }
}

// The first word from place `at` on.
pub fn word_at(text: &[u8], at: u16) -> Option<Word>
    requires { (at ≤ length text.now) × (length text.now < 65536) }
    ensures { Scanned text.now at result }
{
    let rest = &text[usize::from(at)..];
    let start = leading_spaces(rest);
    let word = &rest[start..];
    if word.is_empty() {
        return None;
    }
    let length = word_length(word);
    Some(Word {
        token: meaning(&word[..length]),
        next: at + (start + length) as u16,
    })
}

// How often a byte stands in a text.
fn count(text: &[u8], byte: u8) -> usize
    ensures { result ≡ times_in byte text.now }
{
    text.iter().filter(|other| byte == **other).count()
}

// Are there as many opening as closing parentheses.
pub fn is_balanced(text: &[u8]) -> bool
    ensures { result ≡ eqb (times_in 40 text.now) (times_in 41 text.now) }
{
    count(text, b'(') == count(text, b')')
}
