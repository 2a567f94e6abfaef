// The grammar of texts: what a word, a phrase and a reading are is in specs/. Here is how the code holds a word; there are no functions.

#![tactic(auto)]

// What a word is: a number, a variable or a word with a meaning of its own; any other is `Unknown`, a word that is there and fits nowhere,
// as None is none that is there. The greatest number of 32 bits stands for all from there on.
#[derive(Clone, Copy, PartialEq, Eq, Debug)]
pub enum Token {
    Unknown,
    Number(u32),
    Variable(u32),
    True,
    False,
    Div,
    Mod,
    If,
    Then,
    Else,
    Not,
    And,
    Or,
    Open,
    Close,
    Comma,
    Plus,
    Minus,
    Times,
    Equal,
    Unequal,
    Less,
    LessOrEqual,
    Greater,
    GreaterOrEqual,
}

// A word of a text, and the place after it.
#[derive(Clone, Copy, PartialEq, Eq, Debug)]
pub struct Word {
    pub token: Token,
    pub next: u16,
}
