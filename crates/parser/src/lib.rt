// A text read as the nodes of an expression: one function for each level of the grammar, tightest first, which call each other
// in a cycle; those of the levels that group from the left share a loop. At each call the unread bytes of the text or the level
// fall.
//
// Operators that group from the left, and relations, are read by functions that are handed their first operand, so that only
// four calls stand on the stack for a parenthesis at the beginning of an expression, and at most three more for each level of
// operators before it.
//
// `at` is a place in the text.

#![tactic(auto, using(crate::proofs::Grouping::readings, crate::proofs::Forms::standings), unfolding(grammar::specs::Reading::and_then, grammar::specs::Reading::is_next, grammar::specs::Reading::after_next, grammar::specs::Reading::arguments_by, grammar::specs::Reading::call_by, grammar::specs::Reading::prefix_by, grammar::specs::Reading::related_by, grammar::specs::Reading::whole_by))]

ghost use Rattle.std.specs.Prelude.{◌≡◌, ℕ, suc, List, ◌<◌, ◌≤◌, length, take, drop};
ghost use Rattle.grammar.specs.declared.Token.TheVariants.{Open, Div, Mod};
ghost use Rattle.grammar.specs.Tokens.{ordinal, tokens_of};
ghost use Rattle.grammar.specs.Phrases.{Phrase, call_level, product_level, sign_level, negation_level, conjunction_level, whole_level, is_sign, is_relation, is_chained};
ghost use Rattle.grammar.specs.Reading.{read_level, related_by, arguments_by, conditional_by, phrase_of};
ghost use Rattle.grammar.specs.Held.{FirstWord, Scanned};
ghost use Rattle.composition.specs.declared.Node.{Node};
ghost use Rattle.composition.specs.Parts.{written};
ghost use Rattle.parser.specs.Levels.{Place, Handed, Stands, Reached, Follows, operand_level, chain_from, TextRead};

use composition::{Nodes, Part};
use grammar::{Token, Word};

mod source; // source.rt: a text and the sorts of its variables

pub use source::Source;

// The levels of the operators that group from the left, tightest first.
#[derive(Clone, Copy)]
enum Level {
    Product,
    Sum,
    Conjunction,
    Disjunction,
}

impl Level {
    // Is this an operator of the level?
    #[tactic(auto, unfolding(grammar::specs::Phrases::is_chained))]
    fn groups(self, token: Token) -> bool
        ensures { result ≡ is_chained (suc (operand_level self)) token }
    {
        match self {
            Level::Product => matches!(token, Token::Times),
            Level::Sum => is_sign(token),
            Level::Conjunction => matches!(token, Token::And),
            Level::Disjunction => matches!(token, Token::Or),
        }
    }
}

fn is_sign(token: Token) -> bool
    ensures { result ≡ is_sign token }
{
    matches!(token, Token::Plus | Token::Minus)
}

fn is_relation(token: Token) -> bool
    ensures { result ≡ is_relation token }
{
    matches!(
        token,
        Token::Equal
            | Token::Unequal
            | Token::Less
            | Token::LessOrEqual
            | Token::Greater
            | Token::GreaterOrEqual
    )
}

impl Source<'_> {
    // The first word from place `at` on.
    fn word_at(&self, at: u16) -> Option<Word>
        requires { at ≤ length self.now.text.now }
        ensures { Scanned self.now.text.now at result }
    {
        scanner::word_at(self.text, at)
    }

    // The place after this token, where it stands next.
    fn after(&self, token: Token, at: u16) -> Option<u16>
        requires { (at ≤ length self.now.text.now) × (2 < ordinal token) }
        ensures { Follows self.now.text.now token at result }
    {
        let word = self.word_at(at)?;
        // An `if`: proofs are told at a test alone that two tokens are the same.
        if word.token == token {
            Some(word.next)
        } else {
            None
        }
    }

    // A number, a variable, true or false.
    #[tactic(auto, using(crate::proofs::Steps::level_call, crate::proofs::Forms::single_read, grammar::proofs::Ordinals::held_number, grammar::proofs::Ordinals::held_variable), unfolding(grammar::specs::Reading::call_by, grammar::specs::Held::held))]
    fn single(&self, nodes: &mut Nodes, word: Word) -> Option<Part>
        requires { length (written nodes.old) < 400 }
        ensures { (at : ℕ) → FirstWord self.now.text.now at word
            → (word.token ≡ Open → ⊥) → (word.token ≡ Div → ⊥) → (word.token ≡ Mod → ⊥)
            → Reached self.now at (written nodes.old) nodes.new
            (read_level call_level (tokens_of (drop at self.now.text.now))) result }
    {
        match word.token {
            Token::Number(number) => Some(Part::numeral(nodes, number, word.next)),
            Token::Variable(number) => {
                Some(Part::variable(nodes, self.sorts, number, word.next))
            }
            Token::True => Some(Part::truth(nodes, 1, word.next)),
            Token::False => Some(Part::truth(nodes, 0, word.next)),
            _ => None,
        }
    }

    // Single words, parentheses, calls.
    #[cycle(reading)]
    fn call(&self, nodes: &mut Nodes, at: u16) -> Option<Part>
        requires { Place self.now nodes.old at }
        ensures { Reached self.now at (written nodes.old) nodes.new
            (read_level call_level (tokens_of (drop at self.now.text.now))) result }
    {
        let word = self.word_at(at)?;
        match word.token {
            Token::Open => {
                let part = self.whole(nodes, word.next)?;
                let next = self.after(Token::Close, part.next)?;
                Some(part.enclosed(next))
            }
            Token::Div | Token::Mod => self.arguments(nodes, word.token, word.next),
            _ => self.single(nodes, word),
        }
    }

    // The arguments of a call of div or mod.
    #[cycle(reading)]
    fn arguments(&self, nodes: &mut Nodes, function: Token, at: u16) -> Option<Part>
        requires { Place self.now nodes.old at }
        ensures { Reached self.now at (written nodes.old) nodes.new
            (arguments_by (λ k us. read_level k us) function (tokens_of (drop at self.now.text.now))) result }
    {
        let opened = self.after(Token::Open, at)?;
        let first = self.whole(nodes, opened)?;
        let comma = self.after(Token::Comma, first.next)?;
        let second = self.whole(nodes, comma)?;
        let closed = self.after(Token::Close, second.next)?;
        Some(first.called(nodes, function, second, closed))
    }

    // An operand of an operator of this level, but for the first one.
    #[cycle(reading)]
    fn operand(&self, nodes: &mut Nodes, level: Level, at: u16) -> Option<Part>
        requires { Place self.now nodes.old at }
        ensures { Reached self.now at (written nodes.old) nodes.new
            (read_level (operand_level level) (tokens_of (drop at self.now.text.now))) result }
    {
        match level {
            Level::Product => self.call(nodes, at),
            Level::Sum => {
                let factor = self.call(nodes, at)?;
                self.product(nodes, factor)
            }
            Level::Conjunction => self.negation(nodes, at),
            Level::Disjunction => {
                let first = self.negation(nodes, at)?;
                self.conjunction(nodes, first)
            }
        }
    }

    // Operators of this level, after a first operand.
    #[cycle(reading)]
    fn chain(&self, nodes: &mut Nodes, level: Level, first: Part) -> Option<Part>
        requires { Handed self.now nodes.old first }
        ensures { (at : ℕ) (before : List Node) (p : Phrase)
            → Stands self.now.sorts.now (length self.now.text.now) at before p first nodes.old
            → Reached self.now at before nodes.new
            (chain_from (operand_level level) p (tokens_of (drop first.next self.now.text.now))) result }
    {
        let mut left = first;
        // It goes on while words follow, and ends where one is no operator of the level.
        while let Some(word) = self.word_at(left.next) {
            if !level.groups(word.token) {
                return Some(left);
            }
            let right = self.operand(nodes, level, word.next)?;
            left = left.operated(nodes, word.token, right);
        }
        Some(left)
    }

    // Times, after a first operand. This and the next three are alike: each level of the grammar has a function of its own.
    #[cycle(reading)]
    fn product(&self, nodes: &mut Nodes, first: Part) -> Option<Part>
        requires { Handed self.now nodes.old first }
        ensures { (at : ℕ) (before : List Node) (p : Phrase)
            → Stands self.now.sorts.now (length self.now.text.now) at before p first nodes.old
            → Reached self.now at before nodes.new
            (chain_from call_level p (tokens_of (drop first.next self.now.text.now))) result }
    {
        self.chain(nodes, Level::Product, first)
    }

    // Plus and minus, after a first operand.
    #[cycle(reading)]
    fn sum(&self, nodes: &mut Nodes, first: Part) -> Option<Part>
        requires { Handed self.now nodes.old first }
        ensures { (at : ℕ) (before : List Node) (p : Phrase)
            → Stands self.now.sorts.now (length self.now.text.now) at before p first nodes.old
            → Reached self.now at before nodes.new
            (chain_from product_level p (tokens_of (drop first.next self.now.text.now))) result }
    {
        self.chain(nodes, Level::Sum, first)
    }

    // And, after a first operand.
    #[cycle(reading)]
    fn conjunction(&self, nodes: &mut Nodes, first: Part) -> Option<Part>
        requires { Handed self.now nodes.old first }
        ensures { (at : ℕ) (before : List Node) (p : Phrase)
            → Stands self.now.sorts.now (length self.now.text.now) at before p first nodes.old
            → Reached self.now at before nodes.new
            (chain_from negation_level p (tokens_of (drop first.next self.now.text.now))) result }
    {
        self.chain(nodes, Level::Conjunction, first)
    }

    // Or, after a first operand.
    #[cycle(reading)]
    fn disjunction(&self, nodes: &mut Nodes, first: Part) -> Option<Part>
        requires { Handed self.now nodes.old first }
        ensures { (at : ℕ) (before : List Node) (p : Phrase)
            → Stands self.now.sorts.now (length self.now.text.now) at before p first nodes.old
            → Reached self.now at before nodes.new
            (chain_from conjunction_level p (tokens_of (drop first.next self.now.text.now))) result }
    {
        self.chain(nodes, Level::Disjunction, first)
    }

    // Signs.
    #[cycle(reading)]
    fn signed(&self, nodes: &mut Nodes, at: u16) -> Option<Part>
        requires { Place self.now nodes.old at }
        ensures { Reached self.now at (written nodes.old) nodes.new
            (read_level sign_level (tokens_of (drop at self.now.text.now))) result }
    {
        let word = self.word_at(at)?;
        if is_sign(word.token) {
            let operand = self.signed(nodes, word.next)?;
            return Some(operand.prefixed(nodes, word.token));
        }
        let factor = self.call(nodes, at)?;
        let term = self.product(nodes, factor)?;
        self.sum(nodes, term)
    }

    // A relation, after its first operand.
    #[cycle(reading)]
    fn relation(&self, nodes: &mut Nodes, first: Part) -> Option<Part>
        requires { Handed self.now nodes.old first }
        ensures { (at : ℕ) (before : List Node) (p : Phrase)
            → Stands self.now.sorts.now (length self.now.text.now) at before p first nodes.old
            → Reached self.now at before nodes.new
            (related_by (λ k us. read_level k us) p (tokens_of (drop first.next self.now.text.now))) result }
    {
        let Some(word) = self.word_at(first.next) else {
            return Some(first);
        };
        if !is_relation(word.token) {
            return Some(first);
        }
        let right = self.signed(nodes, word.next)?;
        Some(first.operated(nodes, word.token, right))
    }

    // Not.
    #[cycle(reading)]
    fn negation(&self, nodes: &mut Nodes, at: u16) -> Option<Part>
        requires { Place self.now nodes.old at }
        ensures { Reached self.now at (written nodes.old) nodes.new
            (read_level negation_level (tokens_of (drop at self.now.text.now))) result }
    {
        if let Some(next) = self.after(Token::Not, at) {
            let operand = self.negation(nodes, next)?;
            return Some(operand.prefixed(nodes, Token::Not));
        }
        let first = self.signed(nodes, at)?;
        self.relation(nodes, first)
    }

    // If-then-else, and all others.
    #[cycle(reading)]
    fn whole(&self, nodes: &mut Nodes, at: u16) -> Option<Part>
        requires { Place self.now nodes.old at }
        ensures { Reached self.now at (written nodes.old) nodes.new
            (read_level whole_level (tokens_of (drop at self.now.text.now))) result }
    {
        if let Some(next) = self.after(Token::If, at) {
            return self.conditional(nodes, next);
        }
        let operand = self.negation(nodes, at)?;
        let first = self.conjunction(nodes, operand)?;
        self.disjunction(nodes, first)
    }

    // If-then-else, after `if`.
    #[cycle(reading)]
    fn conditional(&self, nodes: &mut Nodes, at: u16) -> Option<Part>
        requires { Place self.now nodes.old at }
        ensures { Reached self.now at (written nodes.old) nodes.new
            (conditional_by (λ k us. read_level k us) (tokens_of (drop at self.now.text.now))) result }
    {
        let condition = self.whole(nodes, at)?;
        let then = self.after(Token::Then, condition.next)?;
        let first = self.whole(nodes, then)?;
        let otherwise = self.after(Token::Else, first.next)?;
        let second = self.whole(nodes, otherwise)?;
        Some(condition.chosen(nodes, first, second))
    }
    // The whole text; None where it is not in the grammar. One with more opening than closing parentheses, or fewer, is refused
    // beforehand: this halves the deepest nesting that is read.
    #[tactic(auto, using(grammar::proofs::Balance::unbalanced_none, crate::proofs::Texts::words_left, crate::proofs::Texts::all_read), unfolding(grammar::specs::Reading::phrase_of, grammar::specs::Reading::entire))]
    pub fn parse(&self, nodes: &mut Nodes) -> Option<Part>
        ensures { TextRead self.now.sorts.now nodes.new (phrase_of self.now.text.now) result }
    {
        if !scanner::is_balanced(self.text) {
            return None;
        }
        nodes.clear();
        let part = self.whole(nodes, 0)?;
        self.word_at(part.next).is_none().then_some(part)
    }
}
