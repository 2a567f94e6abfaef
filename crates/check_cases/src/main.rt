// Runs the check over the stored cases of data/cases and compares its answers with those stored.
//
// A case is a header of 16 bytes and a body; numbers stand low byte first. Header: the part of the check (1 a model, 2 an
// expression handed outside a model), the wanted answer (a refusal's number, 0 for none), five numbers of two bytes, and the
// body's length in four bytes. The five numbers of a model are its sizes; those of an expression are its sort (1 Boolean, 2
// number) and its counts of kinds and parameters and the length of the model that it is handed beside, which stand in the
// body in this order, a parameter in four bytes.

#![tactic(auto)]

ghost use Rattle.std.specs.Prelude.{◌≡◌, ◌<◌, length, IfOk, IsTrue, ◌↔◌};

use cases::Case;
use model::{Sizes, Sort};
use results::Refusal;
use std::fs::File;
use std::io;
use syntax::Tree;

// The most parameters of an expression: more than a model has nodes.
const PARAMETERS: usize = 12288;

// An expression handed beside a model: its sort, and how many kinds, parameters and bytes of the model stand in the body.
#[derive(Clone, Copy)]
struct Expression {
    sort: Sort,
    kinds: usize,
    parameters: usize,
    model: usize,
    ghost two_bytes: { (kinds < 65536) × (parameters < 65536) × (model < 65536) },
}

// What is checked.
#[derive(Clone, Copy)]
enum Part {
    Model(Sizes),
    Expression(Expression),
}

// The header of a case. Any byte may be stored for the answer.
#[derive(Clone, Copy)]
struct Head {
    part: Part,
    wanted: u8,
    body: usize,
}

// What comes of a case.
#[derive(Clone, Copy, PartialEq, Eq, Debug)]
enum Answer {
    Accepted,
    OtherSizes,
    NoExpression,
    Refused(Refusal),
}

impl Answer {
    // The number that a header has for it, which is told.
    fn number(self) -> u8 {
        match self {
            Answer::Accepted => 0,
            Answer::OtherSizes => 255,
            Answer::NoExpression => 254,
            Answer::Refused(refusal) => refusal.number(),
        }
    }
}

impl From<[u8; 16]> for Head {
    fn from(bytes: [u8; 16]) -> Head {
        Head {
            part: part_of(&bytes),
            wanted: bytes[1],
            body: cases::number::<4>(&bytes, 12),
        }
    }
}

// What is checked, by the bytes of a header.
fn part_of(bytes: &[u8; 16]) -> Part {
    match bytes[0] {
        1 => Part::Model(Sizes {
            states: cases::number::<2>(bytes, 2),
            flows: cases::number::<2>(bytes, 4),
            events: cases::number::<2>(bytes, 6),
            transitions: cases::number::<2>(bytes, 8),
            nodes: cases::number::<2>(bytes, 10),
        }),
        _ => Part::Expression(Expression {
            sort: sort_of(bytes[2]),
            kinds: cases::number::<2>(bytes, 4),
            parameters: cases::number::<2>(bytes, 6),
            model: cases::number::<2>(bytes, 8),
        }),
    }
}

// The stored sort.
fn sort_of(code: u8) -> Sort {
    match code {
        1 => Sort::Boolean,
        _ => Sort::Number,
    }
}

// Is the answer the stored one? If not, both are told.
fn is_wanted(rt: &impl Print, answer: u8, wanted: u8) -> io::Result<bool>
    ensures { IfOk result (λ is_same. IsTrue is_same ↔ answer ≡ wanted) }
{
    if answer == wanted {
        return Ok(true);
    }
    print!(rt; "answers {answer}, wanted {wanted}; ")?;
    Ok(false)
}

impl Case<16> for Head {
    ghost size = { λ head. head.body };

    fn body_length(self) -> usize {
        self.body
    }

    fn is_as_stored<R: Print>(self, rt: &R, body: &[u8]) -> io::Result<bool> {
        let answer = match self.part {
            Part::Model(sizes) => model_answer(body, sizes),
            Part::Expression(expression) => expression.answer(body),
        };
        is_wanted(rt, answer.number(), self.wanted)
    }
}

// Checks a model whose stored sizes are these.
fn model_answer(body: &[u8], sizes: Sizes) -> Answer {
    match model::check::check(body) {
        Err(refusal) => Answer::Refused(refusal),
        Ok(found) if found == sizes => Answer::Accepted,
        Ok(_) => Answer::OtherSizes,
    }
}

impl Expression {
    // Checks an expression handed beside a model, where the body is one.
    fn answer(self, body: &[u8]) -> Answer {
        let count = self.parameters;
        let past = self.kinds + 4 * count;
        if body.len() != past + self.model || PARAMETERS < count {
            return Answer::NoExpression;
        }
        let mut parameters = [0i32; PARAMETERS];
        let parameters = &mut parameters[..count];
        let (kinds, rest) = body.split_at(self.kinds);
        let (stored, model) = rest.split_at(4 * count);
        cases::load_values(stored, parameters);
        let tree = Tree { kinds, parameters };
        match decoding::check_expression(model, &tree, self.sort) {
            Err(refusal) => Answer::Refused(refusal),
            Ok(()) => Answer::Accepted,
        }
    }
}

fn main(rt: HostRuntime) -> io::Result<()> {
    let mut file = File::open(&rt, "cases")?;
    let mut buffer = [0u8; 65536];
    cases::run(&rt, "cases", || {
        cases::next_case::<16, Head, _, _>(&rt, &mut file, &mut buffer)
    })
}
