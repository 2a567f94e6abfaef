// Runs the stored programs of data/cases through the functions that gtsrun uses, and compares what they print with what is stored.
//
// A case is the lengths of a model file, of an input and of an output (four bytes each, low byte first), and these three.

#![tactic(auto)]

ghost use Rattle.std.specs.Prelude.{◌≡◌, ◌+◌, ◌^◌, ◌<◌, length};

use cases::Case;
use dialogue::{Dialogue, Program};
use std::fs::File;
use std::io;

// Bytes of a part of the input: few, so that lines go across parts.
const PART: usize = 7;

// The header of a case: the lengths of the model file, of the input and of the output.
#[derive(Clone, Copy)]
struct Head {
    model: usize,
    input: usize,
    output: usize,
    ghost four_bytes: { (model < 2 ^ 32) × (input < 2 ^ 32) × (output < 2 ^ 32) },
}

impl From<[u8; 12]> for Head {
    fn from(bytes: [u8; 12]) -> Head {
        Head {
            model: cases::number::<4>(&bytes, 0),
            input: cases::number::<4>(&bytes, 4),
            output: cases::number::<4>(&bytes, 8),
        }
    }
}

// Answers each line that a part of the input ends, and compares it as it is printed: what is still wanted; none, if another byte was printed.
// The program prints by the same loop.
fn answer_part<'a>(wanted: &'a [u8], dialogue: &mut Dialogue, part: &[u8]) -> Option<&'a [u8]> {
    let mut rest = wanted;
    let mut at = 0;
    while at < part.len() {
        at = dialogue.take_line(part, at);
        rest = rest.strip_prefix(dialogue.printed())?;
    }
    Some(rest)
}

// The lines of the input, taken part by part to its end.
fn answer_all<'a>(wanted: &'a [u8], dialogue: &mut Dialogue, input: &[u8]) -> Option<&'a [u8]> {
    let mut rest = wanted;
    for part in input.chunks(PART) {
        rest = answer_part(rest, dialogue, part)?;
    }
    dialogue.close();
    rest.strip_prefix(dialogue.printed())
}

// Starts the run and, unless that is refused, answers the input: what is still wanted then; none, if another byte was printed.
fn answered<'a>(model: &[u8], input: &[u8], wanted: &'a [u8]) -> Option<&'a [u8]> {
    let mut dialogue = Dialogue::empty();
    let bytes = keep(model, &mut dialogue.file);
    let is_started = dialogue.open(bytes);
    let rest = wanted.strip_prefix(dialogue.printed())?;
    if !is_started {
        return Some(rest);
    }
    answer_all(rest, &mut dialogue, input)
}

// Stores the first bytes of a model, as gtsrun keeps them of its file; how many.
fn keep(model: &[u8], file: &mut [u8; Program::FILE_BYTES]) -> usize {
    let bytes = model.len().min(Program::FILE_BYTES);
    file[..bytes].copy_from_slice(&model[..bytes]);
    bytes
}

impl Case<12> for Head {
    ghost size = { λ head. head.model + head.input + head.output };

    fn body_length(self) -> usize {
        self.model + self.input + self.output
    }

    fn is_as_stored<R: Print>(self, _rt: &R, body: &[u8]) -> io::Result<bool> {
        let (model, rest) = body.split_at(self.model);
        let (input, wanted) = rest.split_at(self.input);
        let rest = answered(model, input, wanted);
        Ok(rest.is_some_and(|bytes| bytes.is_empty()))
    }
}

fn main(rt: HostRuntime) -> io::Result<()> {
    let mut source = File::open(&rt, "cases")?;
    let mut body = [0u8; 204800];
    cases::run(&rt, "programs", || {
        cases::next_case::<12, Head, _, _>(&rt, &mut source, &mut body)
    })
}
