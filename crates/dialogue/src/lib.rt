// The program between its input and its output: the start, then the input part by part, each line answered by a line in an array of its own.

#![tactic(auto)]

pub mod exchange; // exchange.rt: the start, a piece of the input, its end

ghost use Rattle.std.specs.Prelude.{◌≡◌, ◌≤◌, [], ◌++◌, ◌==◌, length, take};
ghost use Rattle.lines.specs.Lines.{feed_byte};
ghost use Rattle.dialogue.specs.Sizes.{kept_bytes};
ghost use Rattle.std.specs.List.{position};
ghost use Rattle.dialogue.specs.Cells.{kept_of};

use exchange::first;
use model::Model;

// The program's sizes. No value is made of it: its name stands before the constants.
#[derive(Clone, Copy)]
pub struct Program {}

impl Program {
    // Places of the history.
    pub const PLACES: usize = 200;

    // Bytes kept of the model file: one more than an accepted file can have.
    pub const FILE_BYTES: usize = 60011;

    // Bytes kept of a line, as many as tell its command.
    pub const KEPT_BYTES: usize = 8;

    // Bytes of the array for the lines: room for every line of a run.
    pub const LINE_BYTES: usize = 48024;
}

// The first bytes of a line, and how many they are.
#[derive(Clone, Copy)]
pub struct Line {
    pub bytes: [u8; Program::KEPT_BYTES],
    pub length: usize,
}

// How many bytes of the file, values and marks are in use; none by default.
#[derive(Clone, Copy, Default)]
pub struct Dimensions {
    pub bytes: usize,
    pub variables: usize,
    pub transitions: usize,
}

// All that the program keeps: the line that was begun, the array for the lines and how many of its bytes are to be printed, the arrays
// that the run is lent, what of them and of the model's file is in use, and the file.
#[derive(Drop)]
pub struct Dialogue {
    pub line: Line,
    pub out: [u8; Program::LINE_BYTES],
    pub written: usize,
    pub values: [i32; Model::MAX_VARIABLES],
    pub marks: [u8; Model::MAX_TRANSITIONS],
    pub history: [u16; Program::PLACES],
    pub n: usize,
    pub buffer: [u8; Model::MAX_TRANSITIONS],
    pub dimensions: Dimensions,
    pub file: [u8; Program::FILE_BYTES],
}

// The place of the first line feed.
fn line_feed(part: &[u8]) -> Option<usize>
    ensures { result ≡ position (λ byte. byte == feed_byte) part.now }
{
    part.iter().position(|byte| *byte == b'\n')
}

impl Line {
    // No byte yet.
    pub fn empty() -> Line
        ensures { kept_of result ≡ [] }
    {
        Line {
            bytes: [0; Program::KEPT_BYTES],
            length: 0,
        }
    }

    // The bytes kept.
    fn kept(&self) -> &[u8]
        ensures { result.now ≡ kept_of self.now }
    {
        first(&self.bytes, self.length)
    }

    // These bytes after the bytes kept, as many of them as there are places for.
    fn keep(&mut self, bytes: &[u8])
        ensures kept { kept_of self.new ≡ take kept_bytes (kept_of self.old ++ bytes.now) }
        ensures fitted { length (kept_of self.old) ≤ kept_bytes }
    {
        let at = self.length.min(Program::KEPT_BYTES);
        let more = first(bytes, Program::KEPT_BYTES - at);
        self.length = at + more.len();
        self.bytes[at..self.length].copy_from_slice(more);
    }
}
