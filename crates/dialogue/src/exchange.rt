// The start, a piece of the input and its end: each is performed and answered by a line at the beginning of the array for the lines.
//
// No function asks anything of its caller. It has room for every line of a run, so each line is printed whole.

ghost use Rattle.std.specs.Prelude.{◌≡◌, not, ◌&&◌, ◌+◌, ◌≤◌, take, drop, replicate, []};
ghost use Rattle.results.specs.Results.{answered};
ghost use Rattle.model.specs.Sizes.{max_variables, max_transitions};
ghost use Rattle.model.specs.Check.{verdict};
ghost use Rattle.standing.specs.Runs.{run, store};
ghost use Rattle.commands.specs.Commands.{command_of};
ghost use Rattle.lines.specs.Lines.{written_into};
ghost use Rattle.replies.specs.Printing.{is_short, reply_into};
ghost use Rattle.replies.specs.Replies.{reply, opening, is_started};
ghost use Rattle.dialogue.specs.Sizes.{file_bytes, line_bytes};
ghost use Rattle.dialogue.specs.Turns.{progress, turns, closing, to_line_feed, first_line};
ghost use Rattle.dialogue.specs.Cells.{kept_of, dimensions_of, in_use, past_use, into, store_of, line_of, model_of, used, KeepsRest};
ghost use Rattle.dialogue.specs.Program.{empty, text_in};

use super::{Dialogue, Dimensions, Line, Program, line_feed};
use commands::Command;
use model::Model;

// The first bytes of a slice, as far as there are any: the model in its file, or the line to be printed.
pub fn first(bytes: &[u8], count: usize) -> &[u8]
    ensures { result.now ≡ take count bytes.now }
{
    &bytes[..count.min(bytes.len())]
}

// What the run of a model of so many bytes takes; nothing, if it is refused.
fn dimensions_of(model: &[u8], bytes: usize) -> Dimensions
    ensures value { result ≡ dimensions_of bytes (verdict model.now) }
    ensures variables_le_max_variables { (result.variables ≤ max_variables) × (result.transitions ≤ max_transitions) }
{
    match run::check(model) {
        Err(_) => Dimensions {
            bytes,
            ..Dimensions::default()
        },
        Ok(sizes) => Dimensions {
            bytes,
            variables: sizes.variables(),
            transitions: sizes.transitions,
        },
    }
}

// The start of a run in the first cells of the slices, which are arguments one by one: a part of a slice that is lent in a struct to be
// changed is not known to be that part afterwards. It and the next differ in what they call, and in what that answers.
fn open_first(
    model: &[u8],
    dimensions: Dimensions,
    values: &mut [i32],
    marks: &mut [u8],
    history: &mut [u16],
    n: &mut usize,
    buffer: &mut [u8],
    out: &mut [u8],
) -> replies::Opening
    ensures is_started_value { result.is_started ≡ (not (is_short out.old (in_use dimensions (store (run values.old marks.old history.old n.old) buffer.old)))
        && is_started model.now (in_use dimensions (store (run values.old marks.old history.old n.old) buffer.old))) }
    ensures buffer_after { answered (written_into result.written out.new) (in_use dimensions (store (run values.new marks.new history.new n.new) buffer.new))
        ≡ reply_into out.old (in_use dimensions (store (run values.old marks.old history.old n.old) buffer.old))
        (opening model.now (in_use dimensions (store (run values.old marks.old history.old n.old) buffer.old))) }
    ensures buffer_unchanged { past_use dimensions (store (run values.new marks.new history.new n.new) buffer.new)
        ≡ past_use dimensions (store (run values.old marks.old history.old n.old) buffer.old) }
{
    let variables = dimensions.variables.min(values.len());
    let held = dimensions.transitions.min(marks.len());
    let copied = dimensions.transitions.min(buffer.len());
    replies::open(
        model,
        &mut values[..variables],
        &mut marks[..held],
        history,
        n,
        &mut buffer[..copied],
        out,
    )
}

// A command on a run in the first cells of the slices.
fn respond_first(
    command: Option<Command>,
    model: &[u8],
    dimensions: Dimensions,
    values: &mut [i32],
    marks: &mut [u8],
    history: &mut [u16],
    n: &mut usize,
    buffer: &mut [u8],
    out: &mut [u8],
) -> Option<usize>
    ensures buffer_after { answered (written_into result out.new) (in_use dimensions (store (run values.new marks.new history.new n.new) buffer.new))
        ≡ reply_into out.old (in_use dimensions (store (run values.old marks.old history.old n.old) buffer.old))
        (reply model.now command (in_use dimensions (store (run values.old marks.old history.old n.old) buffer.old))) }
    ensures buffer_unchanged { past_use dimensions (store (run values.new marks.new history.new n.new) buffer.new)
        ≡ past_use dimensions (store (run values.old marks.old history.old n.old) buffer.old) }
{
    let variables = dimensions.variables.min(values.len());
    let held = dimensions.transitions.min(marks.len());
    let copied = dimensions.transitions.min(buffer.len());
    replies::respond(
        command,
        model,
        &mut values[..variables],
        &mut marks[..held],
        history,
        n,
        &mut buffer[..copied],
        out,
    )
}

impl Dialogue {
    // Before the start: 0 in every cell. Written out: of a derived `Default` it would be known of each cell alone that it is its type's.
    pub fn empty() -> Dialogue
        ensures cells { store_of result ≡ empty }
        ensures file_cells { result.file ≡ replicate file_bytes 0 }
        ensures out_cells { result.out ≡ replicate line_bytes 0 }
        ensures nothing_to_print { result.written ≡ 0 }
        ensures line { kept_of result.line ≡ [] }
    {
        Dialogue {
            line: Line::empty(),
            out: [0; Program::LINE_BYTES],
            written: 0,
            values: [0; Model::MAX_VARIABLES],
            marks: [0; Model::MAX_TRANSITIONS],
            history: [0; Program::PLACES],
            n: 0,
            buffer: [0; Model::MAX_TRANSITIONS],
            dimensions: Dimensions::default(),
            file: [0; Program::FILE_BYTES],
        }
    }

    // The start: the run of the model in the first bytes of the file. Is it started? There is a line to print in both cases.
    pub fn open(&mut self, bytes: usize) -> bool
        ensures dimensions_value { self.new.dimensions ≡ dimensions_of bytes (verdict (take bytes self.old.file)) }
        ensures variables_le_max_variables { (self.new.dimensions.variables ≤ max_variables) × (self.new.dimensions.transitions ≤ max_transitions) }
        ensures is_started_value { result ≡ is_started (take bytes self.old.file) (in_use self.new.dimensions (store_of self.old)) }
        ensures buffer_after { answered (line_of self.new) (used self.new)
            ≡ into self.old.out (opening (take bytes self.old.file) (in_use self.new.dimensions (store_of self.old))) }
        ensures buffer_unchanged { past_use self.new.dimensions (store_of self.new) ≡ past_use self.new.dimensions (store_of self.old) }
        ensures file_unchanged { (self.new.file ≡ self.old.file) × (self.new.line ≡ self.old.line) }
        ensures length_le_line_bytes { self.new.written ≤ line_bytes }
    {
        let model = first(&self.file, bytes);
        self.dimensions = dimensions_of(model, bytes);
        let opening = open_first(
            model,
            self.dimensions,
            &mut self.values,
            &mut self.marks,
            &mut self.history,
            &mut self.n,
            &mut self.buffer,
            &mut self.out,
        );
        self.written = opening.written.unwrap_or(0);
        opening.is_started
    }

    // The command of the line that was begun; none, if it is none.
    fn command(&self) -> Option<Command>
        ensures { result ≡ command_of (kept_of self.now.line) }
    {
        commands::command_of(self.line.kept())
    }

    // Carries out a command, or refuses a line that is none, and writes its line.
    fn answer(&mut self, command: Option<Command>)
        ensures buffer_after { answered (line_of self.new) (used self.new)
            ≡ into self.old.out (reply (model_of self.old) command (used self.old)) }
        ensures rest { KeepsRest self.old self.new }
        ensures line { self.new.line ≡ self.old.line }
        ensures length_le_line_bytes { self.new.written ≤ line_bytes }
    {
        let dimensions = self.dimensions;
        let written = respond_first(
            command,
            first(&self.file, dimensions.bytes),
            dimensions,
            &mut self.values,
            &mut self.marks,
            &mut self.history,
            &mut self.n,
            &mut self.buffer,
            &mut self.out,
        );
        self.written = written.unwrap_or(0);
    }

    // Takes the bytes of a part of the input from this place on to the first line feed, which ends a line that is then answered;
    // to the part's end, if there is none. The place after the bytes taken.
    pub fn take_line(&mut self, part: &[u8], from: usize) -> usize
        ensures next_value { result ≡ from + to_line_feed (drop from part.now) }
        ensures buffer_after { answered (line_of self.new) (progress (kept_of self.new.line) (used self.new))
            ≡ into self.old.out (turns (model_of self.old) (first_line (drop from part.now)) (progress (kept_of self.old.line) (used self.old))) }
        ensures rest { KeepsRest self.old self.new }
        ensures length_le_line_bytes { self.new.written ≤ line_bytes }
    {
        let rest = part.get(from..).unwrap_or(b"");
        let Some(at) = line_feed(rest) else {
            self.line.keep(rest);
            self.written = 0;
            return from + rest.len();
        };
        self.line.keep(&rest[..at]);
        self.answer(self.command());
        self.line = Line::empty();
        from + at + 1
    }

    // The end of the input: a last line without its line feed is answered too.
    pub fn close(&mut self)
        ensures buffer_after { answered (line_of self.new) (used self.new)
            ≡ into self.old.out (closing (model_of self.old) (progress (kept_of self.old.line) (used self.old))) }
        ensures rest { KeepsRest self.old self.new }
        ensures line_unchanged { self.new.line ≡ self.old.line }
        ensures length_le_line_bytes { self.new.written ≤ line_bytes }
    {
        if self.line.kept().is_empty() {
            self.written = 0;
            return;
        }
        self.answer(self.command());
    }

    // What is to be printed: the line that the last call left at the beginning of the array for the lines, or nothing.
    pub fn printed(&self) -> &[u8]
        ensures { result.now ≡ text_in (line_of self.now) }
    {
        first(&self.out, self.written)
    }
}
