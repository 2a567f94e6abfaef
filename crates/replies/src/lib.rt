// A command and the start: each is performed on a run and answered by a line in a lent slice.
//
// No function asks anything of its caller. If `out` is too short for the longest line of the run, nothing is done.

#![tactic(auto)]

ghost use Rattle.std.specs.Prelude.{◌≡◌, not, ◌&&◌, ◌≤◌, false, is_ok, length};
ghost use Rattle.results.specs.Results.{answered};
ghost use Rattle.standing.specs.Runs.{run, store};
ghost use Rattle.lines.specs.Lines.{room, mark_width, written_into};
ghost use Rattle.run.specs.Lent.{store_in, SameCells};
ghost use Rattle.replies.specs.Replies.{reply, opening, is_started};
ghost use Rattle.replies.specs.Printing.{is_short, line_of, reply_into, Replied};

use commands::Command;
use results::Refusal;
use run::Store;

// The start: is the run started, and how many bytes its line has; none, if there was no room for it. A start that is refused has a line too.
#[derive(Clone, Copy, PartialEq, Eq, Debug)]
pub struct Opening {
    pub is_started: bool,
    pub written: Option<usize>,
}

// Is a slice too short for some line of the run, with so many values, or of its marks, with so many cells to copy them into?
fn is_short(out: &[u8], store: &Store<'_>) -> bool
    ensures { result ≡ is_short out.now (store_in store.now) }
{
    let length = out.len();
    lines::is_short::<i32>(length, store.values.len())
        || lines::is_short::<u8>(length, store.buffer.len())
}

// The line that was written, or that of the refusal.
#[tactic(auto, unfolding(lines::specs::Lines::line_into))]
fn written(line: Result<Option<usize>, Refusal>, out: &mut [u8]) -> Option<usize>
    ensures { room mark_width 0 ≤ length out.old → written_into result out.new ≡ line_of line out.old }
{
    match line {
        Ok(length) => length,
        Err(refusal) => lines::refusal_line(refusal.number(), out),
    }
}

// Carries out a command, refused if there is none, and writes its line unless it is refused.
#[tactic(auto, unfolding(crate::specs::Replies::reply_by, crate::specs::Replies::run_text, crate::specs::Replies::look_text, lines::specs::Lines::line_into, results::specs::Refusals::number_of))]
fn carry_out(
    command: Option<Command>,
    model: &[u8],
    store: &mut Store<'_>,
    out: &mut [u8],
) -> Result<Option<usize>, Refusal>
    ensures replied { is_short out.old (store_in store.old) ≡ false
        → Replied result out.old out.new (store_in store.new) (reply model.now command (store_in store.old)) }
    ensures same { SameCells store.old store.new }
{
    match command.ok_or(Refusal::NoCommand)? {
        Command::Fire(transition) => {
            let count = store.fire(model, transition)?;
            Ok(lines::ok_line(count, store.run().values, out))
        }
        Command::Undo => {
            store.undo(model)?;
            Ok(lines::back_line(store.run().values, out))
        }
        Command::Marks => {
            store.copy_marks(model)?;
            // Named first: of a slice in a struct that is lent to be read at once it is not known that it stays.
            let buffer = &mut *store.buffer;
            Ok(lines::marks_line(buffer, out))
        }
    }
}

// Carries out a command, or refuses a line that is none, and writes its line. The run is lent slice by slice, since its owner lends parts
// of arrays: of a part that is lent in a struct to be changed it is not known afterwards that it is that part.
#[tactic(auto, unfolding(crate::specs::Printing::reply_into))]
pub fn respond(
    command: Option<Command>,
    model: &[u8],
    values: &mut [i32],
    marks: &mut [u8],
    history: &mut [u16],
    n: &mut usize,
    buffer: &mut [u8],
    out: &mut [u8],
) -> Option<usize>
    ensures { answered (written_into result out.new) (store (run values.new marks.new history.new n.new) buffer.new)
        ≡ reply_into out.old (store (run values.old marks.old history.old n.old) buffer.old)
        (reply model.now command (store (run values.old marks.old history.old n.old) buffer.old)) }
{
    let mut store = Store {
        values,
        marks,
        history,
        n,
        buffer,
    };
    if is_short(out, &store) {
        return None;
    }
    let line = carry_out(command, model, &mut store, out);
    written(line, out)
}

// The start, and its line unless it is refused.
#[tactic(auto, unfolding(crate::specs::Replies::run_text, crate::specs::Replies::is_accepted, lines::specs::Lines::line_into, results::specs::Refusals::number_of))]
fn begin(model: &[u8], store: &mut Store<'_>, out: &mut [u8]) -> Result<Option<usize>, Refusal>
    ensures started { is_ok result ≡ is_started model.now (store_in store.old) }
    ensures replied { is_short out.old (store_in store.old) ≡ false
        → Replied result out.old out.new (store_in store.new) (opening model.now (store_in store.old)) }
    ensures same { SameCells store.old store.new }
{
    let count = store.start(model)?;
    Ok(lines::ok_line(count, store.run().values, out))
}

// The start and its line.
#[tactic(auto, unfolding(crate::specs::Printing::reply_into))]
pub fn open(
    model: &[u8],
    values: &mut [i32],
    marks: &mut [u8],
    history: &mut [u16],
    n: &mut usize,
    buffer: &mut [u8],
    out: &mut [u8],
) -> Opening
    ensures is_started_value { result.is_started ≡ (not (is_short out.old (store (run values.old marks.old history.old n.old) buffer.old))
        && is_started model.now (store (run values.old marks.old history.old n.old) buffer.old)) }
    ensures buffer_after { answered (written_into result.written out.new) (store (run values.new marks.new history.new n.new) buffer.new)
        ≡ reply_into out.old (store (run values.old marks.old history.old n.old) buffer.old)
        (opening model.now (store (run values.old marks.old history.old n.old) buffer.old)) }
{
    let mut store = Store {
        values,
        marks,
        history,
        n,
        buffer,
    };
    if is_short(out, &store) {
        return Opening {
            is_started: false,
            written: None,
        };
    }
    let line = begin(model, &mut store, out);
    Opening {
        is_started: line.is_ok(),
        written: written(line, out),
    }
}
