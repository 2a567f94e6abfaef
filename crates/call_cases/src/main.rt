// Carries out the stored lists of calls of data/cases on runs, and compares every answer and every cell lent after every call with those
// stored: once with the model of each list, once with its shuffled twin, each from the stored beginning.
//
// A list is a header of 32 bytes, the model file, the twin, the store at the beginning, and then its calls. Numbers stand low byte
// first. The header: the lengths of the model and of the twin (four bytes each), of the values, the history and the buffer, the number of
// calls and the length of the marks (two bytes each), six bytes of 0, and n (eight bytes). A store: the values (four bytes each), the
// marks, the history (two bytes each), the buffer.
//
// A call is a header of 32 bytes and the store afterwards. The header: the call (0 check, 1 start, 2 fire, 3 undo, 4 marks, 5 value, 6
// pick, 7 first outside), the form of its answer (0 refused, 1 a round count, 2 done, 3 a value, 4 the five sizes, 5 a transition, 6
// nothing, 7 a variable outside its ends, 8 all within), in the last two forms how many values were looked at, of the sizes N, else 0 (two
// bytes), four bytes of 0, then eight bytes each: the transition or variable, the answer's number (the sizes are S, F, E, T in
// two bytes each), and n afterwards.

#![tactic(auto)]

ghost use Rattle.std.specs.Prelude.{◌≡◌, ◌+◌, ◌*◌, ◌^◌, ◌<◌, ◌≤◌, length};

use model::Sizes;
use results::Refusal;
use run::{Answer, Call, Store};
use std::fs::File;
use std::io::Read;
use std::rt::Files;
use std::{fmt, io};

// The most values, marks or bytes of a buffer.
const CELLS: usize = 4008;

// The most places of a history.
const PLACES: usize = 520;

// The most bytes that a store has: values, marks, history, buffer.
const BYTES: usize = 6 * CELLS + 2 * PLACES;

// The most bytes of both models of a list.
const FILE_BYTES: usize = 120832;

// Which of its two models a list is carried out on.
#[derive(Clone, Copy, PartialEq, Eq, Debug)]
enum Side {
    Model,
    Twin,
}

// The header of a list: the lengths of its models and of what is lent, which are cut to the most that there may be, its calls, and n.
#[derive(Clone, Copy)]
struct Head {
    model: usize,
    twin: usize,
    variables: usize,
    places: usize,
    copied: usize,
    calls: usize,
    held: usize,
    n: usize,
    ghost models: { (model < 2 ^ 32) × (twin < 2 ^ 32) },
    ghost cells: { (variables ≤ 4008) × (places ≤ 520) × (copied ≤ 4008) × (held ≤ 4008) },
}

impl From<[u8; 32]> for Head {
    fn from(bytes: [u8; 32]) -> Head {
        Head {
            model: cases::number::<4>(&bytes, 0),
            twin: cases::number::<4>(&bytes, 4),
            variables: cases::number::<2>(&bytes, 8).min(CELLS),
            places: cases::number::<2>(&bytes, 10).min(PLACES),
            copied: cases::number::<2>(&bytes, 12).min(CELLS),
            calls: cases::number::<2>(&bytes, 14),
            held: cases::number::<2>(&bytes, 16).min(CELLS),
            n: cases::number::<8>(&bytes, 24),
        }
    }
}

// What an answer tells, by the number that the header of a call has for it.
#[derive(Clone, Copy, PartialEq, Eq, Debug)]
enum Form {
    Refused = 0,
    Rounds = 1,
    Done = 2,
    Value = 3,
    Sizes = 4,
    Transition = 5,
    Nothing = 6,
    Outside = 7,
    Within = 8,
}

// An answer as the header of a call has it: its form, its number, and how many values were looked at, of sizes N. What is stored may be
// any numbers.
#[derive(Clone, Copy, PartialEq, Eq, Debug)]
struct Reply {
    form: u8,
    number: usize,
    looked: usize,
}

// A negative value is told as it stands in eight bytes.
impl fmt::Display for Reply {
    fn fmt<W: fmt::Write>(&self, f: &mut fmt::Formatter<W>) -> fmt::Result {
        let form = self.form;
        let number = self.number;
        let looked = self.looked;
        write!(f, "{form} {number} {looked}")
    }
}

impl Reply {
    // An answer whose number is all that it tells.
    fn plain(form: Form, number: usize) -> Reply {
        Reply {
            form: form as u8,
            number,
            looked: 0,
        }
    }

    // What was found, in the first form, or nothing, in the second.
    fn found(found: Option<usize>, form: Form, nothing: Form) -> Reply {
        match found {
            Some(number) => Reply::plain(form, number),
            None => Reply::plain(nothing, 0),
        }
    }
}

// The header of a call: whether it was read, the call, what it must answer, also as sizes, and n afterwards.
#[derive(Clone, Copy)]
struct Wanted {
    is_whole: bool,
    call: Call,
    reply: Reply,
    sizes: Sizes,
    n: usize,
}

// The stored entries of a history, two bytes each.
fn load_entries(stored: &[u8], entries: &mut [u16])
    requires { 2 * length entries.old ≤ length stored.now }
{
    for (entry, bytes) in entries.iter_mut().zip(stored.as_chunks::<2>().0) {
        *entry = u16::from_le_bytes(*bytes);
    }
}

// How many lists were carried out, and their calls; none by default.
#[derive(Clone, Copy, PartialEq, Eq, Debug, Default)]
struct Tally {
    lists: u64,
    calls: cases::Tally,
}

impl Tally {
    // With one list more.
    fn begun(self) -> Tally {
        let lists = self.lists.wrapping_add(1);
        Tally { lists, ..self }
    }

    // With one call more; one that differs is told.
    fn counted(self, rt: &impl Print, is_same: bool) -> io::Result<Tally> {
        let calls = self.calls.counted(is_same);
        if !is_same {
            println!(rt; "list {}, call {} differs", self.lists, calls.cases)?;
        }
        Ok(Tally { calls, ..self })
    }
}

// The stored call; a file holds bytes.
fn call_of(call: u8, number: usize) -> Call {
    match call {
        1 => Call::Start,
        2 => Call::Fire(number),
        3 => Call::Undo,
        4 => Call::Marks,
        5 => Call::Value(number),
        6 => Call::Pick,
        7 => Call::FirstOutside,
        _ => Call::Check,
    }
}

// The stored sizes.
fn sizes_of(head: &[u8; 32]) -> Sizes {
    Sizes {
        states: cases::number::<2>(head, 16),
        flows: cases::number::<2>(head, 18),
        events: cases::number::<2>(head, 20),
        transitions: cases::number::<2>(head, 22),
        nodes: cases::number::<2>(head, 2),
    }
}

// A value as a number of eight bytes.
fn value_number(value: i32) -> usize {
    i64::from(value).cast_unsigned() as usize
}

impl Wanted {
    // The next header of the file; past its end the bytes are 0.
    fn next(file: &mut impl Read) -> io::Result<Wanted> {
        let mut head = [0u8; 32];
        let is_whole = cases::is_read(file, &mut head)?;
        Ok(Wanted {
            is_whole,
            call: call_of(head[0], cases::number::<8>(&head, 8)),
            reply: Reply {
                form: head[1],
                number: cases::number::<8>(&head, 16),
                looked: cases::number::<2>(&head, 2),
            },
            sizes: sizes_of(&head),
            n: cases::number::<8>(&head, 24),
        })
    }

    // An answer that came, as a header has it. Sizes stand as they are stored here; others than these are 0.
    fn came(self, answer: Result<Answer, Refusal>) -> Reply {
        match answer {
            Err(refusal) => Reply::plain(Form::Refused, usize::from(refusal.number())),
            Ok(Answer::Rounds(count)) => Reply::plain(Form::Rounds, count),
            Ok(Answer::Done) => Reply::plain(Form::Done, 0),
            Ok(Answer::Number(value)) => Reply::plain(Form::Value, value_number(value)),
            Ok(Answer::Sizes(sizes)) if sizes == self.sizes => Reply {
                form: Form::Sizes as u8,
                ..self.reply
            },
            Ok(Answer::Sizes(_)) => Reply::plain(Form::Sizes, 0),
            Ok(Answer::Picked(found)) => Reply::found(found, Form::Transition, Form::Nothing),
            Ok(Answer::Outside(check)) => Reply {
                looked: check.looked,
                ..Reply::found(check.outside, Form::Outside, Form::Within)
            },
        }
    }
}

// Was the header read, and are the answer and n those in it? If not, both are told. The printer and the file stay two arguments here and
// below: each is of a type of its own, which a struct of both would have to name wherever it is lent.
fn is_wanted(
    rt: &impl Print,
    wanted: Wanted,
    answer: Result<Answer, Refusal>,
    n: usize,
) -> io::Result<bool> {
    let reply = wanted.reply;
    let came = wanted.came(answer);
    let after = wanted.n;
    if wanted.is_whole && came == reply && n == after {
        return Ok(true);
    }
    print!(rt; "wanted {reply} {after}; came {came} {n}; ")?;
    Ok(false)
}

impl Head {
    // The length of a store: its values, four bytes each, its marks, its history, two bytes each, and its buffer.
    fn store_length(self) -> usize
        ensures { result ≡ 4 * self.variables + self.held + 2 * self.places + self.copied }
    {
        4 * self.variables + self.held + 2 * self.places + self.copied
    }

    // The store in these bytes, its values and its history in these cells.
    fn store_in<'a>(
        self,
        bytes: &'a mut [u8; BYTES],
        values: &'a mut [i32; CELLS],
        history: &'a mut [u16; PLACES],
        n: &'a mut usize,
    ) -> Store<'a> {
        let (stored, rest) = bytes.split_at_mut(4 * self.variables);
        let (marks, rest) = rest.split_at_mut(self.held);
        let (entries, rest) = rest.split_at_mut(2 * self.places);
        let values = &mut values[..self.variables];
        let history = &mut history[..self.places];
        cases::load_values(stored, values);
        load_entries(entries, history);
        Store {
            values,
            marks,
            history,
            n,
            buffer: &mut rest[..self.copied],
        }
    }

    // Reads the store after a call, all of it; is everything lent as in it? If not, that is told.
    fn is_left(self, rt: &impl Print, file: &mut impl Read, store: &Store<'_>) -> io::Result<bool> {
        let mut bytes = [0u8; BYTES];
        let mut values = [0i32; CELLS];
        let mut history = [0u16; PLACES];
        let is_whole = cases::is_read(file, &mut bytes[..self.store_length()])?;
        let mut n = self.n;
        let stored = self.store_in(&mut bytes, &mut values, &mut history, &mut n);
        let is_same = is_whole
            && *store.values == *stored.values
            && *store.marks == *stored.marks
            && *store.history == *stored.history
            && *store.buffer == *stored.buffer;
        if !is_same {
            print!(rt; "a value, a mark, an entry or a byte of the buffer is another; ")?;
        }
        Ok(is_same)
    }

    // Carries out the next call of the file: are its answer, and all that is left, as stored?
    fn is_next_same(
        self,
        rt: &impl Print,
        file: &mut impl Read,
        model: &[u8],
        store: &mut Store<'_>,
    ) -> io::Result<bool> {
        let wanted = Wanted::next(file)?;
        let answer = run::perform(wanted.call, model, store);
        let is_answered = is_wanted(rt, wanted, answer, *store.n)?;
        Ok(self.is_left(rt, file, store)? & is_answered)
    }

    // All calls of a list, on one run.
    fn all_calls(
        self,
        rt: &impl Print,
        file: &mut impl Read,
        model: &[u8],
        mut store: Store<'_>,
        mut tally: Tally,
    ) -> io::Result<Tally> {
        for _ in 0..self.calls {
            let is_same = self.is_next_same(rt, file, model, &mut store)?;
            tally = tally.counted(rt, is_same)?;
        }
        Ok(tally)
    }

    // A list from the store at the beginning, on a run that is made of parts of local arrays, with the stored lengths.
    fn one_list(
        self,
        rt: &impl Print,
        file: &mut impl Read,
        model: &[u8],
        tally: Tally,
    ) -> io::Result<Tally> {
        let mut bytes = [0u8; BYTES];
        let mut values = [0i32; CELLS];
        let mut history = [0u16; PLACES];
        cases::is_read(file, &mut bytes[..self.store_length()])?;
        let mut n = self.n;
        let store = self.store_in(&mut bytes, &mut values, &mut history, &mut n);
        self.all_calls(rt, file, model, store, tally)
    }

    // Reads the model of a list and the twin, and carries the list out on one of them. A list whose models do not fit differs.
    fn next_list(
        self,
        rt: &impl Print,
        file: &mut impl Read,
        side: Side,
        tally: Tally,
    ) -> io::Result<Tally> {
        let mut models = [0u8; FILE_BYTES];
        let Some(models) = models.get_mut(..self.model + self.twin) else {
            return tally.counted(rt, false);
        };
        cases::is_read(file, models)?;
        let (model, twin) = models.split_at(self.model);
        match side {
            Side::Model => self.one_list(rt, file, model, tally),
            Side::Twin => self.one_list(rt, file, twin, tally),
        }
    }
}

// All lists of data/cases, on the models or on their twins, with the tally before them.
fn carried_out<R: Files + Print>(rt: &R, side: Side, mut tally: Tally) -> io::Result<Tally> {
    let mut file = File::open(rt, "cases")?;
    // It ends with the file; the number of turns is there since every function must end, whatever is read.
    for _ in 0..u64::MAX {
        let Some(head): Option<[u8; 32]> = cases::next_bytes(&mut file)? else {
            break;
        };
        tally = Head::from(head).next_list(rt, &mut file, side, tally.begun())?;
    }
    Ok(tally)
}

fn main(rt: HostRuntime) -> io::Result<()> {
    let models = carried_out(&rt, Side::Model, Tally::default())?;
    let both = carried_out(&rt, Side::Twin, models)?;
    println!(rt;
        "{} lists, {} calls, {} differ",
        models.lists, both.calls.cases, both.calls.differing
    )
}
