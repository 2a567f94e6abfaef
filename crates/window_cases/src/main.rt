// Asks the stored questions of data/cases, each of its log, with its model and with the model's shuffled twin, and compares every answer
// and every cell lent with those stored.
//
// A case is a header of 32 bytes and a body; numbers stand low byte first. Header: the wanted refusal (0 for none), a byte of 0, the
// length of the model, how many kinds and parameters the condition has and how many the number has, the lengths of the log and of the
// slice lent, how many rows are wanted, and the length of the twin (two bytes each), the number that every cell of the slice holds
// before (four bytes), and how many rows a window has (eight bytes). The body: the model, the twin, the kinds of the condition and of
// the number, and then in four bytes each the log, the parameters of both and the figures, three for each row. Every cell past the figures
// must hold what it held before; of a refusal no figure is stored.

#![tactic(auto)]

ghost use Rattle.std.specs.Prelude.{◌≡◌, ◌+◌, ◌*◌, ◌<◌, length};

use cases::Case;
use results::Refusal;
use std::fs::File;
use std::io;
use syntax::Tree;
use windows::Question;

// The most cells of the slice lent.
const CELLS: usize = 15104;

// The most values, parameters and figures of a case.
const VALUES: usize = 20480;

// The header of a case.
#[derive(Clone, Copy)]
struct Head {
    refusal: u8,
    model: usize,
    condition_kinds: usize,
    condition_parameters: usize,
    number_kinds: usize,
    number_parameters: usize,
    log: usize,
    lent: usize,
    rows: usize,
    twin: usize,
    fill: i32,
    window: usize,
    ghost bytes: { (model < 65536) × (twin < 65536) × (condition_kinds < 65536) × (number_kinds < 65536) },
    ghost values: { (log < 65536) × (condition_parameters < 65536) × (number_parameters < 65536) × (rows < 65536) },
}

impl From<[u8; 32]> for Head {
    fn from(bytes: [u8; 32]) -> Head {
        Head {
            refusal: bytes[0],
            model: cases::number::<2>(&bytes, 2),
            condition_kinds: cases::number::<2>(&bytes, 4),
            condition_parameters: cases::number::<2>(&bytes, 6),
            number_kinds: cases::number::<2>(&bytes, 8),
            number_parameters: cases::number::<2>(&bytes, 10),
            log: cases::number::<2>(&bytes, 12),
            lent: cases::number::<2>(&bytes, 14),
            rows: cases::number::<2>(&bytes, 16),
            twin: cases::number::<2>(&bytes, 18),
            fill: cases::signed(&bytes, 20),
            window: cases::number::<8>(&bytes, 24),
        }
    }
}

impl Head {
    // How many values, parameters and figures the body has.
    fn count_values(self) -> usize
        ensures { result ≡ self.log + self.condition_parameters + self.number_parameters + 3 * self.rows }
    {
        self.log + self.condition_parameters + self.number_parameters + 3 * self.rows
    }

    // Asks the question with a slice of the stored length, whose cells hold the stored number before. Is it reported as stored? If not,
    // that is told. Not inlined: the slices of both calls would stand on the stack at once.
    #[inline(never)]
    fn is_reported<R: Print>(
        self,
        rt: &R,
        model: &[u8],
        question: &Question<'_>,
        figures: &[i32],
    ) -> io::Result<bool> {
        let mut out = [self.fill; CELLS];
        let Some(out) = out.get_mut(..self.lent) else {
            return Ok(false);
        };
        let answer = windows::report(model, question, out).map_err(Refusal::number);
        let wanted = cases::wanted(self.refusal, self.rows);
        Ok(
            cases::is_wanted(rt, "rows", wanted, answer)?
                && cases::is_stored(rt, "figure", out, figures, self.fill)?,
        )
    }
}

// The answer of a case is the number of its rows.
impl Case<32> for Head {
    ghost size = { λ head. head.model + head.twin + head.condition_kinds + head.number_kinds
        + 4 * (head.log + head.condition_parameters + head.number_parameters + 3 * head.rows) };

    fn body_length(self) -> usize {
        self.model + self.twin + self.condition_kinds + self.number_kinds + 4 * self.count_values()
    }

    // Asks the question with the model, and then with the twin. False where there is no such case.
    fn is_as_stored<R: Print>(self, rt: &R, body: &[u8]) -> io::Result<bool> {
        let mut values = [0i32; VALUES];
        let Some(values) = values.get_mut(..self.count_values()) else {
            return Ok(false);
        };
        let (model, rest) = body.split_at(self.model);
        let (twin, rest) = rest.split_at(self.twin);
        let (condition_kinds, rest) = rest.split_at(self.condition_kinds);
        let (number_kinds, stored) = rest.split_at(self.number_kinds);
        cases::load_values(stored, values);
        let (log, rest) = values.split_at(self.log);
        let (condition_parameters, rest) = rest.split_at(self.condition_parameters);
        let (number_parameters, figures) = rest.split_at(self.number_parameters);
        let question = Question {
            condition: Tree {
                kinds: condition_kinds,
                parameters: condition_parameters,
            },
            number: Tree {
                kinds: number_kinds,
                parameters: number_parameters,
            },
            window: self.window,
            log,
        };
        Ok(
            self.is_reported(rt, model, &question, figures)?
                && self.is_reported(rt, twin, &question, figures)?,
        )
    }
}

fn main(rt: HostRuntime) -> io::Result<()> {
    let mut file = File::open(&rt, "cases")?;
    let mut buffer = [0u8; 122880];
    cases::run(&rt, "logs", || {
        cases::next_case::<32, Head, _, _>(&rt, &mut file, &mut buffer)
    })
}
