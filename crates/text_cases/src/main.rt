// Types the stored texts of data/cases beside their models, and compares every answer and every cell lent with those stored.
//
// A case is a header of 16 bytes and a body; numbers stand low byte first. Header: the wanted refusal (0 for none), the byte that
// every cell of kinds holds before, the lengths of the model, of the text and of the two slices lent, and the number of nodes
// wanted (two bytes each), and the number that every cell of parameters holds before (four bytes). The body: the model, the text,
// the kinds of the nodes and their parameters, a parameter in four bytes. Every cell past the nodes must hold what it held before;
// of a refusal no node is stored.

#![tactic(auto)]

ghost use Rattle.std.specs.Prelude.{◌≡◌, ◌+◌, ◌*◌, ◌<◌, length};

use cases::Case;
use results::Refusal;
use std::fs::File;
use std::io;

// The most cells of a slice lent.
const CELLS: usize = 512;

// The header of a case.
#[derive(Clone, Copy)]
struct Head {
    refusal: u8,
    kind: u8,
    model: usize,
    text: usize,
    kinds: usize,
    parameters: usize,
    nodes: usize,
    parameter: i32,
    ghost two_bytes: { (model < 65536) × (text < 65536) × (nodes < 65536) },
}

impl From<[u8; 16]> for Head {
    fn from(bytes: [u8; 16]) -> Head {
        Head {
            refusal: bytes[0],
            kind: bytes[1],
            model: cases::number::<2>(&bytes, 2),
            text: cases::number::<2>(&bytes, 4),
            kinds: cases::number::<2>(&bytes, 6),
            parameters: cases::number::<2>(&bytes, 8),
            nodes: cases::number::<2>(&bytes, 10),
            parameter: cases::signed(&bytes, 12),
        }
    }
}

// The answer of a case is the number of its nodes.
impl Case<16> for Head {
    ghost size = { λ head. head.model + head.text + 5 * head.nodes };

    fn body_length(self) -> usize {
        self.model + self.text + 5 * self.nodes
    }

    // Types the text into two slices of the stored lengths, whose cells hold the stored numbers before. False where there is no such
    // case.
    fn is_as_stored<R: Print>(self, rt: &R, body: &[u8]) -> io::Result<bool> {
        if CELLS < self.kinds || CELLS < self.parameters {
            return Ok(false);
        }
        let mut kinds = [self.kind; CELLS];
        let mut parameters = [self.parameter; CELLS];
        let kinds = &mut kinds[..self.kinds];
        let parameters = &mut parameters[..self.parameters];
        let (model, rest) = body.split_at(self.model);
        let (text, stored) = rest.split_at(self.text);
        let (stored_kinds, stored_parameters) = stored.split_at(self.nodes);
        let answer = texts::write_nodes(model, text, kinds, parameters).map_err(Refusal::number);
        let wanted = cases::wanted(self.refusal, self.nodes);
        Ok(
            cases::is_wanted(rt, "nodes", wanted, answer)?
                && cases::is_stored(rt, "kind", kinds, stored_kinds, self.kind)?
                && self.has_parameters(rt, stored_parameters, parameters)?,
        )
    }
}

impl Head {
    // Are the parameters as stored, four bytes each? If not, that is told.
    fn has_parameters<R: Print>(self, rt: &R, stored: &[u8], parameters: &[i32]) -> io::Result<bool>
        requires { length stored.now ≡ 4 * self.nodes }
    {
        let mut wanted = [0i32; CELLS];
        let Some(wanted) = wanted.get_mut(..self.nodes) else {
            return Ok(false);
        };
        cases::load_values(stored, wanted);
        cases::is_stored(rt, "parameter", parameters, wanted, self.parameter)
    }
}

fn main(rt: HostRuntime) -> io::Result<()> {
    let mut file = File::open(&rt, "cases")?;
    let mut buffer = [0u8; 24576];
    cases::run(&rt, "texts", || {
        cases::next_case::<16, Head, _, _>(&rt, &mut file, &mut buffer)
    })
}
