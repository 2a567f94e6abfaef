// Synchronises the stored lists of transitions of data/cases, each in its model, and compares every answer and every cell lent with
// those stored.
//
// A case is a header of 16 bytes and a body; numbers stand low byte first. Header: the wanted refusal (0 for none), the byte that
// every cell of the slice lent holds before, the length of the model, the numbers of mandatory and of optional members, the length
// of the slice lent, and the length of the new model that is wanted (two bytes each), then four bytes of 0. The body: the model, the
// mandatory and the optional members, eight bytes each, and the new model. Every cell past it must hold what it held before; of a
// refusal no byte is stored.

#![tactic(auto)]

ghost use Rattle.std.specs.Prelude.{◌≡◌, ◌+◌, ◌*◌, ◌<◌, ◌≤◌, length};

use cases::Case;
use results::Refusal;
use std::fs::File;
use std::io;

// The most members of a list.
const MEMBERS: usize = 64;

// The most cells of the slice lent.
const CELLS: usize = 60416;

// The header of a case.
#[derive(Clone, Copy)]
struct Head {
    refusal: u8,
    byte: u8,
    model: usize,
    mandatory: usize,
    optional: usize,
    lent: usize,
    file: usize,
    ghost two_bytes: { (model < 65536) × (mandatory < 65536) × (optional < 65536) × (file < 65536) },
}

impl From<[u8; 16]> for Head {
    fn from(bytes: [u8; 16]) -> Head {
        Head {
            refusal: bytes[0],
            byte: bytes[1],
            model: cases::number::<2>(&bytes, 2),
            mandatory: cases::number::<2>(&bytes, 4),
            optional: cases::number::<2>(&bytes, 6),
            lent: cases::number::<2>(&bytes, 8),
            file: cases::number::<2>(&bytes, 10),
        }
    }
}

// The stored members, eight bytes each.
fn load_members(stored: &[u8], members: &mut [usize])
    requires { 8 * length members.old ≤ length stored.now }
{
    for (member, bytes) in members.iter_mut().zip(stored.as_chunks::<8>().0) {
        *member = u64::from_le_bytes(*bytes) as usize;
    }
}

// The answer of a case is the length of the new model.
impl Case<16> for Head {
    ghost size = { λ head. head.model + 8 * head.mandatory + 8 * head.optional + head.file };

    fn body_length(self) -> usize {
        self.model + 8 * self.mandatory + 8 * self.optional + self.file
    }

    // Synchronises the members into a slice of the stored length, whose cells hold the stored byte before. False where there is no such
    // case.
    fn is_as_stored<R: Print>(self, rt: &R, body: &[u8]) -> io::Result<bool> {
        if MEMBERS < self.mandatory || MEMBERS < self.optional || CELLS < self.lent {
            return Ok(false);
        }
        let mut mandatory = [0usize; MEMBERS];
        let mut optional = [0usize; MEMBERS];
        let mut out = [self.byte; CELLS];
        let mandatory = &mut mandatory[..self.mandatory];
        let optional = &mut optional[..self.optional];
        let out = &mut out[..self.lent];
        let (model, rest) = body.split_at(self.model);
        let (first, rest) = rest.split_at(8 * self.mandatory);
        let (second, file) = rest.split_at(8 * self.optional);
        load_members(first, mandatory);
        load_members(second, optional);
        let answer = synchronisation::synchronise(model, mandatory, optional, out);
        let wanted = cases::wanted(self.refusal, self.file);
        Ok(
            cases::is_wanted(rt, "length", wanted, answer.map_err(Refusal::number))?
                && cases::is_stored(rt, "byte", out, file, self.byte)?,
        )
    }
}

fn main(rt: HostRuntime) -> io::Result<()> {
    let mut file = File::open(&rt, "cases")?;
    let mut buffer = [0u8; 122880];
    cases::run(&rt, "joins", || {
        cases::next_case::<16, Head, _, _>(&rt, &mut file, &mut buffer)
    })
}
