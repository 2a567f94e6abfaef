// Rewrites the stored old files of data/cases as gtswide does, and compares what it prints, and every cell lent, with what is stored.
//
// A case is the lengths of a file and of an output (four bytes each, low byte first), and these two. Every cell past the output must
// hold what it held before.

#![tactic(auto)]

ghost use Rattle.std.specs.Prelude.{◌≡◌, ◌+◌, ◌^◌, ◌<◌, length};

use cases::Case;
use rewriting::{INPUT_BYTES, TEXT_BYTES};
use std::fs::File;
use std::io;

// The byte that every cell lent holds before.
const FILL: u8 = 170;

// The header of a case: the lengths of the file and of the output.
#[derive(Clone, Copy)]
struct Head {
    file: usize,
    output: usize,
    ghost four_bytes: { (file < 2 ^ 32) × (output < 2 ^ 32) },
}

impl From<[u8; 8]> for Head {
    fn from(bytes: [u8; 8]) -> Head {
        Head {
            file: cases::number::<4>(&bytes, 0),
            output: cases::number::<4>(&bytes, 4),
        }
    }
}

// Stores the first bytes of a file, as gtswide keeps them of its input; how many.
fn keep(file: &[u8], old: &mut [u8; INPUT_BYTES]) -> usize {
    let bytes = file.len().min(INPUT_BYTES);
    old[..bytes].copy_from_slice(&file[..bytes]);
    bytes
}

// The answer of a case is the length of the output.
impl Case<8> for Head {
    ghost size = { λ head. head.file + head.output };

    fn body_length(self) -> usize {
        self.file + self.output
    }

    fn is_as_stored<R: Print>(self, rt: &R, body: &[u8]) -> io::Result<bool> {
        let mut old = [0u8; INPUT_BYTES];
        let mut out = [FILL; TEXT_BYTES];
        let (file, wanted) = body.split_at(self.file);
        let bytes = keep(file, &mut old);
        let length = rewriting::wide_output_of_kept(&old, bytes, &mut out);
        Ok(
            cases::is_wanted(rt, "length", Ok(self.output), Ok(length))?
                && cases::is_stored(rt, "byte", &out, wanted, FILL)?,
        )
    }
}

fn main(rt: HostRuntime) -> io::Result<()> {
    let mut source = File::open(&rt, "cases")?;
    let mut body = [0u8; 65536];
    cases::run(&rt, "files", || {
        cases::next_case::<8, Head, _, _>(&rt, &mut source, &mut body)
    })
}
