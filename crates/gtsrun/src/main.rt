// Reads the model in the file model.gts, starts it and answers the lines of standard input.

#![tactic(auto)]

use dialogue::{Dialogue, Program};
use std::fs::File;
use std::io;
use std::io::Read;
use std::rt::Files;

// Bytes of the input read at a time.
const PART: usize = 4096;

// The first bytes of the file; none if it cannot be opened or read.
fn read_model(files: &impl Files, file: &mut [u8; Program::FILE_BYTES]) -> usize {
    match File::open(files, "model.gts") {
        Ok(mut source) => filling::fill(&mut source, file).unwrap_or(0),
        Err(_) => 0,
    }
}

// Answers each line that a part of the input ends. The stored programs are compared by the same loop; one function of both over a closure
// would owe a contract over its calls, which is longer than the two.
fn answer_part(rt: &impl Print, dialogue: &mut Dialogue, part: &[u8]) -> io::Result<()> {
    let mut at = 0;
    while at < part.len() {
        at = dialogue.take_line(part, at);
        rt.write_all(dialogue.printed())?;
    }
    Ok(())
}

// Answers the lines of standard input.
fn answer_all<R: Input + Print>(rt: &R, dialogue: &mut Dialogue) -> io::Result<()> {
    let mut input = rt.reader();
    let mut part = [0u8; PART];
    // It ends with the input; the number of turns is there since every function must end, whatever is read.
    for _ in 0..u64::MAX {
        // A read that fails is the end.
        let count = input.read(&mut part).unwrap_or(0);
        if count == 0 {
            break;
        }
        answer_part(rt, dialogue, &part[..count])?;
    }
    dialogue.close();
    rt.write_all(dialogue.printed())
}

// Reads the model, starts the run and, unless that is refused, answers the input.
fn main(rt: HostRuntime) -> io::Result<()> {
    let mut dialogue = Dialogue::empty();
    let bytes = read_model(&rt, &mut dialogue.file);
    let is_started = dialogue.open(bytes);
    rt.write_all(dialogue.printed())?;
    if is_started {
        answer_all(&rt, &mut dialogue)?;
    }
    Ok(())
}
