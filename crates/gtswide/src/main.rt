// Reads an old model file on standard input and writes it to standard output in the layout that every call reads; or `no` and the number
// of the old check's refusal.

#![tactic(auto)]

use rewriting::{INPUT_BYTES, TEXT_BYTES};
use std::io;

fn main(rt: HostRuntime) -> io::Result<()> {
    let mut old = [0u8; INPUT_BYTES];
    let mut out = [0u8; TEXT_BYTES];
    // A read that fails is the end: the bytes before it count.
    let bytes = filling::fill(&mut rt.reader(), &mut old).unwrap_or_else(|count| count);
    let length = rewriting::wide_output_of_kept(&old, bytes, &mut out);
    rt.write_all(&out[..length])
}
