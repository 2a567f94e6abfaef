// Reading a source until cells are full.

#![tactic(auto)]

ghost use Rattle.std.specs.Prelude.{◌≤◌, ◌<◌, length, take, IfOk};
ghost use Rattle.std.specs.Io.KnownBytes.{Consumes, IsAtEnd};
ghost use Rattle.filling.specs.Filled.{count_of};

use std::io::Read;

// Reads until the slice is full or the source ends; how many bytes were read, which stand in the first cells. As an error, where a read
// failed after so many; that an error comes of a failed read alone is not promised, since std's contracts have no word for it. The cells
// past the count are the source's to write.
#[tactic(auto, unfolding(crate::specs::Filled::count_of))]
pub fn fill<R: Read>(source: &mut R, bytes: &mut [u8]) -> Result<usize, usize>
    ensures within { count_of result ≤ length bytes.new }
    ensures read { Consumes (R.remaining source.old) (R.remaining source.new) (take (count_of result) bytes.new) }
    ensures ended { IfOk result (λ count. count < length bytes.new → IsAtEnd (R.remaining source.new)) }
{
    let mut filled = 0;
    // A read tells how many bytes came; no method of the library tells that of a source that ends early.
    while filled < bytes.len() {
        match source.read(&mut bytes[filled..]) {
            Ok(0) => return Ok(filled),
            Ok(count) => filled += count,
            Err(_) => return Err(filled),
        }
    }
    Ok(filled)
}
