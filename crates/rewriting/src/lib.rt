// An old file, each of whose sizes S, F, E, T stands in one byte, in the layout that every call reads; and what gtswide prints of it.

#![tactic(auto)]

ghost use Rattle.std.specs.Prelude.{◌≡◌, length, take};
ghost use Rattle.results.specs.Results.{answered, over};
ghost use Rattle.model.specs.Check.{byte_verdict};
ghost use Rattle.lines.specs.Lines.{written_into};
ghost use Rattle.rewriting.specs.Rewriting.{rewritten_by, wide_into, wide_text, input_bytes, text_bytes};

use model::{Layout, Model, check};
use results::Refusal;
use tapes::Tape;

// Bytes kept of an old file: one more than an accepted one can have.
pub const INPUT_BYTES: usize = 20007;

// Room for all that is printed: the longest old file, rewritten.
pub const TEXT_BYTES: usize = 20010;

// The bytes of an old file's header.
const OLD_HEADER: usize = 6;

// Rewrites an old file to the beginning of `out`: its new length; or the old check's refusal, or 10 for a slice that is too short. Kinds
// and parameters stay as they are.
#[tactic(auto, using(crate::proofs::Writing::old_nodes, crate::proofs::Writing::old_length, crate::proofs::Writing::short_rewritten, crate::proofs::Writing::whole_rewritten))]
pub fn rewrite(old: &[u8], out: &mut [u8]) -> Result<usize, Refusal>
    ensures { answered result out.new ≡ rewritten_by old.now (byte_verdict old.now) out.old }
{
    let sizes = check::check_byte_layout(old)?;
    let length = Model::HEADER + Layout::NODE_WIDTH * sizes.nodes;
    if out.len() < length {
        return Err(Refusal::ShortSlice);
    }
    let mut file = Tape::new(out);
    encoding::put_header(&mut file, sizes);
    file.put(&old[OLD_HEADER..]);
    Ok(length)
}

// What gtswide prints of an old file, at the beginning of `out`, and how many bytes it is: the new file, or `no` and the old check's
// number; none, with nothing stored, if `out` is too short.
#[tactic(auto, unfolding(crate::specs::Rewriting::wide_into))]
pub fn wide_output(old: &[u8], out: &mut [u8]) -> Option<usize>
    ensures { written_into result out.new ≡ wide_into old.now (byte_verdict old.now) out.old }
{
    match rewrite(old, out) {
        Ok(length) => Some(length),
        Err(Refusal::ShortSlice) => None,
        Err(refusal) => lines::refusal_line(refusal.number(), out),
    }
}

// The same of the first bytes of an old file, which tell it (`RewriteOfKept`), with room for all that is printed.
pub fn wide_output_of_kept(
    file: &[u8; INPUT_BYTES],
    bytes: usize,
    out: &mut [u8; TEXT_BYTES],
) -> usize
    ensures lengths { (length file.now ≡ input_bytes) × (length out.new ≡ text_bytes) }
    ensures printed { answered result out.new
        ≡ answered (length (wide_text (take bytes file.now))) (over (wide_text (take bytes file.now)) out.old) }
{
    let old = &file[..bytes.min(INPUT_BYTES)];
    wide_output(old, out).unwrap_or(0)
}
