// Lines of the program's output, written into lent slices.

#![tactic(auto)]

ghost use Rattle.std.specs.Prelude.{◌≡◌, None, [], ◌∷◌, ◌++◌, map, ◌+◌, ◌*◌, ◌≤◌, ◌<◌, ltb, length, ℕ, List, option_to_list};
ghost use Rattle.std.proofs.Common.{rules};
ghost use Rattle.ascii.specs.Ascii.{space_byte};
ghost use Rattle.lines.specs.Lines.{decimal, signed_decimal, spaced, line, ok_text, back_text, marks_text, refusal_text};
ghost use Rattle.lines.specs.Lines.{base_width, room, value_width, mark_width, written_into, line_into};
ghost use Rattle.tapes.specs.Tapes.{tape_in, put_all};

use itoa::{Buffer, Integer};
use tapes::Tape;

// What a line has beside its values or marks: `ok`, a space, 20 digits and the line feed.
pub const BASE_WIDTH: usize = 24;

// A number that stands in a line after a space.
pub trait Field: Copy {
    // The most bytes of the space and the number.
    const WIDTH: usize;

    ghost WIDTH: { ℕ };

    ghost text: { Self → List ℕ };

    // Writes a space and the number.
    fn put(self, tape: &mut Tape<'_, u8>)
        ensures put { tape_in tape.new ≡ put_all (space_byte ∷ text self) (tape_in tape.old) }
        ensures upper_bound { length (space_byte ∷ text self) ≤ WIDTH }
        ensures same_cells { tape.new.cells.ghost_name ≡ tape.old.cells.ghost_name };

    ghost is_some_width: { 0 < WIDTH };
}

// A value: a sign and at most 10 digits.
impl Field for i32 {
    const WIDTH: usize = 12;

    ghost WIDTH = { value_width };

    ghost text = { signed_decimal };

    ghost is_some_width = { Prim.search rules };

    #[tactic(auto, using(crate::proofs::Decimal::printed_signed, crate::proofs::Room::signed_length))]
    fn put(self, tape: &mut Tape<'_, u8>) {
        put_number(self, tape); // its sign too
    }
}

// A mark: at most 3 digits.
impl Field for u8 {
    const WIDTH: usize = 4;

    ghost WIDTH = { mark_width };

    ghost text = { decimal };

    ghost is_some_width = { Prim.search rules };

    #[tactic(auto, using(crate::proofs::Decimal::printed_decimal, crate::proofs::Room::byte_length))]
    fn put(self, tape: &mut Tape<'_, u8>) {
        put_number(self, tape);
    }
}

// Writes a space and the number.
#[tactic(auto, unfolding(tapes::specs::Tapes::put_all))]
fn put_number<N: Integer>(n: N, tape: &mut Tape<'_, u8>)
    ensures put { tape_in tape.new ≡ put_all (space_byte ∷ N.text n) (tape_in tape.old) }
    ensures same_cells { tape.new.cells.ghost_name ≡ tape.old.cells.ghost_name }
{
    tape.put_one(b' ');
    tape.put(Buffer::new().format(n).as_bytes());
}

// Writes the number, if there is one, after a space.
#[tactic(auto, using(crate::proofs::Lines::nothing_put))]
fn put_some(number: Option<usize>, tape: &mut Tape<'_, u8>)
    ensures put { tape_in tape.new ≡ put_all (spaced (map decimal (option_to_list number))) (tape_in tape.old) }
    ensures same_cells { tape.new.cells.ghost_name ≡ tape.old.cells.ghost_name }
{
    if let Some(n) = number {
        put_number(n, tape);
    }
}

// Writes each field after a space.
#[tactic(auto, using(crate::proofs::Taping::all_put))]
fn put_fields<T: Field>(fields: &[T], tape: &mut Tape<'_, u8>)
    ensures put { tape_in tape.new ≡ put_all (spaced (map T.text fields.now)) (tape_in tape.old) }
    ensures upper_bound { length (spaced (map T.text fields.now)) ≤ T.WIDTH * length fields.now }
    ensures same_cells { tape.new.cells.ghost_name ≡ tape.old.cells.ghost_name }
{
    for field in fields {
        field.put(tape);
    }
}

// Is a slice of this length too short for a line with so many numbers of this width?
#[tactic(auto, using(crate::proofs::Room::short_of_header, crate::proofs::Room::enough_for_none, crate::proofs::Room::short_of_numbers))]
pub fn is_short_for(length: usize, width: usize, number: usize) -> bool
    ensures { result ≡ ltb length (room width number) }
{
    if length < BASE_WIDTH {
        return true;
    }
    if width == 0 {
        return false;
    }
    (length - BASE_WIDTH) / width < number
}

// Is a slice of this length too short for a line with so many fields?
pub fn is_short<T: Field>(length: usize, number: usize) -> bool
    ensures { result ≡ ltb length (room T.WIDTH number) }
{
    is_short_for(length, T::WIDTH, number)
}

// A word, a number, if there is one, and fields: how many bytes the line has; none, with nothing stored, if the slice is too
// short.
#[tactic(auto, using(crate::proofs::Lines::too_short_lem))]
fn write_line<T: Field>(
    word: &[u8],
    number: Option<usize>,
    fields: &[T],
    out: &mut [u8],
) -> Option<usize>
    requires { length word.now + length (spaced (map decimal (option_to_list number))) < base_width }
    ensures { written_into result out.new ≡ line_into (room T.WIDTH (length fields.now))
        (line word.now (map decimal (option_to_list number) ++ map T.text fields.now)) out.old }
{
    if is_short::<T>(out.len(), fields.len()) {
        return None;
    }
    let mut tape = Tape::new(out);
    tape.put(word);
    put_some(number, &mut tape);
    put_fields(fields, &mut tape);
    tape.put_one(b'\n');
    Some(tape.at)
}

// `ok`, the round count, the values.
#[tactic(auto, using(crate::proofs::Lines::ok_fits), unfolding(crate::specs::Lines::ok_text))]
pub fn ok_line(count: usize, values: &[i32], out: &mut [u8]) -> Option<usize>
    ensures { written_into result out.new ≡ line_into (room value_width (length values.now)) (ok_text count values.now) out.old }
{
    write_line(b"ok", Some(count), values, out)
}

// `back`, the values.
#[tactic(auto, unfolding(crate::specs::Lines::back_text, crate::specs::Lines::spaced))]
pub fn back_line(values: &[i32], out: &mut [u8]) -> Option<usize>
    ensures { written_into result out.new ≡ line_into (room value_width (length values.now)) (back_text values.now) out.old }
{
    write_line(b"back", None, values, out)
}

// `m`, the marks.
#[tactic(auto, unfolding(crate::specs::Lines::marks_text, crate::specs::Lines::spaced))]
pub fn marks_line(marks: &[u8], out: &mut [u8]) -> Option<usize>
    ensures { written_into result out.new ≡ line_into (room mark_width (length marks.now)) (marks_text marks.now) out.old }
{
    write_line(b"m", None, marks, out)
}

// `no`, the number.
#[tactic(auto, using(crate::proofs::Lines::refusal_fits), unfolding(crate::specs::Lines::refusal_text))]
pub fn refusal_line(number: u8, out: &mut [u8]) -> Option<usize>
    ensures { written_into result out.new ≡ line_into (room mark_width 0) (refusal_text number) out.old }
{
    write_line::<u8>(b"no", Some(usize::from(number)), &[], out)
}
