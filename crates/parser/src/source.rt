// A text and its words.

ghost use Rattle.std.specs.Prelude.{◌≤◌, length};

use kinds::Sort;

// A text of at most 200 bytes, and the sorts of its variables.
#[derive(Clone, Copy)]
pub struct Source<'a> {
    pub text: &'a [u8],
    pub sorts: &'a [Sort],
    ghost short: { length text.now ≤ 200 },
    ghost few: { length sorts.now ≤ 4294967295 },
}
