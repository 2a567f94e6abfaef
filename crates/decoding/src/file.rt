// A model file that the check accepts.

ghost use Rattle.std.specs.Prelude.{◌≡◌, Ok};
ghost use Rattle.model.specs.Check.{verdict, answer_of};

use model::Sizes;

// The bytes of a file, and the sizes that its check told.
#[derive(Clone, Copy)]
pub struct AcceptedFile<'a> {
    pub bytes: &'a [u8],
    pub sizes: Sizes,
    pub ghost accepted: { answer_of (verdict bytes.now) ≡ Ok sizes },
}
