// A tree with a parameter for each kind. One handed outside a model may have fewer or more, and is refused (`Tree`).

ghost use Rattle.std.specs.Prelude.{◌≡◌, length};

// The kind of each node in prefix order, and its parameter.
#[derive(Clone, Copy)]
pub struct WholeTree<'a> {
    pub kinds: &'a [u8],
    pub parameters: &'a [i32],
    pub ghost whole: { length parameters.now ≡ length kinds.now },
}
