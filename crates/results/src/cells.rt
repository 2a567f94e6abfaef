// Items that are copied into cells.

ghost use Rattle.std.specs.Prelude.{◌≡◌, length};

// The cells become these items, one by one: of slices that are lent `copy_from_slice` would have the archive for C need `memmove`.
pub fn copy<T: Copy>(items: &[T], cells: &mut [T])
    requires { length cells.old ≡ length items.now }
    ensures { cells.new ≡ items.now }
{
    for (i, item) in items.iter().enumerate() {
        cells[i] = *item;
    }
}
