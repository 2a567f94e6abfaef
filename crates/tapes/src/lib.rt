// Cells that are written one after another.

#![tactic(auto)]

ghost use Rattle.std.specs.Prelude.{◌≡◌, ◌+◌, ◌≤◌, leb, length};
ghost use Rattle.tapes.specs.Tapes.{tape, tape_in, put, put_all};

// Cells that are written one after another. Past the last cell nothing is written.
#[derive(Drop)]
pub struct Tape<'a, T> {
    pub cells: &'a mut [T],
    pub at: usize,
}

impl<'a, T> Tape<'a, T> {
    // The cells, to be written from the first on.
    pub fn new(cells: &'a mut [T]) -> Tape<'a, T>
        ensures begun { tape_in result ≡ tape cells.old 0 }
        ensures same_cells { result.cells.ghost_name ≡ cells.entry.ghost_name }
    {
        Tape { cells, at: 0 }
    }
}

impl<T: Copy> Tape<'_, T> {
    // Is no cell left?
    pub fn is_full(&self) -> bool
        ensures { result ≡ leb (length self.now.cells.now) self.now.at }
    {
        self.cells.len() <= self.at
    }

    // Writes what is given into the next cells, as much of it as has room.
    #[tactic(auto, using(crate::proofs::Tapes::put_none, crate::proofs::Tapes::put_first))]
    pub fn put(&mut self, items: &[T])
        ensures put { tape_in self.new ≡ put_all items.now (tape_in self.old) }
        ensures same_cells { self.new.cells.ghost_name ≡ self.old.cells.ghost_name }
    {
        if self.is_full() {
            return;
        }
        let room = self.cells.len() - self.at;
        if items.len() <= room {
            self.put_fitting(items);
        } else {
            self.put_fitting(&items[..room]);
        }
    }

    // Writes items that have room, with no test for each. A function of its own: where the caller's length is known, so is that of this
    // copy, and a few bytes are a store.
    #[tactic(auto, using(crate::proofs::Tapes::put_part))]
    fn put_fitting(&mut self, items: &[T])
        requires { self.old.at + length items.now ≤ length self.old.cells.now }
        ensures put { tape_in self.new ≡ put_all items.now (tape_in self.old) }
        ensures same_cells { self.new.cells.ghost_name ≡ self.old.cells.ghost_name }
    {
        let past = self.at + items.len();
        results::copy(items, &mut self.cells[self.at..past]);
        self.at = past;
    }

    // Writes one item into the next cell, if there is one. By a test and an index: `get_mut` was tried, and of a slice that it has lent from
    // a proof knows the length afterwards and no cell.
    #[tactic(auto, using(crate::proofs::Tapes::put_here, crate::proofs::Tapes::put_past))]
    pub fn put_one(&mut self, item: T)
        ensures put { tape_in self.new ≡ put item (tape_in self.old) }
        ensures same_cells { self.new.cells.ghost_name ≡ self.old.cells.ghost_name }
    {
        if self.at < self.cells.len() {
            self.cells[self.at] = item;
            self.at += 1;
        }
    }
}
