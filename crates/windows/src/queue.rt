// A queue of rows in a ring, which holds the rows of the widest window.

#![tactic(auto)]

ghost use Rattle.std.specs.Prelude.{◌≡◌, ◌+◌, ◌<◌, ◌^◌, ◌++◌, [], ◌∷◌, length, is_some};
ghost use Rattle.windows.specs.Logs.{max_window};
ghost use Rattle.windows.specs.Figures.{value_in};
ghost use Rattle.windows.specs.Sliding.{with_true, without, front_value};
ghost use Rattle.windows.specs.Lent.{Fits, held, place_after, yielded, yielding_to, one_more_if};

use crate::MAX_WINDOW;
use evaluation::Evaluation;

// A row that has entered a queue: its number, and its value.
#[derive(Clone, Copy)]
pub struct Entry {
    pub row: usize,
    pub value: i32,
}

// The entries stand in a ring from place `first` on, as many as have entered and not departed.
#[derive(Drop)]
pub struct Queue {
    pub entries: [Entry; MAX_WINDOW],
    pub first: usize,
    pub entered: usize,
    pub departed: usize,
}

impl Queue {
    pub const EMPTY: Queue = Queue {
        entries: [Entry { row: 0, value: 0 }; MAX_WINDOW],
        first: 0,
        entered: 0,
        departed: 0,
    };

    // How many entries it holds.
    pub fn len(&self) -> usize
        requires { Fits self.now }
        ensures { result ≡ length (held self.now) }
    {
        self.entered - self.departed
    }

    // The place in the ring that has so many before it.
    fn place(&self, before: usize) -> usize
        requires { (self.now.first < max_window) × (before < max_window) }
        ensures { result ≡ place_after self.now.first before }
    {
        let at = self.first + before;
        if at < MAX_WINDOW { at } else { at - MAX_WINDOW }
    }

    // The value of the oldest entry.
    pub fn front_value(&self) -> Option<i32>
        requires { Fits self.now }
        ensures { result ≡ front_value (held self.now) }
    {
        if self.departed < self.entered {
            Some(self.entries[self.first].value)
        } else {
            None
        }
    }

    // The row leaves at the front, if it is still there.
    pub fn leave(&mut self, row: usize)
        requires { Fits self.old }
        ensures left { held self.new ≡ without row (held self.old) }
        ensures fits { Fits self.new }
        ensures same { self.new.entered ≡ self.old.entered }
    {
        if self.departed < self.entered && self.entries[self.first].row == row {
            self.first = self.place(1);
            self.departed += 1;
        }
    }

    // The entries at the back leave that this value reaches.
    fn give_way(&mut self, value: i32)
        requires { Fits self.old }
        ensures left { held self.new ≡ yielded value (held self.old) }
        ensures fits { Fits self.new }
        ensures same { self.new.entered ≡ self.old.entered }
    {
        while self.departed < self.entered {
            let last = self.place(self.len() - 1);
            if value < self.entries[last].value {
                return;
            }
            self.departed += 1;
        }
    }

    // An entry enters at the back.
    fn enter(&mut self, entry: Entry)
        requires { Fits self.old × (length (held self.old) < max_window) × (self.old.entered + 1 < 2 ^ 64) }
        ensures entered { held self.new ≡ held self.old ++ (entry ∷ []) }
        ensures fits { Fits self.new }
        ensures once { self.new.entered ≡ self.old.entered + 1 }
    {
        let place = self.place(self.len());
        self.entries[place] = entry;
        self.entered += 1;
    }

    // A row enters where the condition is true.
    pub fn enter_true(&mut self, row: usize, truth: bool)
        requires { Fits self.old × (length (held self.old) < max_window) × (self.old.entered + 1 < 2 ^ 64) }
        ensures entered { held self.new ≡ with_true row truth (held self.old) }
        ensures fits { Fits self.new }
        ensures once { self.new.entered ≡ one_more_if truth self.old.entered }
    {
        if truth {
            self.enter(Entry { row, value: 0 });
        }
    }

    // A row enters where it has a value, when those have left that it reaches.
    #[tactic(auto, using(crate::proofs::Queues::yielded_short), unfolding(crate::specs::Figures::value_in, crate::specs::Lent::yielding_to))]
    pub fn enter_value(&mut self, row: usize, number: Evaluation)
        requires { Fits self.old × (length (held self.old) < max_window) × (self.old.entered + 1 < 2 ^ 64) }
        ensures entered { held self.new ≡ yielding_to row (value_in number) (held self.old) }
        ensures fits { Fits self.new }
        ensures once { self.new.entered ≡ one_more_if (is_some (value_in number)) self.old.entered }
    {
        if let Evaluation::Value(value) = number {
            self.give_way(value);
            self.enter(Entry { row, value });
        }
    }
}
