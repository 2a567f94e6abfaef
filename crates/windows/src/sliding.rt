// The window that slides over the rows, as its two queues.

#![tactic(auto)]

ghost use Rattle.std.specs.Prelude.{◌≡◌, is_some};
ghost use Rattle.windows.specs.Figures.{value_in};
ghost use Rattle.windows.specs.Sliding.{queues, without, left_behind};
ghost use Rattle.windows.specs.Lent.{held, AllFit, HasRoom, CanCount, queues_in, figures_held, entering_held, one_more_if};

use crate::FIGURES;
use crate::queue::Queue;
use evaluation::Evaluation;

// The rows of a window where the condition is true, and those with a value that no later row reaches.
#[derive(Drop)]
pub struct Sliding {
    pub trues: Queue,
    pub values: Queue,
}

impl Sliding {
    pub const EMPTY: Sliding = Sliding {
        trues: Queue::EMPTY,
        values: Queue::EMPTY,
    };

    // A row leaves, where it is still there.
    fn leave(&mut self, row: usize)
        requires { AllFit self.old }
        ensures left { queues_in self.new ≡ queues (without row (held self.old.trues)) (without row (held self.old.values)) }
        ensures fits { AllFit self.new }
        ensures same { (self.new.trues.entered ≡ self.old.trues.entered) × (self.new.values.entered ≡ self.old.values.entered) }
    {
        self.trues.leave(row);
        self.values.leave(row);
    }

    // The row leaves that a window of so many rows leaves behind as this one enters, if there is one.
    #[tactic(auto, unfolding(crate::specs::Sliding::left_behind))]
    pub fn leave_behind(&mut self, window: usize, row: usize)
        requires { AllFit self.old }
        ensures left { queues_in self.new ≡ left_behind window row (queues_in self.old) }
        ensures fits { AllFit self.new }
        ensures same { (self.new.trues.entered ≡ self.old.trues.entered) × (self.new.values.entered ≡ self.old.values.entered) }
    {
        if window <= row {
            self.leave(row - window);
        }
    }

    // A row enters where the condition is true, and where it has a value.
    pub fn enter(&mut self, row: usize, truth: bool, number: Evaluation)
        requires { AllFit self.old × HasRoom (queues_in self.old) × CanCount self.old }
        ensures entered { queues_in self.new ≡ entering_held row truth number (queues_in self.old) }
        ensures fits { AllFit self.new }
        ensures once { (self.new.trues.entered ≡ one_more_if truth self.old.trues.entered)
            × (self.new.values.entered ≡ one_more_if (is_some (value_in number)) self.old.values.entered) }
    {
        self.trues.enter_true(row, truth);
        self.values.enter_value(row, number);
    }

    // The three cells of the row that entered last.
    pub fn figures(&self) -> [i32; FIGURES]
        requires { AllFit self.now }
        ensures { result ≡ figures_held (queues_in self.now) }
    {
        let (largest, mark) = match self.values.front_value() {
            Some(value) => (value, 1),
            None => (0, 0),
        };
        [self.trues.len() as i32, largest, mark]
    }
}
