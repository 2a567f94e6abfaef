// What an instruction comes to, found step by step: a failure, or a value that an active assignment gives.

#![tactic(auto)]

ghost use Rattle.std.specs.Prelude.{◌≡◌, ◌<◌, length};
ghost use Rattle.variables.specs.Rows.{lows_in, highs_in};
ghost use Rattle.interpreter.specs.Instructions.Effect.{gives};
ghost use Rattle.interpreter.specs.Gathering as specs;
ghost use Rattle.interpreter.specs.Gathering.{gathering, failing};

use evaluation::Manner;
use variables::VariableRow;

// The classes of fault, in the order in which they count: something failed, a zero divisor before what is too large; a value is outside its
// ends; two values of one variable differ.
#[derive(Clone, Copy, PartialEq, Eq, Debug)]
pub enum Fault {
    Failure(Manner),
    Outside,
    Conflict,
}

// What was found in going over an instruction, nothing by default; `fresh`: a variable without a value was given one. Each class of fault
// has its flag, and each manner of failure. It is set without asking what was found before: of one Option of the first class each fault
// would be compared with the last, and the definitions, which tell of each class, would stand further from the code.
#[derive(Clone, Copy, PartialEq, Eq, Debug, Default)]
pub struct Gathered {
    pub zero_divisor: bool,
    pub too_large: bool,
    pub outside: bool,
    pub conflict: bool,
    pub fresh: bool,
}

impl Gathered {
    // Something failed.
    #[tactic(auto, unfolding(evaluation::specs::Meaning::same_manner))]
    pub fn fail(&mut self, manner: Manner)
        ensures { self.new ≡ failing manner self.old }
    {
        match manner {
            Manner::ZeroDivisor => self.zero_divisor = true,
            Manner::TooLarge => self.too_large = true,
        }
    }

    // An active assignment gives the variable a value.
    #[tactic(auto, unfolding(crate::specs::Gathering::gather, crate::specs::Gathering::taken))]
    pub fn give(
        &mut self,
        variables: &[VariableRow],
        given: &mut [Option<i32>],
        variable: usize,
        value: i32,
    )
        requires { (variable < length given.old) × (variable < length variables.now) }
        ensures { gathering self.new given.new ≡ specs.gather (lows_in variables.now) (highs_in variables.now) (gives variable value) (gathering self.old given.old) }
    {
        self.outside |= !variables[variable].is_within(value);
        match given[variable] {
            None => {
                given[variable] = Some(value);
                self.fresh = true;
            }
            held => self.conflict |= held != Some(value),
        }
    }
}
