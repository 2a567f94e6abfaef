// A variable as the decoded model holds it: a row of its low end, its high end and its first value.

#![tactic(auto)]

ghost use Rattle.std.specs.Prelude.{◌≡◌, ◌≤◌, length};
ghost use Rattle.results.specs.Results.{over};
ghost use Rattle.variables.specs.Rows.{firsts_in, within_row};

// The low end of a variable, its high end, and its first value: a state's initial value, a flow's reset value.
#[derive(Clone, Copy, PartialEq, Eq, Debug)]
pub struct VariableRow {
    pub low: i32,
    pub high: i32,
    pub first: i32,
}

impl VariableRow {
    // What arrays of rows are made of.
    pub const BLANK: VariableRow = VariableRow {
        low: 0,
        high: 0,
        first: 0,
    };

    // Does the value lie within the ends of the variable.
    pub fn is_within(self, value: i32) -> bool
        ensures { result ≡ within_row self value }
    {
        self.low <= value && value <= self.high
    }
}

// The first values become the first cells. By index: of what is written through a `zip` of `iter_mut` a proof knows nothing afterwards.
pub fn first_values(variables: &[VariableRow], values: &mut [i32])
    requires { length variables.now ≤ length values.old }
    ensures { values.new ≡ over (firsts_in variables.now) values.old }
{
    for (x, row) in variables.iter().enumerate() {
        values[x] = row.first;
    }
}
