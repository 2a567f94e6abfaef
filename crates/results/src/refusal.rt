// Why a call is refused.

ghost use Rattle.std.specs.Prelude.{◌≡◌};
ghost use Rattle.results.specs.Refusals.{number_of};

// A refusal, with the number that a call answers for it.
#[derive(Clone, Copy, PartialEq, Eq, Debug)]
pub enum Refusal {
    // The file is under 10 bytes; an old file, under 6.
    ShortFile = 1,
    // N is above 12,000; of an old file, above 4,000.
    TooManyNodes = 2,
    // The file's length is not 10 + 5N; of an old file, 6 + 5N; the lengths of an expression's slices differ.
    WrongLength = 3,
    // A node is due past the last.
    MissingNode = 4,
    // A node stands at depth 33.
    TooDeep = 5,
    // A kind may not stand there.
    KindNotAllowed = 6,
    // A parameter or a variable is not allowed there.
    ParameterNotAllowed = 7,
    // Nodes are left over.
    NodesLeftOver = 8,
    // The values slice is under S+F.
    ShortValues = 9,
    // The marks slice is under T, or another slice that was lent is too short.
    ShortSlice = 10,
    // The transition is T or above.
    NoSuchTransition = 11,
    // The variable is S+F or above.
    NoSuchVariable = 12,
    // A line is no command.
    NoCommand = 13,
    // The count of steps, an entry of the history, a value or a held mark is out of its bounds.
    InvalidRun = 20,
    // Fire with the history full.
    FullHistory = 21,
    // Take back with no step recorded.
    EmptyHistory = 22,
    // The guard is false.
    GuardFalse = 23,
    // The guard failed: a divisor is 0.
    GuardZeroDivisor = 24,
    // A condition or an expression of the action failed: a divisor is 0.
    ActionZeroDivisor = 25,
    // The action gives a value outside its variable's ends.
    ActionOutside = 26,
    // The action gives one variable different values.
    ActionConflict = 27,
    // A condition or an expression of the assertion failed: a divisor is 0.
    AssertionZeroDivisor = 28,
    // The assertion gives a value outside its variable's ends.
    AssertionOutside = 29,
    // The assertion gives one variable different values, or one that differs from its known value.
    AssertionConflict = 30,
    // Start is refused, or the recorded transitions cannot be fired again.
    NotReplayable = 31,
    // The text is no expression.
    NotInGrammar = 32,
    // The types of the text do not fit.
    TypesDoNotFit = 33,
    // The text is over 200 bytes, or its nodes are deeper than 32.
    TextTooLarge = 34,
    // Both lists of transitions to join are empty.
    NoMembers = 35,
    // The model joined would pass a limit of sizes, nodes or depth, or the slice lent for it.
    LimitPassed = 36,
    // S+F is above 4,000.
    TooManyVariables = 37,
    // The guard failed: a number is beyond 32 bits.
    GuardTooLarge = 38,
    // A condition or an expression of the action failed: a number is beyond 32 bits.
    ActionTooLarge = 39,
    // A condition or an expression of the assertion failed: a number is beyond 32 bits.
    AssertionTooLarge = 40,
    // The window is zero or above 1,000 rows, S+F is zero, or the slice is no whole number of rows.
    NoWindows = 41,
}

impl Refusal {
    // The number that stands for it. No `u8::from`: the name says which number it is.
    #[tactic(auto, unfolding(crate::specs::Refusals::number_of))]
    pub fn number(self) -> u8
        ensures { result ≡ number_of self }
    {
        self as u8
    }
}
