// The command that a line of the program's input is.

#![tactic(auto)]

ghost use Rattle.std.specs.Prelude.{◌≡◌};
ghost use Rattle.commands.specs.Commands.{command_of, fire_of};

// 01's commands.
#[derive(Clone, Copy, PartialEq, Eq, Debug)]
pub enum Command {
    Fire(usize),
    Undo,
    Marks,
}

// The most digits of a transition's number.
const MOST_DIGITS: usize = 5;

// The command of the digits after `f` and a space.
fn fire_of(digits: &[u8]) -> Option<Command>
    ensures { result ≡ fire_of digits.now }
{
    if digits.is_empty() || MOST_DIGITS < digits.len() {
        return None;
    }
    let value = ascii::number(digits)?;
    Some(Command::Fire(value as usize))
}

// The command that a line without its line feed is; none, refusal 13, if it is no command.
pub fn command_of(line: &[u8]) -> Option<Command>
    ensures { result ≡ command_of line.now }
{
    match line {
        b"u" => Some(Command::Undo),
        b"m" => Some(Command::Marks),
        [b'f', b' ', digits @ ..] => fire_of(digits),
        _ => None,
    }
}
