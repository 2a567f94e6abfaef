// What the programs that run stored cases share: the numbers of a case, its reading, cells beside stored ones, and the tally.
//
// The cases stand one after the other in the file data/cases; numbers stand low byte first.

#![tactic(auto)]

ghost use Rattle.std.specs.Prelude.{Bool, ℕ, true, false, Ok, Some, ◌≡◌, ◌+◌, ◌*◌, ◌^◌, ◌<◌, ◌≤◌, length, take, IfOk, IsTrue, ◌↔◌};
ghost use Rattle.std.specs.List.{list_all};
ghost use Rattle.std.specs.Io.KnownBytes.{Consumes};
ghost use Rattle.model.specs.Sizes.{little_at};
ghost use Rattle.model.specs.Check as model;
ghost use Rattle.cases.specs.Cases.{same_cells, wanted_by, CaseRead, no_cases, counted_in, Tallied};

use std::io::{ErrorKind, Read};
use std::{fmt, io};

// How many cases were run, and how many differed; none by default.
#[derive(Clone, Copy, PartialEq, Eq, Debug, Default)]
pub struct Tally {
    pub cases: u64,
    pub differing: u64,
}

impl Tally {
    // The tally with one case more.
    #[tactic(auto, using(crate::proofs::Counting::counted_by))]
    pub fn counted(self, is_same: bool) -> Tally
        ensures { result ≡ counted_in self is_same }
    {
        Tally {
            cases: self.cases.wrapping_add(1),
            differing: self.differing.wrapping_add(u64::from(!is_same)),
        }
    }
}

// An answer as it is told: the number of a refusal, or the word for what was stored, and how much.
#[derive(Clone, Copy)]
struct Told<'a> {
    word: &'a str,
    answer: Result<usize, u8>,
}

impl fmt::Display for Told<'_> {
    fn fmt<W: fmt::Write>(&self, f: &mut fmt::Formatter<W>) -> fmt::Result {
        let word = self.word;
        match self.answer {
            Ok(count) => write!(f, "{word} {count}"),
            Err(number) => write!(f, "refusal {number}"),
        }
    }
}

// The number in N bytes.
pub fn number<const N: usize>(bytes: &[u8], at: usize) -> usize
    requires width { N ≤ 8 }
    requires within { at + N ≤ length bytes.now }
    ensures value { result ≡ little_at bytes.now at N }
    ensures upper_bound { result < 256 ^ N }
{
    model::header::number(bytes, at, N)
}

// The signed number in four bytes.
pub fn signed(bytes: &[u8], at: usize) -> i32
    requires { at + 4 ≤ length bytes.now }
    ensures { result ≡ model.signed (little_at bytes.now at 4) }
{
    model::header::parameter_in(bytes, at)
}

// The stored values, four bytes each.
pub fn load_values(stored: &[u8], values: &mut [i32])
    requires { 4 * length values.old ≤ length stored.now }
    ensures { values.new ≡ model.parameters_at stored.now 0 (length values.old) }
{
    model::header::parameters_in(stored, 0, values);
}

// Is each cell the fill?
fn is_filled<T: Copy + PartialEq>(cells: &[T], fill: T) -> bool
    ensures { result ≡ list_all (λ cell. T.eq cell fill) cells.now }
{
    cells.iter().all(|cell| *cell == fill)
}

// Are the cells the stored ones, and the fill past them?
#[tactic(auto, using(crate::proofs::Beside::first_differs, crate::proofs::Beside::first_agrees))]
pub fn is_same<T: Copy + PartialEq>(cells: &[T], stored: &[T], fill: T) -> bool
    ensures { result ≡ same_cells T.eq cells.now stored.now fill }
{
    match cells.strip_prefix(stored) {
        Some(rest) => is_filled(rest, fill),
        None => false,
    }
}

// Are the cells the stored ones, and the fill past them? If not, that is told, with the word for a cell.
pub fn is_stored<T: Copy + PartialEq>(
    rt: &impl Print,
    word: &str,
    cells: &[T],
    stored: &[T],
    fill: T,
) -> io::Result<bool>
    ensures { IfOk result (λ is_stored. is_stored ≡ same_cells T.eq cells.now stored.now fill) }
{
    let is_same = is_same(cells, stored, fill);
    if !is_same {
        print!(rt; "a {word} is another; ")?;
    }
    Ok(is_same)
}

// The answer that a header asks for: so much stored, or the number of a refusal, if it is not 0. A number and no `Refusal`: any byte may be
// stored, and one that is no refusal's must differ from each.
pub fn wanted(refusal: u8, count: usize) -> Result<usize, u8>
    ensures { result ≡ wanted_by refusal count }
{
    match refusal {
        0 => Ok(count),
        number => Err(number),
    }
}

// Is the answer the stored one, how much was stored or the number of a refusal? If not, both are told.
pub fn is_wanted(
    rt: &impl Print,
    word: &str,
    wanted: Result<usize, u8>,
    answer: Result<usize, u8>,
) -> io::Result<bool>
    ensures { IfOk result (λ is_same. IsTrue is_same ↔ answer ≡ wanted) }
{
    if answer == wanted {
        return Ok(true);
    }
    let wanted = Told {
        word,
        answer: wanted,
    };
    let came = Told { word, answer };
    print!(rt; "wanted {wanted}, came {came}; ")?;
    Ok(false)
}

// Reads bytes until the slice is full; false where the file ends before.
pub fn is_read<R: Read>(file: &mut R, bytes: &mut [u8]) -> io::Result<bool>
    ensures { result ≡ Ok true → Consumes (R.remaining file.old) (R.remaining file.new) bytes.new }
{
    match file.read_exact(bytes) {
        Ok(()) => Ok(true),
        Err(e) if e.kind() == ErrorKind::UnexpectedEof => Ok(false),
        Err(e) => Err(e),
    }
}

// The next N bytes of the file; none where it ends before.
pub fn next_bytes<R: Read, const N: usize>(file: &mut R) -> io::Result<Option<[u8; N]>>
    ensures { (bytes : _) → result ≡ Ok (Some bytes) → Consumes (R.remaining file.old) (R.remaining file.new) bytes }
{
    let mut bytes = [0u8; N];
    let is_whole = is_read(file, &mut bytes)?;
    Ok(is_whole.then_some(bytes))
}

// Stored cases of one kind, each by its header of so many bytes.
pub trait Case<const HEAD: usize>: Copy + From<[u8; HEAD]> {
    ghost size: { Self → ℕ };

    // The length of the body.
    fn body_length(self) -> usize
        ensures { result ≡ size self };

    // Runs the case of this body: is the answer, and every cell lent, as stored? What differs is told.
    fn is_as_stored<R: Print>(self, rt: &R, body: &[u8]) -> io::Result<bool>
        requires { length body.now ≡ size self };
}

// Reads one case into the buffer and runs it; none at the end of the file.
pub fn next_case<const HEAD: usize, C: Case<HEAD>, P: Print, R: Read>(
    rt: &P,
    file: &mut R,
    buffer: &mut [u8],
) -> io::Result<Option<bool>>
    requires { HEAD < 2 ^ 63 }
    ensures { (answer : Bool) → result ≡ Ok (Some answer) → CaseRead HEAD C.from_gives C.size (R.remaining file.old) (R.remaining file.new) }
{
    let Some(bytes): Option<[u8; HEAD]> = next_bytes(file)? else {
        return Ok(None);
    };
    let head = C::from(bytes);
    let Some(body) = buffer.get_mut(..head.body_length()) else {
        return Ok(None);
    };
    if !is_read(file, body)? {
        return Ok(None);
    }
    Ok(Some(head.is_as_stored(rt, body)?))
}

// The tally of the cases of a file, to its end: `next` reads one and says whether it answered what is stored, or that there is
// none. Each case that differs is told.
fn tallied<R: Print, F: FnMut() -> io::Result<Option<bool>>>(
    rt: &R,
    mut next: F,
) -> io::Result<Tally>
    requires { F.IsAlwaysCallable next }
    ensures { IfOk result (λ tally. (last : F) × Tallied (λ f is_same g. F.step f (Ok (Some is_same)) g) next last tally) }
{
    let mut tally = Tally::default();
    // It ends where no case is left; the number of turns is there since every function must end, whatever is read.
    for _ in 0..u64::MAX {
        let Some(is_same) = next()? else {
            break;
        };
        tally = tally.counted(is_same);
        if !is_same {
            println!(rt; "case {} differs", tally.cases)?;
        }
    }
    Ok(tally)
}

// Runs the cases of a file and prints the tally, with the word for what was counted.
pub fn run<R: Print, F: FnMut() -> io::Result<Option<bool>>>(
    rt: &R,
    word: &str,
    next: F,
) -> io::Result<()>
    requires { F.IsAlwaysCallable next }
    ensures { IfOk result (λ _. (last : F) × (tally : Tally) × Tallied (λ f is_same g. F.step f (Ok (Some is_same)) g) next last tally) }
{
    let tally = tallied(rt, next)?;
    println!(rt; "{} {word}, {} differ", tally.cases, tally.differing)
}
