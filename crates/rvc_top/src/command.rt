//! The words of the command line.

ghost use Rattle.std.specs.Prelude.{◌≡◌, ◌≤◌, ◌∷◌, [], map, string_bytes, IfSome};
ghost use Rattle.std.specs.Option.{option_map, option_and_then};
ghost use Rattle.rv_base.specs.Numbers.{number_of};
ghost use Rattle.rvc_top.specs.Words.{meaning, unless_zero, slots_of, mode_of, example_of};
ghost use Rattle.rvc_top.specs.Words.{drive_of, run_of, lossy_of, lines_of};
ghost use Rattle.rvc_top.specs.Commands.{describe, AreDrivable};

use crate::Example;
use proto_model::Mode;
use rv_base::read_number;

/// What is to be done.
#[derive(Clone, Copy, Debug, PartialEq, Eq)]
pub enum Command {
    /// Print the laid-out text of the protocol file.
    Print,
    /// Say whether the protocol file is well-formed, or where its first fault is.
    Check,
    /// Replay the schedule of events on the rendezvous meaning of the protocol file with so many
    /// remotes, from 1 to 64, and write the trace.
    Rv(u8),
    /// Replay the schedule of steps on the two controllers of the protocol file with so many
    /// remotes, from 1 to 64, and so many slots, from 2 to 64, in this mode, and write the trace.
    Run(u8, u8, Mode),
    /// Make a run of the two controllers of the protocol file that a number chooses, and write what
    /// is counted over it.
    Drive(Driving),
    /// Replay the schedule of steps and of moves of the network on the two controllers of the
    /// protocol file with so many remotes, from 1 to 64, and so many slots, from 2 to 64, in this
    /// mode, over links that lose, repeat and reorder, and write the trace.
    Lossy(u8, u8, Mode),
    /// Write the control store of the protocol file in this mode.
    Store(Mode),
    /// Replay the schedule of steps on the two controllers of the protocol whose control store the
    /// file is, in the mode of that store, with so many remotes, from 1 to 64, and so many slots,
    /// from 2 to 64, and write the trace.
    Boot(u8, u8),
    /// Say of the schedule, which is a trace of `Run` for the protocol file with so many remotes,
    /// from 1 to 64, whether the events that it tells are a run of the rendezvous meaning, and its
    /// end is the configuration reached; else which line is the first that is wrong.
    Audit(u8),
    /// Replay the schedule of steps on the two controllers of the protocol file with so many
    /// remotes, from 1 to 64, and so many slots, from 2 to 64, in this mode, for so many cache
    /// lines, from 1 to 16, that share their links, and write the trace.
    Lines(u8, u8, Mode, u8),
    /// Write the table of the controllers of the protocol file in this mode, to be read.
    TableText(Mode),
    /// Write the same table as JSON.
    TableJson(Mode),
    /// Write an example protocol.
    Example(Example),
}

/// A run of the two controllers of a protocol that a number chooses.
#[derive(Clone, Copy, Debug, PartialEq, Eq)]
pub struct Driving {
    /// How many remotes, from 1 to 64.
    pub remotes: u8,
    /// How many slots, from 2 to 64.
    pub slots: u8,
    /// The mode in which the protocol is compiled.
    pub mode: Mode,
    /// How many turns at most, up to 100,000.
    pub turns: u32,
    /// The number that chooses.
    pub seed: u64,
}

// The number that a word gives, as that of remotes or of cache lines: from 1 to `most`, in decimal
// without leading zeros.
fn some_in(word: &[u8], most: u8) -> Option<u8>
    ensures value { result ≡ option_and_then unless_zero (number_of word.now most) }
    ensures limits { IfSome result (λ n. (1 ≤ n) × (n ≤ most)) }
{
    match read_number(word, most as u64) {
        None | Some(0) => None,
        Some(n) => Some(n as u8),
    }
}

// The number of slots that a word gives: from 2 to 64, in decimal without leading zeros.
fn slots_in(word: &[u8]) -> Option<u8>
    ensures value { result ≡ slots_of word.now }
    ensures limits { IfSome result (λ k. (2 ≤ k) × (k ≤ 64)) }
{
    match read_number(word, 64) {
        None | Some(0 | 1) => None,
        Some(k) => Some(k as u8),
    }
}

// The mode that a word names.
fn mode_in(word: &str) -> Option<Mode>
    ensures { result ≡ mode_of word.now }
{
    match word {
        "plain" => Some(Mode::Plain),
        "lean" => Some(Mode::Lean),
        _ => None,
    }
}

// The example that a word names.
fn example_in(word: &str) -> Option<Example>
    ensures { result ≡ example_of word.now }
{
    match word {
        "migratory" => Some(Example::Migratory),
        "invalidate" => Some(Example::Invalidate),
        _ => None,
    }
}

// The run that these words of `drive` ask for: a number of remotes, of slots, a mode, a number of
// turns and a seed.
fn driving_in(n: &str, k: &str, mode: &str, turns: &str, seed: &str) -> Option<Driving>
    ensures value { option_map (λ d. Command.Drive d) result
        ≡ drive_of n.now k.now mode.now turns.now seed.now }
    ensures limits { IfSome result AreDrivable }
{
    Some(Driving {
        remotes: some_in(n.as_bytes(), 64)?,
        slots: slots_in(k.as_bytes())?,
        mode: mode_in(mode)?,
        turns: read_number(turns.as_bytes(), 100_000)? as u32,
        seed: read_number(seed.as_bytes(), u64::MAX)?,
    })
}

// The command that these words mean.
fn of_two(name: &str, word: &str) -> Option<Command>
    ensures means { result ≡ meaning (name.now ∷ word.now ∷ []) }
    ensures limits { (describe result).Numbers }
{
    match name {
        "print" => Some(Command::Print),
        "check" => Some(Command::Check),
        "example" => Some(Command::Example(example_in(word)?)),
        _ => None,
    }
}

// The command that these words mean, whatever the path between them is.
fn of_three(name: &str, word: &str) -> Option<Command>
    ensures means { result ≡ meaning (name.now ∷ [] ∷ word.now ∷ []) }
    ensures limits { (describe result).Numbers }
{
    match name {
        "rv" => Some(Command::Rv(some_in(word.as_bytes(), 64)?)),
        "audit" => Some(Command::Audit(some_in(word.as_bytes(), 64)?)),
        "store" => Some(Command::Store(mode_in(word)?)),
        "table" => Some(Command::TableText(mode_in(word)?)),
        "json" => Some(Command::TableJson(mode_in(word)?)),
        _ => None,
    }
}

// The command that these words mean, whatever the path between the first two is.
fn of_four(name: &str, n: &str, k: &str) -> Option<Command>
    ensures means { result ≡ meaning (name.now ∷ [] ∷ n.now ∷ k.now ∷ []) }
    ensures limits { (describe result).Numbers }
{
    match name {
        "boot" => Some(Command::Boot(some_in(n.as_bytes(), 64)?, slots_in(k.as_bytes())?)),
        _ => None,
    }
}

// The command that 'run' and these words mean.
fn run_in(n: &str, k: &str, mode: &str) -> Option<Command>
    ensures means { result ≡ run_of n.now k.now mode.now }
    ensures limits { (describe result).Numbers }
{
    Some(Command::Run(
        some_in(n.as_bytes(), 64)?,
        slots_in(k.as_bytes())?,
        mode_in(mode)?,
    ))
}

// The command that 'lossy' and these words mean.
fn lossy_in(n: &str, k: &str, mode: &str) -> Option<Command>
    ensures means { result ≡ lossy_of n.now k.now mode.now }
    ensures limits { (describe result).Numbers }
{
    Some(Command::Lossy(
        some_in(n.as_bytes(), 64)?,
        slots_in(k.as_bytes())?,
        mode_in(mode)?,
    ))
}

// The command that 'lines' and these words mean.
fn lines_in(n: &str, k: &str, mode: &str, count: &str) -> Option<Command>
    ensures means { result ≡ lines_of n.now k.now mode.now count.now }
    ensures limits { (describe result).Numbers }
{
    Some(Command::Lines(
        some_in(n.as_bytes(), 64)?,
        slots_in(k.as_bytes())?,
        mode_in(mode)?,
        some_in(count.as_bytes(), 16)?,
    ))
}

// The command that these words mean, whatever the path between the first two is.
fn of_five(name: &str, n: &str, k: &str, mode: &str) -> Option<Command>
    ensures means { result ≡ meaning (name.now ∷ [] ∷ n.now ∷ k.now ∷ mode.now ∷ []) }
    ensures limits { (describe result).Numbers }
{
    match name {
        "run" => run_in(n, k, mode),
        "lossy" => lossy_in(n, k, mode),
        _ => None,
    }
}

// The command that these words mean, whatever the path between the first two is.
fn of_six(name: &str, n: &str, k: &str, mode: &str, count: &str) -> Option<Command>
    ensures means { result
        ≡ meaning (name.now ∷ [] ∷ n.now ∷ k.now ∷ mode.now ∷ count.now ∷ []) }
    ensures limits { (describe result).Numbers }
{
    match name {
        "lines" => lines_in(n, k, mode, count),
        _ => None,
    }
}

// The command that these words mean, whatever the path between the first two is.
fn of_seven(name: &str, n: &str, k: &str, mode: &str, turns: &str, seed: &str) -> Option<Command>
    ensures means { result
        ≡ meaning (name.now ∷ [] ∷ n.now ∷ k.now ∷ mode.now ∷ turns.now ∷ seed.now ∷ []) }
    ensures limits { (describe result).Numbers }
{
    match name {
        "drive" => Some(Command::Drive(driving_in(n, k, mode, turns, seed)?)),
        _ => None,
    }
}

/// The command that the words after the program's name mean, or `None` where they have no form.
/// Takes no memory.
pub fn words_mean(words: &[String]) -> Option<Command>
    ensures means { result ≡ meaning (map string_bytes words.now) }
    ensures limits { (describe result).Numbers }
{
    match words {
        [name, word] => of_two(name, word),
        [name, _path, word] => of_three(name, word),
        [name, _path, n, k] => of_four(name, n, k),
        [name, _path, n, k, mode] => of_five(name, n, k, mode),
        [name, _path, n, k, mode, count] => of_six(name, n, k, mode, count),
        [name, _path, n, k, mode, turns, seed] => of_seven(name, n, k, mode, turns, seed),
        _ => None,
    }
}
