//! Why a file is not read.

ghost use Rattle.std.specs.Prelude.{◌≡◌};
ghost use Rattle.protocol_reader.specs.declared.error.ReadError.TheVariants as errors;

/// Why a file is not read.
#[derive(Clone, Copy, Debug, PartialEq, Eq, Drop)]
pub enum ReadError {
    /// It has more than 65,536 bytes.
    TooLong,
    /// It spells no protocol. The line is that of the first lexeme with which the tokens up to it
    /// are the beginning of no protocol, or of the end of the file; lines count from 1.
    Syntax { line: u32 },
    /// There is no memory for what is read.
    NoMemory,
}

impl From<rv_base::NoMemory> for ReadError {
    ghost from_gives = { λ _ e. e ≡ errors.NoMemory };

    fn from(_: rv_base::NoMemory) -> ReadError {
        ReadError::NoMemory
    }
}
