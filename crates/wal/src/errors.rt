// Why a call of a log fails, beside a device's `PowerOff`.
ghost use Rattle.std.specs.Prelude.{◌≡◌};
ghost use Rattle.wal.specs.Journal.{record_error};
ghost use Rattle.wal.specs.declared.errors.AppendError.TheVariants as append;

use device::{PowerOff, ReadError};

#[derive(Clone, Copy, PartialEq, Eq, Debug)]
pub enum RecordError {
    Lost,
    Off,
}

// A block that cannot be read has lost its record.
impl From<ReadError> for RecordError {
    ghost from_gives = { λ read e. e ≡ record_error read };

    fn from(error: ReadError) -> RecordError {
        match error {
            ReadError::Unreadable => RecordError::Lost,
            ReadError::Off => RecordError::Off,
        }
    }
}

#[derive(Clone, Copy, PartialEq, Eq, Debug)]
pub enum AppendError {
    Full,
    Off,
}

impl From<PowerOff> for AppendError {
    ghost from_gives = { λ _ e. e ≡ append.Off };

    fn from(_power: PowerOff) -> AppendError {
        AppendError::Off
    }
}
