// Why the system refused, by its own numbers.
ghost use Rattle.files.specs.Told.{Above};

use std::io::Error;

// Also for an error that has no number.
pub(crate) const EIO: i32 = 5;

pub(crate) const EBADF: i32 = 9;

pub(crate) const ENAMETOOLONG: i32 = 36;

pub(crate) const EILSEQ: i32 = 84;

// An error's number.
#[derive(Clone, Copy)]
pub struct Failure {
    pub number: i32,
}

impl From<Error> for Failure {
    ghost from_gives = { λ _ failure. Above failure.number };

    fn from(error: Error) -> Self {
        let number = error.raw_os_error().unwrap_or(EIO);
        Failure {
            number: if number > 0 { number } else { EIO },
        }
    }
}
