ghost use Rattle.std.specs.Prelude.{◌≡◌, alloc_error};
ghost use Rattle.convert.specs.declared.failure.Failure.TheVariants.{Memory, Io};
ghost use Rattle.convert.specs.Messages.{message_of};

use std::alloc::{AllocError, AllocFailed};
use std::{fmt, io};

// Why the program gives up, in words for the person who ran it.
#[derive(Drop)]
pub(crate) enum Failure {
    // An argument that is no bid.
    Bid(String),
    Memory(AllocError),
    Io(io::Error),
}

// What `main` returns is printed by `Debug`, and a derive would print the variant's name.
impl fmt::Debug for Failure {
    ghost debug_output = { message_of };

    fn fmt<W: fmt::Write>(&self, f: &mut fmt::Formatter<W>) -> fmt::Result {
        match self {
            Failure::Bid(word) => write!(
                f,
                "'{word}' is no bid: write a whole number of yuan from -1000 to 10000"
            ),
            Failure::Memory(error) => write!(f, "{error}"),
            Failure::Io(error) => write!(f, "{error}"),
        }
    }
}

impl From<AllocError> for Failure {
    ghost from_gives = { λ error failure. failure ≡ Memory error };

    fn from(error: AllocError) -> Failure {
        Failure::Memory(error)
    }
}

impl<T: Drop> From<AllocFailed<T>> for Failure {
    ghost from_gives = { λ _ failure. failure ≡ Memory alloc_error };

    fn from(failed: AllocFailed<T>) -> Failure {
        Failure::Memory(AllocError::from(failed))
    }
}

impl From<io::Error> for Failure {
    ghost from_gives = { λ error failure. failure ≡ Io error };

    fn from(error: io::Error) -> Failure {
        Failure::Io(error)
    }
}
