//! The request numbers that a node's facts name.

ghost use Rattle.std.specs.Prelude.{◌≡◌};
ghost use Rattle.rr_folders.specs.Requests.{greatest_in};

use rr_folders::greatest_in;
use rr_types::Promise;

/// The greatest request number of a client that a node's facts name, if they name one. Only `greatest_by` gives this.
#[derive(Clone, Copy, Debug)]
pub(crate) struct Greatest {
    number: Option<u64>,
}

impl Greatest {
    /// That number.
    pub(crate) fn number(&self) -> Option<u64>
        ensures { result ≡ self.now.number }
    {
        self.number
    }
}

/// The greatest request number of a client, by a node's facts.
pub(crate) fn greatest_by(client: u32, promise: &Promise) -> Greatest
    ensures { result.number ≡ greatest_in client promise.now }
{
    Greatest {
        number: greatest_in(client, promise.entries()),
    }
}
