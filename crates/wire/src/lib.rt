// What every layer stands on: errors, the size limit, integers, maps of bits, and bytes that are matched or copied.
// It knows nothing of headers, columns or rows.
#![tactic(auto)]

ghost use Rattle.std.specs.Prelude.{◌≡◌};
ghost use Rattle.wire.specs.Read.{about, sized_by, told};

pub mod bits;
pub mod bytes;
pub mod error;
pub mod integer;

use error::{Error, ErrorKind, Input};

// The most bytes that an input may have.
pub const LIMIT: usize = 16_777_216;

// An input of so many bytes keeps the limit; else the error that names it.
#[tactic(auto, unfolding(crate::specs::Read::about, crate::specs::Read::sized_by, crate::specs::Read::check))]
pub fn check_size(size: usize, name: Input) -> Result<(), Error>
    ensures { told result ≡ about name (sized_by size) }
{
    if size > LIMIT {
        return Err(Error::at_start(ErrorKind::TooLarge, name));
    }
    Ok(())
}
