// The calls on a record that is lent: each takes it apart, makes the step by value, and leaves the next record in its place.
ghost use Rattle.std.specs.Prelude.{◌≡◌};
ghost use Rattle.incremental.specs.Calls.{record_fed, answer_fed, record_closed, answer_closed, told_fed};

use crate::feed::{Fed, close_step, feed_step};
use crate::record::Reader;
use wire::error::Error;

// Feeds a fragment to a reader.
pub fn feed(file: &[u8], reader: &mut Reader, fragment: &[u8]) -> Result<Fed, Error>
    ensures { (reader.new ≡ record_fed file.now reader.old fragment.now) × (told_fed result ≡ answer_fed file.now reader.old fragment.now) }
{
    let next = feed_step(file, *reader, fragment);
    *reader = next.reader;
    next.answer
}

// Ends the input of a reader.
// Kept: two calls, as the C interface names them; a closure for the step is no plainer.
pub fn close(file: &[u8], reader: &mut Reader) -> Result<Fed, Error>
    ensures { (reader.new ≡ record_closed file.now reader.old) × (told_fed result ≡ answer_closed file.now reader.old) }
{
    let next = close_step(file, *reader);
    *reader = next.reader;
    next.answer
}
