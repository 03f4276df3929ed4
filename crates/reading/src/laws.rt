// What holds of readings, each as the promise of a function that only carries it.
ghost use Rattle.reading.specs.Kinds.{RoundTrips};
ghost use Rattle.reading.specs.Values.{RankValues, NanByFields};

use crate::Reading;

/// For every kind of reading: what is encoded decodes to the same reading, and what is decoded encodes to the same bytes.
pub fn round_trips<R: Reading>()
    ensures { RoundTrips R.Reading.bytes }
{}

/// A pattern is not a number exactly where its exponent field is all ones and its fraction field is not 0; and the
/// ranks of 1, −1 and +infinity.
pub fn rank_values()
    ensures fields { NanByFields }
    ensures ranks { RankValues }
{}
