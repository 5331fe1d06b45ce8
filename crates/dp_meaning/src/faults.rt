ghost use Rattle.dp_meaning.specs.MeaningLaws.{BadBytesComeFirst};

/// A bad byte is answered before anything else, and the first of them by its place.
pub fn bad_bytes_come_first()
    ensures { BadBytesComeFirst }
{}
