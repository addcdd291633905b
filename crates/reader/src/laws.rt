ghost use Rattle.reader.specs.Format.{ReadingStands};

// Lines that are written are read back, and the first fault decides.
pub fn reading_stands()
    ensures { ReadingStands }
{}
