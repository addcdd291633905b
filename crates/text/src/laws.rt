ghost use Rattle.text.specs.Format.{TextStands};

// What reading owes its writer.
pub fn text_stands()
    ensures { TextStands }
{}
