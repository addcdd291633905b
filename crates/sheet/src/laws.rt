ghost use Rattle.sheet.specs.AskLaws.{PlacesStand};
ghost use Rattle.sheet.specs.PathLaws.{PathsStand};

// What the answers on a path's legs mean, and which place a no names.
pub fn places_stand()
    ensures { PlacesStand }
{}

// Two paths with the same ends, figures and passages are one.
pub fn paths_stand()
    ensures { PathsStand }
{}
