ghost use Rattle.rules.specs.ConvertLaws.{ConversionStands};
ghost use Rattle.rules.specs.GridLaws.{GridsStand};
ghost use Rattle.rules.specs.QuestionLaws.{QuestionsStand};

// What conversion owes its reader, with the worked figures.
pub fn conversion_stands()
    ensures { ConversionStands }
{}

// What the first no among questions, and the first item that fails a test, mean.
pub fn questions_stand<Q, A>()
    ensures { QuestionsStand Q A }
{}

// What grids owe their reader: nothing is told beyond the counts, what booking takes, what gauges added above a grid mean, and what a path
// weighs on legs.
pub fn grids_stand()
    ensures { GridsStand }
{}
