//! Laws of aux files.
ghost use Rattle.lb_model_aux.specs.Grammar.{GroupsAreRead, LabelsAreRead};
ghost use Rattle.lb_model_aux.specs.ReadBack.{CheckpointsAreReadBack, EntriesAreReadBack, FirstLinesAreReadBack, InputsAreReadBack, LabelsAreReadBack};

/// What is written to aux files is read back as what was written, whatever stands behind it. A text that is to be read back has no line feed, and
/// each brace in it has its other one, where a byte behind a backslash counts as none; a counter has a number of 32 bits, but not the least.
pub fn read_back()
    ensures labels { LabelsAreReadBack }
    ensures entries { EntriesAreReadBack }
    ensures checkpoints { CheckpointsAreReadBack }
    ensures first_lines { FirstLinesAreReadBack }
    ensures inputs { InputsAreReadBack }
{}

/// A group is read at the front of a text exactly where the grammar has one there, up to the brace that belongs to the first one; and every label that
/// is written by the grammar is read, whatever groups stand behind its page.
pub fn grammar()
    ensures groups { GroupsAreRead }
    ensures labels { LabelsAreRead }
{}
