//! What follows from how a run ends, each law the contract of a function that does nothing.

ghost use Rattle.kp_law_runs.specs.Follows.{AnswersAreWhole, TheDueIsCarriedOut, TheDueIsTheAnswer, OnlyDonePuts, DonePutsTheOutputs, OthersPutNothing, NoCommandPutsNothing, PutsAreOfTheDue, TextsAreOfTheDue, ReadFaultsTellNothing, ReadFaultsAreTrue, WriteFaultsAreTrue, FailedGetsAreTold, FailedWritesAreTold, MissingInputsAreFaults, InputsAreReadInOrder};

/// An answer comes with the whole of its outcome.
pub fn answers_are_whole()
    ensures { AnswersAreWhole }
{}

/// Where it is told what is held, the outcome that is due is carried out, or the run came to nothing.
pub fn the_due_is_carried_out()
    ensures { TheDueIsCarriedOut }
{}

/// Where no count of faults rises, the outcome that is due is the answer, or memory ran out.
pub fn the_due_is_the_answer()
    ensures { TheDueIsTheAnswer }
{}

/// Only an outcome whose status is Done puts files.
pub fn only_done_puts()
    ensures { OnlyDonePuts }
{}

/// An outcome with the status Done puts a file under each output name.
pub fn done_puts_the_outputs()
    ensures { DonePutsTheOutputs }
{}

/// Nothing is put but with Done, WriteFault and want of memory.
pub fn others_put_nothing()
    ensures { OthersPutNothing }
{}

/// Words that are no command put nothing.
pub fn no_command_puts_nothing()
    ensures { NoCommandPutsNothing }
{}

/// What is put is of an outcome that is due.
pub fn puts_are_of_the_due()
    ensures { PutsAreOfTheDue }
{}

/// What is told with a fault is a front of the text of an outcome that is due.
pub fn texts_are_of_the_due()
    ensures { TextsAreOfTheDue }
{}

/// With ReadFault nothing is told.
pub fn read_faults_tell_nothing()
    ensures { ReadFaultsTellNothing }
{}

/// ReadFault comes only where a get of an input failed.
pub fn read_faults_are_true()
    ensures { ReadFaultsAreTrue }
{}

/// WriteFault comes only where a put of an output failed, or a write.
pub fn write_faults_are_true()
    ensures { WriteFaultsAreTrue }
{}

/// Where a get failed, ReadFault is told.
pub fn failed_gets_are_told()
    ensures { FailedGetsAreTold }
{}

/// Where a put or a write failed, WriteFault is told.
pub fn failed_writes_are_told()
    ensures { FailedWritesAreTold }
{}

/// An input that is not held gives ReadFault or want of memory.
pub fn missing_inputs_are_faults()
    ensures { MissingInputsAreFaults }
{}

/// Inputs are read in order.
pub fn inputs_are_read_in_order()
    ensures { InputsAreReadInOrder }
{}
