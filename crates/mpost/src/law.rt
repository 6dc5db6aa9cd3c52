//! What a reader takes the headline and the words by, as laws.

ghost use Rattle.mpost.specs.CommandLines.{FirstIsRefused, LinesAreAccepted};
ghost use Rattle.mpost.specs.Headline.{AllIsWritten};

/// Law: where nothing outside failed and memory was found, the bytes that the sink gained are the lines that the sources
/// mean, and the line of their end.
pub fn all_is_written()
    ensures { AllIsWritten }
{}

/// Law: the words that are accepted are the command lines that there are.
pub fn lines_are_accepted()
    ensures { LinesAreAccepted }
{}

/// Law: the word that is refused is the first with which the words begin no command line, or it is missing at their end.
pub fn first_is_refused()
    ensures { FirstIsRefused }
{}
