ghost use Rattle.kp_words.specs.Laws.{WordsAreDecided, WordsAreOneCommand};

/// Words are one command at most.
pub fn words_are_one_command()
    ensures { WordsAreOneCommand }
{}

/// Words are a command, or none.
pub fn words_are_decided()
    ensures { WordsAreDecided }
{}
