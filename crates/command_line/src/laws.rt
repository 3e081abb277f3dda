// Laws of what words ask for. The functions do nothing; their clauses are the laws.
ghost use Rattle.std.specs.Prelude.{◌≡◌, List, true};
ghost use Rattle.clap.specs.Words.{Text};
ghost use Rattle.command_line.specs.Words.{AreWithin, Asked, SpellsCommand, are_taken, words_for};

/// Words ask for one command at most.
pub fn words_spell_one_command()
    ensures { (words : List Text) (a b : Asked) → SpellsCommand words a → SpellsCommand words b →
        a ≡ b }
{}

/// Words that are taken ask for a command, whose numbers the options take.
pub fn taken_words_spell_a_command()
    ensures { (words : List Text) → are_taken words ≡ true → (a : Asked) × SpellsCommand words a
        × AreWithin a }
{}

/// Each command is asked for by the words that print it.
pub fn commands_have_words()
    ensures { (a : Asked) → AreWithin a → SpellsCommand (words_for a) a }
{}
