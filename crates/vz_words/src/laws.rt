//! Laws of command lines. Each is the contract of an empty function; a caller that calls it may
//! use its clauses.
ghost use Rattle.std.specs.Prelude.{◌≡◌, List};
ghost use Rattle.vz_rules.specs.Command.{Word, Command, IsCommand};

/// The words of a command line ask for at most one command.
pub fn words_are_of_one_command()
    ensures { (words : List Word) (a b : Command) → IsCommand words a → IsCommand words b → a ≡ b }
{}
