//! The laws that no byte that is drawn is used twice. Each function has laws as its contract; it
//! does nothing, and takes no memory.

ghost use Rattle.randomness_laws.specs.Example.{ExampleDraws};
ghost use Rattle.randomness_laws.specs.Pieces.{CallsDrawOnce, DrawsFewBytes, FilesAreOfPieces, IdsAreOfPieces, PasswordsAreOfPieces, PrintedAreOfPieces, TasksDrawOnce};

/// What a command draws are pieces of the dice, one after another, and what is left are the bytes
/// after them: so each byte is in one piece alone, also over many calls that go on with one stream,
/// among them calls that print a password. The id of a new node, a password that is generated and
/// each of the five values that a file is sealed with are made of a piece of their own. A command
/// draws at most 192 bytes, and for a password at most 128 more for each of its characters.
pub fn draws_once()
    ensures task { TasksDrawOnce }
    ensures calls { CallsDrawOnce }
    ensures id { IdsAreOfPieces }
    ensures password { PasswordsAreOfPieces }
    ensures printed { PrintedAreOfPieces }
    ensures file { FilesAreOfPieces }
    ensures few { DrawsFewBytes }
{}

/// Each of these laws but that of a command's password speaks of something: three calls, of which
/// the first seals a file and the second prints a password.
pub fn example_draws()
    ensures { ExampleDraws }
{}
