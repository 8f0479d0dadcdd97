//! Laws over the definitions: each function's contract is one or two, and nothing is run.
ghost use Rattle.toml_text.specs.Laws.{RunIsPiece, RunIsFound, NewlineIsPiece, NewlineIsFound, CommentIsPiece, CommentIsFound, RunIsLongest, RunStops, BeginsApart, BeginsWider, CommentIsUnmarked, BasicIsUnmarked, LiteralIsUnmarked};
ghost use Rattle.toml_text.specs.Positions.{CharactersBegin};

/// `run_len` finds the longest run of bytes that pass a test at the front.
pub fn runs()
    ensures piece { RunIsPiece }
    ensures found { RunIsFound }
    ensures longest { RunIsLongest }
    ensures stops { RunStops }
{}

/// `newline_len` finds the newline at the front, and 0 only where none stands.
pub fn newlines()
    ensures piece { NewlineIsPiece }
    ensures found { NewlineIsFound }
{}

/// `comment_len` finds the longest comment at the front, and 0 only where none stands.
pub fn comments()
    ensures piece { CommentIsPiece }
    ensures found { CommentIsFound }
{}

/// What a first byte that passes one test tells of another test.
pub fn firsts()
    ensures apart { BeginsApart }
    ensures wider { BeginsWider }
{}

/// Which runs up to a mark are those of a comment, of a basic string and of a literal string.
pub fn unmarked()
    ensures comment { CommentIsUnmarked }
    ensures basic { BasicIsUnmarked }
    ensures literal { LiteralIsUnmarked }
{}

/// A column, which counts the bytes that begin a character, counts characters.
pub fn characters()
    ensures { CharactersBegin }
{}
