// Which lines of a text begin a case. Assumes nothing of it.
ghost use Rattle.std.specs.Prelude.{◌≡◌};
ghost use Rattle.test_cases.specs.promises.Lines.{is_case};

// Ends a line.
pub const LF: u8 = b'\n';

// Stands between the words of a line, and before one that goes on with a case.
pub const BLANK: u8 = b' ';

// Begins a comment.
const COMMENT: u8 = b'#';

// Whether a line begins a case.
pub fn is_case(line: &[u8]) -> bool
    ensures { result ≡ is_case line.now }
{
    if line.len() == 0 {
        return false;
    }
    if line[0] == BLANK {
        return false;
    }
    line[0] != COMMENT
}
