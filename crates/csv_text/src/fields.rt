// Fields as parts of a file that begin where the field begins, a quoted one at its opening quote.
ghost use Rattle.std.specs.Prelude.{◌≡◌, false, length, drop, ◌≤◌};
ghost use Rattle.csv_text.specs.promises.Fields.{extent, unread, inner as fields_inner, turned as fields_turned, ends_field as fields_separates};

const CR: u8 = 0x0D;

const DQUOTE: u8 = 0x22;

const COMMA: u8 = 0x2C;

// How many bytes the field at the start of `s` has, its quotes included.
pub fn field_length(s: &[u8]) -> usize
    ensures value { result ≡ extent false s.now }
    ensures upper_bound { result ≤ length s.now }
{
    let mut inside = false;
    for (i, b) in s.iter().enumerate() {
        if separates(inside, *b) {
            return i;
        }
        inside = turned(inside, *b);
    }
    s.len()
}

// Where what is left unread begins, behind a field of `n` bytes at the start of `s` and behind its
// COMMA or CR LF.
pub fn after_field(s: &[u8], n: usize) -> usize
    ensures s_value { drop result s.now ≡ unread s.now n }
    ensures upper_bound { result ≤ length s.now }
{
    let end = s.len();
    if end <= n {
        return end;
    }
    if s[n] == COMMA {
        return n + 1;
    }
    if end <= n + 2 {
        return end;
    }
    n + 2
}

// The text of a field without the quotes around it.
pub fn inner(t: &[u8]) -> &[u8]
    ensures { result.now ≡ fields_inner t.now }
{
    if t.len() == 0 {
        return t;
    }
    if t[0] == DQUOTE {
        if t.len() == 1 {
            return &t[1..];
        }
        let end = t.len() - 1;
        return &t[1..end];
    }
    t
}

fn turned(inside: bool, b: u8) -> bool
    ensures { result ≡ fields_turned inside b }
{
    if b == DQUOTE { !inside } else { inside }
}

fn separates(inside: bool, b: u8) -> bool
    ensures { result ≡ fields_separates inside b }
{
    if inside {
        return false;
    }
    if b == COMMA {
        return true;
    }
    b == CR
}
