// Two texts, byte by byte. Assumes nothing of them.
ghost use Rattle.std.specs.Prelude.{◌≡◌};
ghost use Rattle.base.specs.Text.{same};

// Pair by pair, and not `s == t`: an edit turns the comparison of two bytes.
pub fn same_text(s: &[u8], t: &[u8]) -> bool
    ensures { result ≡ same s.now t.now }
{
    s.len() == t.len() && s.iter().zip(t).all(|(b, c)| b == c)
}
