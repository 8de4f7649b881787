// A text taken apart at a byte that stands between its lines or words. Assumes nothing of it.
ghost use Rattle.std.specs.Prelude.{◌≡◌, ◌≤◌, length};
ghost use Rattle.texts.specs.promises.Parting.{before, past, past_place};

// Where the first stop stands, or how long a text is that has none.
fn end(text: &[u8], stop: u8) -> usize
    ensures value { result ≡ length (before stop text.now) }
    ensures upper_bound { result ≤ length text.now }
{
    for (i, b) in text.iter().enumerate() {
        if *b == stop {
            return i;
        }
    }
    text.len()
}

// What stands before the first stop.
pub fn first(text: &[u8], stop: u8) -> &[u8]
    ensures { result.now ≡ before stop text.now }
{
    let e = end(text, stop);
    &text[0..e]
}

// Where what stands behind the first stop begins, past the first byte if there is one. Nothing is
// behind a stop that is missing.
pub fn behind(text: &[u8], stop: u8) -> usize
    ensures { result ≡ past_place stop text.now }
{
    let e = end(text, stop);
    if e < text.len() {
        return e + 1;
    }
    e
}

// What stands behind the first stop, so that a word that is missing is empty.
pub fn after(text: &[u8], stop: u8) -> &[u8]
    ensures { result.now ≡ past stop text.now }
{
    let next = behind(text, stop);
    &text[next..]
}
