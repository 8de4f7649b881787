// The scan of a whole file, one byte after the other.
ghost use Rattle.std.specs.Prelude.{◌≡◌, ◌&&◌, ◌≤◌, ◌^◌, eqb};
ghost use Rattle.csv_text.specs.Records.{begin, plain, quoted, closing, ended, final, after_field, next as reading_next, textdata as reading_textdata};
ghost use Rattle.csv_text.specs.promises.Scan.{scanned, state, tally_of, separates, at_end, scan_answer, step as Scan-step, over as scan_over, finished as scan_finished, Small};
ghost use Rattle.base.specs.promises.Counting.{one};

const LF: u8 = 0x0A;

const CR: u8 = 0x0D;

const DQUOTE: u8 = 0x22;

const COMMA: u8 = 0x2C;

// What the scan of a regular file finds: how many records it has, and how many of these have the
// fields that are asked before the first that has not.
#[derive(Clone, Copy)]
pub struct Regular {
    pub records: usize,
    pub fitting: usize,
}

// Where the next byte stands.
#[derive(Clone, Copy)]
pub enum Place {
    Begin,
    Plain,
    Quoted,
    Closing,
    Ended,
    Broken,
}

// What the scan knows after some bytes: where it is, the fields of the record begun (0 where none
// is), the records ended, and how many of these fit before the first that doesn't.
#[derive(Clone, Copy)]
pub struct Tally {
    pub place: Place,
    pub fields: usize,
    pub records: usize,
    pub fitting: usize,
}

fn textdata(b: u8) -> bool
    ensures { result ≡ reading_textdata b }
{
    if b < 0x20 {
        return false;
    }
    if b == DQUOTE {
        return false;
    }
    if b == COMMA {
        return false;
    }
    b <= 0x7E
}

fn after_field(b: u8) -> Place
    ensures { state result ≡ after_field b }
{
    if b == COMMA {
        return Place::Begin;
    }
    if b == CR {
        return Place::Ended;
    }
    Place::Broken
}

fn next(place: Place, b: u8) -> Place
    ensures { state result ≡ reading_next (state place) b }
{
    match place {
        Place::Begin => after_begin(b),
        Place::Plain => after_plain(b),
        Place::Quoted => after_quoted(b),
        Place::Closing => after_closing(b),
        Place::Ended => after_ended(b),
        Place::Broken => Place::Broken,
    }
}

fn after_begin(b: u8) -> Place
    ensures { state result ≡ reading_next begin b }
{
    if b == DQUOTE {
        return Place::Quoted;
    }
    if textdata(b) {
        return Place::Plain;
    }
    after_field(b)
}

fn after_plain(b: u8) -> Place
    ensures { state result ≡ reading_next plain b }
{
    if textdata(b) {
        return Place::Plain;
    }
    after_field(b)
}

fn after_quoted(b: u8) -> Place
    ensures { state result ≡ reading_next quoted b }
{
    if b == DQUOTE {
        return Place::Closing;
    }
    if textdata(b) {
        return Place::Quoted;
    }
    if b == COMMA {
        return Place::Quoted;
    }
    if b == CR {
        return Place::Quoted;
    }
    if b == LF {
        return Place::Quoted;
    }
    Place::Broken
}

fn after_closing(b: u8) -> Place
    ensures { state result ≡ reading_next closing b }
{
    if b == DQUOTE {
        return Place::Quoted;
    }
    after_field(b)
}

fn after_ended(b: u8) -> Place
    ensures { state result ≡ reading_next ended b }
{
    if b == LF {
        return Place::Begin;
    }
    Place::Broken
}

// 1 where the byte begins one more field, else 0.
fn separator(place: Place, b: u8) -> usize
    ensures { result ≡ one (separates (state place) b) }
{
    match place {
        Place::Begin | Place::Plain | Place::Closing => usize::from(b == COMMA),
        Place::Quoted => 0,
        Place::Ended | Place::Broken => 0,
    }
}

fn at_end(place: Place) -> bool
    ensures { result ≡ at_end (state place) }
{
    match place {
        Place::Begin => false,
        Place::Plain => false,
        Place::Quoted => false,
        Place::Closing => false,
        Place::Ended => true,
        Place::Broken => false,
    }
}

fn may_end(place: Place) -> bool
    ensures { result ≡ final (state place) }
{
    match place {
        Place::Begin => true,
        Place::Plain => true,
        Place::Quoted => false,
        Place::Closing => true,
        Place::Ended => false,
        Place::Broken => false,
    }
}

// The record begun has ended, and what follows it stands at `place`.
fn over(t: Tally, width: usize, place: Place) -> Tally
    requires records_bound { t.records ≤ 2 ^ 63 }
    requires fitting_bound { t.fitting ≤ 2 ^ 63 }
    ensures { tally_of result ≡ scan_over width (state place) (tally_of t) }
{
    Tally {
        place: place,
        fields: 0,
        records: t.records + 1,
        fitting: t.fitting + fits(t.fitting, t.records, t.fields, width),
    }
}

// 1 where every record so far fits and the one that ends does too, else 0.
fn fits(fitting: usize, records: usize, fields: usize, width: usize) -> usize
    ensures { result ≡ one (eqb fitting records && eqb width fields) }
{
    usize::from(fitting == records && width == fields)
}

fn step(t: Tally, width: usize, b: u8) -> Tally
    requires { Small t }
    ensures { tally_of result ≡ Scan-step width (tally_of t) b }
{
    let place = t.place;
    let after = next(place, b);
    if at_end(place) {
        return over(t, width, after);
    }
    Tally {
        place: after,
        fields: t.fields.max(1) + separator(place, b),
        records: t.records,
        fitting: t.fitting,
    }
}

fn finished(t: Tally, width: usize) -> Option<Regular>
    requires { Small t }
    ensures { result ≡ scan_answer (scan_finished width (tally_of t)) }
{
    if t.fields == 0 {
        return verdict(t);
    }
    let place = t.place;
    verdict(over(t, width, place))
}

fn verdict(t: Tally) -> Option<Regular>
    ensures { result ≡ scan_answer (tally_of t) }
{
    let place = t.place;
    if may_end(place) {
        return Some(Regular {
            records: t.records,
            fitting: t.fitting,
        });
    }
    None
}

// What the scan finds; nothing where the file is not RFC 4180.
pub fn scan(s: &[u8], width: usize) -> Option<Regular>
    ensures { result ≡ scanned width s.now }
{
    let mut t = Tally {
        place: Place::Begin,
        fields: 1,
        records: 0,
        fitting: 0,
    };
    for b in s {
        t = step(t, width, *b);
    }
    finished(t, width)
}
