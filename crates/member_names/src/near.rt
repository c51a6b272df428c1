//! Names that are easily taken for one another.
ghost use Rattle.std.specs.Prelude.{◌≤◌, length};

/// The fewest letters of a name by which another is known that begins with it.
const FEWEST: usize = 3;

/// Whether one of two names may be meant by the other: one begins with the other, or they differ in one letter, or in the
/// order of two neighbours. Upper and lower case count as one.
pub(crate) fn is_near(name: &str, known: &str) -> bool {
    let (a, b) = (name.as_bytes(), known.as_bytes());
    let front = common_front(a, b);
    if front == a.len() || front == b.len() {
        return front >= FEWEST;
    }
    let (a, b) = (&a[front..], &b[front..]);
    let back = common_back(a, b);
    is_one_slip(&a[..a.len() - back], &b[..b.len() - back])
}

/// How many bytes from the first on are the same.
fn common_front(a: &[u8], b: &[u8]) -> usize
    ensures first { result ≤ length a.now }
    ensures second { result ≤ length b.now }
{
    let most = a.len().min(b.len());
    for i in 0..most {
        if !a[i].eq_ignore_ascii_case(&b[i]) {
            return i;
        }
    }
    most
}

/// How many bytes from the last on are the same.
fn common_back(a: &[u8], b: &[u8]) -> usize
    ensures first { result ≤ length a.now }
    ensures second { result ≤ length b.now }
{
    let most = a.len().min(b.len());
    for i in 0..most {
        if !a[a.len() - 1 - i].eq_ignore_ascii_case(&b[b.len() - 1 - i]) {
            return i;
        }
    }
    most
}

/// Whether what differs is one letter, or two that stand the other way round.
fn is_one_slip(a: &[u8], b: &[u8]) -> bool {
    match (a, b) {
        ([x, y], [v, w]) => x == w && y == v,
        _ => a.len() <= 1 && b.len() <= 1,
    }
}
