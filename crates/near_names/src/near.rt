//! Names that are easily taken for one another.
ghost use Rattle.std.specs.Prelude.{◌≡◌};
ghost use Rattle.near_names.specs.Near.{are_exchanged, begins, is_near, is_one_edit, is_slip, is_same};

/// The fewest letters of a name by which another is known that begins with it.
const FEWEST: usize = 3;

/// Whether one of two names may be meant by the other: one begins with the other, or one edit leads from one to the other: a letter
/// is missing, one too many or another one, or two neighbours are exchanged. Upper and lower case count as one.
#[tactic(auto, unfolding(crate::specs::Near::is_near))]
pub fn is_near(name: &str, known: &str) -> bool
    ensures { result ≡ is_near name.now known.now }
{
    let (name, known) = (name.as_bytes(), known.as_bytes());
    begins(name, known) || begins(known, name) || is_slip(name, known)
}

/// Whether a name that is long enough is the beginning of another.
fn begins(front: &[u8], whole: &[u8]) -> bool
    ensures { result ≡ begins front.now whole.now }
{
    front.len() >= FEWEST && front.len() <= whole.len() && is_same(front, &whole[..front.len()])
}

/// Whether the names are the same but for one edit.
fn is_slip(a: &[u8], b: &[u8]) -> bool
    ensures { result ≡ is_slip a.now b.now }
{
    let shorter = a.len().min(b.len());
    for i in 0..shorter {
        if !a[i].eq_ignore_ascii_case(&b[i]) {
            return is_one_edit(&a[i..], &b[i..]);
        }
    }
    if a.len() == shorter {
        b.len() - shorter <= 1
    } else {
        a.len() - shorter <= 1
    }
}

/// Whether the first letter is missing, one too many or another one, or exchanged with the next.
fn is_one_edit(a: &[u8], b: &[u8]) -> bool
    ensures { result ≡ is_one_edit a.now b.now }
{
    match (a, b) {
        ([_, more @ ..], [_, others @ ..]) => {
            is_same(more, b) || is_same(a, others) || is_same(more, others) || are_exchanged(a, b)
        }
        _ => false,
    }
}

/// Whether the first two letters are exchanged.
fn are_exchanged(a: &[u8], b: &[u8]) -> bool
    ensures { result ≡ are_exchanged a.now b.now }
{
    match (a, b) {
        ([x, y, more @ ..], [v, w, others @ ..]) => {
            x.eq_ignore_ascii_case(w) && y.eq_ignore_ascii_case(v) && is_same(more, others)
        }
        _ => false,
    }
}

/// Whether the letters are the same.
#[tactic(auto, using(crate::proofs::Same::decided))]
fn is_same(a: &[u8], b: &[u8]) -> bool
    ensures { result ≡ is_same a.now b.now }
{
    a.eq_ignore_ascii_case(b)
}
