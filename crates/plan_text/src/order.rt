//! Whether the rows of a plan file stand in order.
ghost use Rattle.std.specs.Prelude.{◌≡◌};
ghost use Rattle.std.specs.Cmp.Lexicographic.{slice_cmp};
ghost use Rattle.std.specs.Map.{keys_of};
ghost use Rattle.std.specs.Ordering.{nat_cmp, is_lt};
ghost use Rattle.bucket_core.specs.Rule.{names_view};
ghost use Rattle.transport_core.specs.Certificate.{alpha_view, beta_view};
ghost use Rattle.transport_core.specs.Groups.{group_cmp};
ghost use Rattle.plan_text.specs.PlanFile.{comes_before, rises};

/// Whether the groups rise strictly, by name and then by number.
pub(crate) fn alpha_rises(alpha: &[(String, u32, i64)]) -> bool
    ensures { result ≡ rises group_cmp (keys_of (alpha_view alpha.now)) }
{
    let mut rest = alpha;
    while let [(name, count, _), others @ ..] = rest {
        if !group_comes_before(name.as_str(), *count, others) {
            return false;
        }
        rest = others;
    }
    true
}

fn group_comes_before(name: &str, count: u32, others: &[(String, u32, i64)]) -> bool
    ensures { result ≡ comes_before group_cmp (name.now, count) (keys_of (alpha_view others.now)) }
{
    match others {
        [] => true,
        [(other, number, _), ..] => is_group_before(name, count, other.as_str(), *number),
    }
}

/// Whether a group comes before another, by name and then by number.
pub(crate) fn is_group_before(name: &str, count: u32, other: &str, number: u32) -> bool
    ensures { result ≡ is_lt (group_cmp (name.now, count) (other.now, number)) }
{
    name.cmp(other).then(count.cmp(&number)).is_lt()
}

/// Whether the names rise strictly.
pub(crate) fn beta_rises(beta: &[(String, i64)]) -> bool
    ensures { result ≡ rises (slice_cmp nat_cmp) (keys_of (beta_view beta.now)) }
{
    let mut rest = beta;
    while let [(name, _), others @ ..] = rest {
        if !row_comes_before(name.as_str(), others) {
            return false;
        }
        rest = others;
    }
    true
}

fn row_comes_before(name: &str, others: &[(String, i64)]) -> bool
    ensures { result ≡ comes_before (slice_cmp nat_cmp) name.now (keys_of (beta_view others.now)) }
{
    match others {
        [] => true,
        [(other, _), ..] => name < other.as_str(),
    }
}

/// Whether the names rise strictly, as those of a set do.
pub(crate) fn names_rise(names: &[String]) -> bool
    ensures { result ≡ rises (slice_cmp nat_cmp) (names_view names.now) }
{
    let mut rest = names;
    while let [name, others @ ..] = rest {
        if !name_comes_before(name.as_str(), others) {
            return false;
        }
        rest = others;
    }
    true
}

fn name_comes_before(name: &str, others: &[String]) -> bool
    ensures { result ≡ comes_before (slice_cmp nat_cmp) name.now (names_view others.now) }
{
    match others {
        [] => true,
        [other, ..] => name < other.as_str(),
    }
}
