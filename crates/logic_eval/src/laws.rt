//! What holds of the definitions alone.
ghost use Rattle.logic_eval.specs.Laws.{ReadableOperandsAreAsEver, WithoutDecimalsAsEver, LiteralSiteChooses, TrueTestSkipsTheRest, FalseTestSkipsItsResult, FalseEndsAnd, TrueEndsOr, OneSiteReplaced, ReachedAreGiven};

/// A site whose entries are literal evaluates its bucketing expression alone, and gives what its rule chooses for the input.
pub fn a_literal_site_chooses()
    ensures { LiteralSiteChooses }
{}

/// A branch that isn't taken is not evaluated: it reaches no site, costs nothing and has no fault.
pub fn a_branch_not_taken_is_not_evaluated()
    ensures true_test { TrueTestSkipsTheRest }
    ensures false_test { FalseTestSkipsItsResult }
    ensures false_argument { FalseEndsAnd }
    ensures true_argument { TrueEndsOr }
{}

/// Where no number of the context is read that is not whole, an argument that is compared or tested is evaluated as it is elsewhere, and the
/// operators give of their values what they gave before such numbers were compared.
pub fn decimals_change_nothing_else()
    ensures read { ReadableOperandsAreAsEver }
    ensures compared { WithoutDecimalsAsEver }
{}

/// Where one site gets another rule, and each input that reaches it chooses as before, the evaluation gives the same value or
/// fault, and reaches the same sites by the same inputs: only that site's total is the new rule's. What it reaches is what it
/// gives beside a value; of an evaluation that ends in a fault it is what came before the fault.
pub fn a_rule_that_chooses_alike_changes_nothing_else()
    ensures replaced { OneSiteReplaced }
    ensures reached { ReachedAreGiven }
{}
