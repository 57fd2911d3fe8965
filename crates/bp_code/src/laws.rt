//! Laws of refusals.
ghost use Rattle.bp_code.specs.Refusals.{OneRefusal, NoRefusalOfWellFormed};

/// Proves that a program has at most one refusal, `Memory` aside, and a well-formed one has none.
pub fn has_one_refusal()
    ensures one { OneRefusal }
    ensures none { NoRefusalOfWellFormed }
{}
