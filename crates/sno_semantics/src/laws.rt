//! Laws of programs. Each is the contract of a function that does nothing.
ghost use Rattle.sno_semantics.specs.Limits.{LimitIsExact};

/// The limit of statements is exact: a number that lets as many begin as the state still allows ends no run early, and a
/// larger one none later.
pub fn limit_is_exact<Q, R, K>()
    ensures { LimitIsExact Q R K }
{}
