//! Laws of interactions, for every interaction and everyone who replies. Each is the contract of a function that does nothing.
ghost use Rattle.interaction.specs.InteractionLaws.{ThenThen, RunsAlike, BegunGoesOn, PartsRun, RunsAreTraced, TracesAreRun, StopsHadBegun, OneRun, PartsStop, BrokenGoesOn, RunsInterpreted, StopsInterpreted};

/// Who replies to questions: it stands for anyone.
pub trait Replier {
    type Question;

    type Reply;

    /// In the first state it may give this reply to the question, and is in the second then.
    ghost meaning: { Self → Self.Question → Self.Reply → Self → Type 0 };

    /// The reply is one that the question may have.
    ghost fits: { Self.Question → Self.Reply → Type 0 };

    /// Where a question that is not replied to may leave it.
    ghost broken: { Self → Self.Question → Self → Type 0 };
}

/// Of three interactions one after the other it does not matter which two are joined first.
pub fn then_then<Q, R, A, B, C>()
    ensures { ThenThen Q R A B C }
{}

/// Two runs of one interaction whose replies begin alike ask the same, and end alike.
pub fn runs_alike<S: Replier, A>()
    ensures { RunsAlike S.fits A }
{}

/// What has begun goes on to some end, if each question has a reply that fits.
pub fn begun_goes_on<S: Replier, A>()
    ensures { BegunGoesOn S.fits A }
{}

/// Two interactions held one after the other are both of them held.
pub fn parts_run<S: Replier, A, B>()
    ensures { PartsRun S.meaning S.fits A B }
{}

/// What was held was told, by some exchanges, and answered.
pub fn runs_are_traced<S: Replier, A>()
    ensures { RunsAreTraced S.meaning S.fits A }
{}

/// What was told and answered was held.
pub fn traces_are_run<S: Replier, A>()
    ensures { TracesAreRun S.meaning S.fits A }
{}

/// Where an interaction was broken off between two questions, it had begun.
pub fn stops_had_begun<S: Replier, A>()
    ensures { StopsHadBegun S.meaning S.fits A }
{}

/// With who has one reply to each question there is one run.
pub fn one_run<S: Replier, A>()
    ensures { OneRun S.meaning S.fits A }
{}

/// What is broken off in one of two interactions is broken off in both together, and it can be at once.
pub fn parts_stop<S: Replier, A, B>()
    ensures { PartsStop S.meaning S.fits S.broken A B }
{}

/// Wherever an interaction was broken off, inside a question too, what was asked begins a whole run of it.
pub fn broken_goes_on<S: Replier, A>()
    ensures { BrokenGoesOn S.meaning S.fits S.broken A }
{}

/// A host that puts each question as an interaction with someone else holds the whole as one such interaction.
pub fn runs_interpreted<H: Replier, S: Replier, K, A>()
    ensures { RunsInterpreted H.meaning H.fits S.meaning S.fits K A }
{}

/// Where the interaction with such a host is broken off, so is the one with who stands behind it.
pub fn stops_interpreted<H: Replier, S: Replier, K, A>()
    ensures { StopsInterpreted H.meaning H.fits S.meaning S.fits S.broken H.broken K A }
{}
