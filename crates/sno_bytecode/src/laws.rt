//! Laws of code. Each is the contract of a function that does nothing.
ghost use Rattle.sno_bytecode.specs.Laws.{CodeAloneMeansTree, CodeMeansName, CodeRunsAlike};
ghost use Rattle.sno_bytecode.specs.inner.Laws.{CodeMeansAct, CodeMeansTree};

/// The code of an expression does what the expression means, whatever variables, keywords and functions do.
pub fn code_alone_means_tree<Q, R, K>()
    ensures { CodeAloneMeansTree Q R K }
{}

/// The code of a variable's name gives the name.
pub fn code_means_name<Q, R, K>()
    ensures { CodeMeansName Q R K }
{}

/// The code of an expression, in front of other code, does what it means and goes on with the value, or behind what
/// catches the failure.
pub fn code_means_tree<Q, R, K>()
    ensures { CodeMeansTree Q R K }
{}

/// The code of what a statement does, does what the statement means, whatever calls do.
pub fn code_means_act<Q, R, K>()
    ensures { CodeMeansAct Q R K }
{}

/// A program in code does what its statements mean, with all calls of its functions, whatever keeps the state of a job.
pub fn code_runs_alike<Q, R, K>()
    ensures { CodeRunsAlike Q R K }
{}
