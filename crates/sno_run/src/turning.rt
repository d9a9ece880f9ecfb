//! Jobs, and their turns.
ghost use Rattle.std.specs.Prelude.{◌≡◌, List, IfOk, OnErr, Some};
ghost use Rattle.interaction.specs.Exchanges.{AnswersAll};
ghost use Rattle.interaction.specs.Asking.{Exchange};
ghost use Rattle.interaction.specs.Counting.{RunsTo, StopsIn};
ghost use Rattle.sno_syntax.specs.Programs.{program_of};
ghost use Rattle.sno_cards.specs.Limits.{AreLimits};
ghost use Rattle.sno_semantics.specs.Execution.{On};
ghost use Rattle.sno_run.specs.Jobs.{first_job, first_point, ending_of, stepped, statements_begun, TurnIs};
ghost use Rattle.sno_run.specs.Abstraction.{job_of};
ghost use Rattle.sno_bytecode.specs.inner.Seen.{point_seen, next_seen};
ghost use Rattle.sno_state.specs.inner.Counting.{Started, beside};
ghost use Rattle.sno_run.specs.inner.Turning.{turned_of, HasLine, turn_coded, settled_coded};

use crate::ending::{Ending, Step};
use crate::machine::run_line;
use interaction::Service;
use sno_bytecode::{Jump, Point, Stack};
use sno_semantics::Halt;
use sno_state::{CompiledProgram, Limits};
use sno_store::Store;
use sno_syntax::{Program, Start};
use sno_text::Fault;
use std::alloc::{AllocError, Global};

/// A program with the state that its statements change.
#[derive(Drop)]
pub struct Job {
    program: CompiledProgram,
    point: Point,
    store: Store,
    ended: Option<Ending>,
    // One for all statements that no function runs.
    stack: Stack,
}

/// What a turn comes to.
#[derive(Clone, Copy)]
enum Turned {
    Goes(Point),
    Ended(Halt),
}

fn first_point(start: Start) -> Point
    ensures { point_seen result ≡ first_point start }
{
    match start {
        Start::Statement(index) => Point::At(index),
        Start::End => Point::End,
    }
}

// How a job ends, with the statement at hand where that is told.
fn ending_of(halt: Halt, state: &Store) -> Ending
    ensures { result ≡ ending_of halt state.now }
{
    let statement = state.statement();
    match halt {
        Halt::Normal => Ending::Normal,
        Halt::StatementLimit => Ending::StatementLimit,
        Halt::MatchLimit => Ending::MatchLimit(statement),
        Halt::Fault(fault) => Ending::Fault(fault, statement),
    }
}

// What comes of going on at a point, in no function.
fn settled_at(program: &CompiledProgram, point: Point, state: &Store) -> Turned
    ensures { (turned_of result, state.now) ≡ settled_coded program.now (On (point_seen point), state.now) }
{
    match point {
        Point::At(index) => match program.line(index) {
            Some(_) => Turned::Goes(Point::At(index)),
            None => Turned::Ended(Halt::Normal),
        },
        Point::End => Turned::Ended(Halt::Normal),
        Point::Return => Turned::Ended(Halt::Fault(Fault::Level)),
        Point::FailureReturn => Turned::Ended(Halt::Fault(Fault::Level)),
    }
}

// What comes of where a statement leads that no function runs.
fn settled(program: &CompiledProgram, next: Jump, state: &Store) -> Turned
    ensures { (turned_of result, state.now) ≡ settled_coded program.now (next_seen next, state.now) }
{
    match next {
        Jump::On(point) => settled_at(program, point, state),
        Jump::Over(halt) => Turned::Ended(halt),
    }
}

// A turn at a point.
#[inline(always)]
#[tactic(auto, using(interaction::proofs::Held::talking))]
fn turn_at<S: Service>(
    alloc: Global,
    program: &CompiledProgram,
    point: Point,
    stack: &mut Stack,
    state: &mut Store,
    service: &mut S,
) -> Result<Turned, AllocError>
    requires { S.ready service.old }
    ensures held { IfOk result (λ turned. RunsTo S.answers (turn_coded program.now (point_seen point) state.old) (beside service.old state.old) (turned_of turned, state.new) (beside service.new state.new)) }
    ensures cut { OnErr result (StopsIn S.answers (turn_coded program.now (point_seen point) state.old) (beside service.old state.old) (beside service.new state.new)) }
    ensures line { OnErr result (HasLine program.now (point_seen point)) }
    ensures started { OnErr result (Started program.now.limits state.old state.new) }
    ensures ready { S.ready service.new }
{
    match point {
        Point::At(index) => match program.line(index) {
            Some(line) => {
                let most = program.limits.statements;
                let next = run_line(alloc, program, most, index, line, stack, state, service)?;
                Ok(settled(program, next, state))
            }
            None => Ok(Turned::Ended(Halt::Normal)),
        },
        Point::End => Ok(Turned::Ended(Halt::Normal)),
        Point::Return => Ok(Turned::Ended(Halt::Fault(Fault::Level))),
        Point::FailureReturn => Ok(Turned::Ended(Halt::Fault(Fault::Level))),
    }
}

impl Job {
    /// A job that runs a program, with these limits.
    ///
    /// # Errors
    ///
    /// Where a growth was refused.
    pub fn new(alloc: Global, program: Program, limits: Limits) -> Result<Job, AllocError>
        requires { AreLimits limits }
        ensures { IfOk result (λ job. job_of job ≡ first_job (program_of program) limits) }
    {
        let point = first_point(program.start);
        let store = Store::new(alloc, program.labels.seed(), limits.statements)?;
        let program = CompiledProgram::new(alloc, program, limits)?;
        Ok(Job {
            program,
            point,
            store,
            ended: None,
            stack: Stack::new(alloc),
        })
    }

    /// How many statements have begun. It takes no memory.
    pub fn statements(&self) -> u64
        ensures { result ≡ statements_begun (job_of self.now) }
    {
        self.store.begun()
    }

    // The turn has come to this.
    fn step(&mut self, turned: Turned) -> Step
        ensures { (result, job_of self.new) ≡ stepped (job_of self.old) (turned_of turned, self.old.store) }
    {
        match turned {
            Turned::Goes(point) => {
                self.point = point;
                Step::Goes
            }
            Turned::Ended(halt) => {
                let ending = ending_of(halt, &self.store);
                self.ended = Some(ending);
                Step::Ended(ending)
            }
        }
    }
}

/// Gives a job a turn: one statement with all calls in it. A job that has ended answers its ending again, and asks nothing.
///
/// After `Memory` what was asked stands, and the job has ended. Memory is taken by a statement that has begun alone.
#[inline(always)]
#[tactic(auto, using(interaction::proofs::Held::talking))]
pub fn statement_turn<S: Service>(alloc: Global, job: &mut Job, service: &mut S) -> Step
    requires { S.ready service.old }
    ensures turn { (x : List Exchange) × AnswersAll S.answers service.old x service.new × TurnIs (job_of job.old) x result (job_of job.new) }
    ensures ready { S.ready service.new }
{
    match job.ended {
        Some(ending) => Step::Ended(ending),
        None => match turn_at(
            alloc,
            &job.program,
            job.point,
            &mut job.stack,
            &mut job.store,
            service,
        ) {
            Ok(turned) => job.step(turned),
            Err(_) => {
                job.ended = Some(Ending::Memory);
                Step::Ended(Ending::Memory)
            }
        },
    }
}
