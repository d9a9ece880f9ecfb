//! What the program does, over any streams of std: from its words and three streams to what stands in these and the exit status.
ghost use Rattle.std.specs.Prelude.{◌≡◌, ◌⊎◌, ℕ, List, Option, is_some, map, IfOk, IfErr, OnErr, IsOkAnd, IsErrAnd, Err, None};
ghost use Rattle.std.specs.Option.{option_map};
ghost use Rattle.std.specs.String.{string_bytes};
ghost use Rattle.clap.specs.Words.{kind_of};
ghost use Rattle.deck_driver.specs.declared.options.Options.{Options};
ghost use Rattle.mon_device.specs.Putting.{Standing};
ghost use Rattle.snomon_library.specs.Streams.{told_since};
ghost use Rattle.snomon_library.specs.Endings.{Ends, Tells};
ghost use Rattle.snomon_library.specs.Asking.{GivesAll};

use crate::asking::take_audit;
use crate::audited_run::run_audited;
use crate::options::{no_text, read_options};
use crate::shell::{Ended, finish, refuse};
use clap::Error;
use clap::error::ErrorKind;
use deck_driver::{Options, RunError};
use sno_text::Seed;
use std::alloc::{AllocError, Global};
use std::convert::AsStr;
use std::io;
use std::io::{Read, Write};

/// What the words of a command line ask for.
#[derive(Drop)]
pub struct Given {
    /// The options of a run.
    pub options: Options,
    /// The name of the file that an audit is to be written to.
    pub audit: Option<String>,
}

/// Runs the deck that comes from one stream as its options say, writes its output to another, what it does to a file, if there is one, and
/// tells on a third stream what went wrong. Where there are no options, it tells why.
pub fn run<R: Read + Drop, W: Write + Drop, E: Write + Drop, F: Write + Drop>(
    alloc: Global,
    given: Result<Given, Error>,
    input: R,
    output: W,
    errors: E,
    file: Option<F>,
) -> Ended<R, W, E>
    // The status is 2 only where there are no options, and memory was not short; then no deck is read.
    ensures refused { result.status ≡ 2 → IsErrAnd given (λ error. kind_of error ≡ ErrorKind.OutOfMemory → ⊥) }
    ensures unread { OnErr given ((result.input ≡ input) × (result.output ≡ output)) }
    ensures ran { IfOk given (λ given. ((a b : Standing) × Ends given.options (R.remaining input) (told_since (R.remaining input) (R.remaining result.input))
        (W.contents output) (told_since (W.contents output) (W.contents result.output)) a b (is_some file)
        result.status result.is_told (E.contents errors) (E.contents result.errors))
        ⊎ ((result.status ≡ 3) × Tells (Err RunError.Memory) None result.is_told (E.contents errors) (E.contents result.errors)
        × (result.input ≡ input) × (result.output ≡ output))) }
    ensures short { IfErr given (λ error. (result.status ≡ 2)
        ⊎ ((result.status ≡ 3) × Tells (Err RunError.Memory) None result.is_told (E.contents errors) (E.contents result.errors))) }
    ensures silent { result.status ≡ 0 → result.errors ≡ errors }
{
    match given {
        Ok(given) => run_audited(alloc, given.options, input, output, errors, file).ended,
        Err(error) if error.kind() == ErrorKind::OutOfMemory => {
            finish(alloc, Err(RunError::Memory), None, input, output, errors)
        }
        Err(error) => refuse(error, input, output, errors),
    }
}

/// What the words ask for. The first word is the program's name; words that are no text ask for nothing. What jobs name is found by a
/// hash of this seed.
///
/// # Errors
///
/// Where the words give no options, as `take_audit` and `read_options` have it; words that do are refused for memory alone.
pub fn given_options<S: AsStr + Drop>(
    alloc: Global,
    seed: Seed,
    words: io::Result<Vec<S>>,
) -> Result<Given, Error>
    ensures given { IfOk result (λ given. IsOkAnd words (λ list. GivesAll (map S.text list.items) given.options (option_map string_bytes given.audit))) }
    ensures refused { IfErr result (λ error. (kind_of error ≡ ErrorKind.OutOfMemory)
        ⊎ ((options : Options) (file : Option (List ℕ)) → IsOkAnd words (λ list. GivesAll (map S.text list.items) options file) → ⊥)) }
{
    match words {
        Ok(words) => read_words(alloc, seed, words),
        Err(error) if error.kind() == io::ErrorKind::InvalidData => Err(no_text(alloc)?),
        Err(_) => Err(Error::from(AllocError)),
    }
}

// What words that are texts ask for.
fn read_words<S: AsStr + Drop>(alloc: Global, seed: Seed, words: Vec<S>) -> Result<Given, Error>
    ensures given { IfOk result (λ given. GivesAll (map S.text words.items) given.options (option_map string_bytes given.audit)) }
    ensures refused { IfErr result (λ error. (kind_of error ≡ ErrorKind.OutOfMemory)
        ⊎ ((options : Options) (file : Option (List ℕ)) → GivesAll (map S.text words.items) options file → ⊥)) }
{
    let mut words = words;
    let audit = take_audit(alloc, &mut words)?;
    let options = read_options(alloc, seed, words.as_slice())?;
    Ok(Given { options, audit })
}
