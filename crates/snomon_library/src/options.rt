//! The words of the command line, and the options that they give.
ghost use Rattle.std.specs.Prelude.{◌≡◌, ◌≤◌, ◌⊎◌, ℕ, List, None, Some, codes, map, IfOk, IfErr};
ghost use Rattle.clap.specs.Words.{app_of, found_of, kind_of, one_text};
ghost use Rattle.deck_driver.specs.declared.options.Options.{Options};
ghost use Rattle.snomon_library.specs.CommandLine.{Gives, Writes, snomon};

use clap::error::ErrorKind;
use clap::{Arg, ArgAction, ArgMatches, Command, Error};
use deck_driver::{Options, Slots};
use sno_text::Seed;
use std::alloc::{AllocError, Global};
use std::convert::AsStr;

/// What the words of a command line ask for, with this seed. The first word is the program's name.
///
/// # Errors
///
/// Where the words give no options: an unknown one, one that is given twice, a number of slots that is none from 1 to 8, a word that
/// is none, or a call for help or for the version. The text of the error, which is that of the help and the version too, is `clap`'s.
/// Its kind is `OutOfMemory` where a growth was refused, and words that give options are refused for that alone.
pub fn read_options<S: AsStr>(alloc: Global, seed: Seed, words: &[S]) -> Result<Options, Error>
    ensures given { IfOk result (λ options. Gives (map S.text words.now) options) }
    ensures refused { IfErr result (λ error. (kind_of error ≡ ErrorKind.OutOfMemory)
        ⊎ ((options : Options) → Gives (map S.text words.now) options → ⊥)) }
{
    let matches = command(alloc)?.try_get_matches_from(words)?;
    Ok(Options {
        slots: slots_in(&matches),
        check: matches.get_flag("check"),
        seed,
    })
}

// The number of slots that was given, and else that of options which say nothing.
fn slots_in(matches: &ArgMatches) -> Slots
    ensures none { one_text (found_of matches.now) (codes "slots") ≡ None → result.number ≡ 4 }
    ensures some { (text : List ℕ) (number : ℕ) → one_text (found_of matches.now) (codes "slots") ≡ Some text → Writes text number
        → 1 ≤ number → number ≤ 8 → result.number ≡ number }
{
    match matches.get_one::<u8>("slots") {
        Some(number) => Slots::new(number).unwrap_or(Options::new().slots),
        None => Options::new().slots,
    }
}

/// The error for a word that is no text, and so no option.
///
/// # Errors
///
/// Where a growth was refused.
pub fn no_text(alloc: Global) -> Result<Error, AllocError>
    ensures { IfOk result (λ error. kind_of error ≡ ErrorKind.UnknownArgument) }
{
    command(alloc)?.error(ErrorKind::UnknownArgument, "a word is no text in UTF-8")
}

/// The error for an audit without a file.
///
/// # Errors
///
/// Where a growth was refused.
pub fn no_file(alloc: Global) -> Result<Error, AllocError>
    ensures { IfOk result (λ error. kind_of error ≡ ErrorKind.ValueValidation) }
{
    command(alloc)?.error(
        ErrorKind::ValueValidation,
        "--audit wants a file, whose name does not begin with `-`",
    )
}

// What follows the list of options in the help.
const AFTER_HELP: &str = "Beside these, among them:
      --audit <FILE>  Also writes who asked for what, and by which entry it was granted or denied

The deck comes from standard input:

  snomon < payroll.deck > payroll.out

Exit status: 0 where the deck ran, or is good; 1 where it is refused; 2 where the words
give no options, or ask for this help or the version, which go to standard error;
3 where reading, writing or memory failed, or the audit could not be written.
";

// The program's options, as `clap` knows them. Help and version are among them without being named.
fn command<'a>(alloc: Global) -> Result<Command<'a>, AllocError>
    ensures { IfOk result (λ command. app_of command ≡ snomon) }
{
    let check = Arg::new(alloc, "check")
        .long("check")
        .action(ArgAction::SetTrue)
        .help("Only reads the deck, and tells whether it is good");
    let slots = Arg::new(alloc, "slots")
        .long("slots")
        .action(ArgAction::Set)
        .value_name("N")
        .value_parser(clap::value_parser!(u8).range(1..=8))
        .help("How many slots there are for jobs, 1 to 8; 4 where it is not given");
    Command::new(alloc, "snomon")
        .version("0.1.0")
        .about("Runs the deck on standard input, and writes its output to standard output")
        .after_help(AFTER_HELP)
        .arg(check)?
        .arg(slots)
}
