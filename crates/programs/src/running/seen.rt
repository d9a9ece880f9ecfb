//! What is seen of a run: a line for each request, and a last one for how the job ended.
ghost use Rattle.std.specs.Prelude.{◌≡◌, ◌++◌, decimal, OnOk};
ghost use Rattle.std.specs.List.{flat_map};
ghost use Rattle.programs.specs.inner.Seen.{act_text, request_line, ending_text, end_line};

use interaction::{Act, Request};
use mon_text::put_number;
use sno_run::Ending;
use std::alloc::AllocError;

/// Appends a line for each request.
pub fn put_requests(requests: &[Request], out: &mut Vec<u8>) -> Result<(), AllocError>
    ensures { OnOk result (out.new.items ≡ out.old.items ++ flat_map request_line requests.now) }
{
    for request in requests {
        put_number(request.statement, out)?;
        put_act(&request.act, out)?;
        out.extend_from_slice(b"\n")?;
    }
    Ok(())
}

/// Appends the line on how a job ended, how many statements had begun, and in how many turns.
pub fn put_end(
    ending: Ending,
    statements: u64,
    turns: u64,
    out: &mut Vec<u8>,
) -> Result<(), AllocError>
    ensures { OnOk result (out.new.items ≡ out.old.items ++ end_line ending statements turns) }
{
    out.extend_from_slice(b"END ")?;
    put_ending(ending, out)?;
    put_words(b" AFTER ", statements, out)?;
    put_words(b" IN ", turns, out)?;
    out.extend_from_slice(b" TURNS\n")
}

fn put_words(words: &[u8], number: u64, out: &mut Vec<u8>) -> Result<(), AllocError>
    ensures { OnOk result (out.new.items ≡ out.old.items ++ words.now ++ decimal number) }
{
    out.extend_from_slice(words)?;
    put_number(number, out)
}

fn put_act(act: &Act, out: &mut Vec<u8>) -> Result<(), AllocError>
    ensures { OnOk result (out.new.items ≡ out.old.items ++ act_text act.now) }
{
    match act {
        Act::Read(unit) => put_words(b" READ ", *unit, out),
        Act::Write(unit, line) => {
            put_words(b" WRITE ", *unit, out)?;
            out.extend_from_slice(b" '")?;
            out.extend_from_slice(line.as_bytes())?;
            out.extend_from_slice(b"'")
        }
        Act::Endfile(unit) => put_words(b" ENDFILE ", *unit, out),
        Act::Rewind(unit) => put_words(b" REWIND ", *unit, out),
    }
}

fn put_ending(ending: Ending, out: &mut Vec<u8>) -> Result<(), AllocError>
    ensures { OnOk result (out.new.items ≡ out.old.items ++ ending_text ending) }
{
    match ending {
        Ending::Normal => out.extend_from_slice(b"NORMAL"),
        Ending::StatementLimit => out.extend_from_slice(b"STATEMENT LIMIT"),
        Ending::MatchLimit(statement) => put_words(b"MATCH LIMIT AT ", statement, out),
        Ending::Fault(fault, statement) => {
            out.extend_from_slice(b"FAULT ")?;
            out.extend_from_slice(fault.name().as_bytes())?;
            put_words(b" AT ", statement, out)
        }
        Ending::Memory => out.extend_from_slice(b"MEMORY"),
    }
}
