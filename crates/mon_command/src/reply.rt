//! What a command is told in one line.
ghost use Rattle.std.specs.Prelude.{◌≡◌, ◌++◌, codes, OnOk};
ghost use Rattle.mon_device.specs.Putting.{Puts};
ghost use Rattle.acl_text.specs.Refused.{list_refusal};
ghost use Rattle.mon_command.specs.Replies.{reason_text, reply_text, reply_line};

use acl_text::print_list_refusal;
use interaction::Reason;
use mon_acl::{AclError, Entry, Perms};
use mon_device::{Sink, TextSink};
use std::alloc::AllocError;

/// What a command is told in one line: that it is done, or why it is not.
#[derive(Drop)]
pub enum Reply {
    /// It is done.
    Done,
    /// There is no account of its name.
    NoAccount,
    /// It is denied: by the entry that decided, or for what is missing.
    Denied(Reason),
    /// There is a data set of the name.
    NameTaken,
    /// There are 1,000 data sets.
    CatalogueFull,
    /// The text is no permission list.
    BadList(AclError),
}

impl Reply {
    /// Appends the line.
    ///
    /// # Errors
    ///
    /// Where a growth was refused; `out` may then hold a part of the line.
    pub fn put_line(&self, out: &mut Vec<u8>) -> Result<(), AllocError>
        ensures { OnOk result (out.new.items ≡ out.old.items ++ reply_line self.now) }
    {
        let mut sink = TextSink::new(out);
        self.print_line(&mut sink);
        sink.settle()
    }

    fn print_line<S: Sink>(&self, sink: &mut S)
        ensures { Puts (S.standing sink.old) (S.standing sink.new) (reply_line self.now) }
    {
        self.print(sink);
        sink.put(b"\n");
    }

    /// Puts it without the line's end.
    pub fn print<S: Sink>(&self, sink: &mut S)
        ensures { Puts (S.standing sink.old) (S.standing sink.new) (reply_text self.now) }
    {
        match self {
            Reply::Done => sink.put(b"DONE"),
            Reply::NoAccount => sink.put(b"REFUSED M2 NO ACCOUNT"),
            Reply::Denied(reason) => print_denied(reason, sink),
            Reply::NameTaken => sink.put(b"REFUSED K1 NAME TAKEN"),
            Reply::CatalogueFull => sink.put(b"REFUSED K4 CATALOGUE FULL"),
            Reply::BadList(error) => print_bad_list(*error, sink),
        }
    }
}

fn print_denied<S: Sink>(reason: &Reason, sink: &mut S)
    ensures { Puts (S.standing sink.old) (S.standing sink.new) (codes "DENIED " ++ reason_text reason.now) }
{
    sink.put(b"DENIED ");
    print_reason(reason.copy(), sink);
}

fn print_bad_list<S: Sink>(error: AclError, sink: &mut S)
    ensures { Puts (S.standing sink.old) (S.standing sink.new) (codes "REFUSED " ++ list_refusal error) }
{
    sink.put(b"REFUSED ");
    print_list_refusal(error, sink);
}

/// Puts why something is denied: by the entry that decided, or for what is missing.
pub fn print_reason<S: Sink>(reason: Reason, sink: &mut S)
    ensures { Puts (S.standing sink.old) (S.standing sink.new) (reason_text reason) }
{
    match reason {
        Reason::By(tag, name) => {
            let entry = Entry {
                tag,
                name,
                perms: Perms::default(),
            };
            sink.put(b"BY ");
            acl_text::print_head(&entry, sink);
        }
        Reason::NoSet => sink.put(b"NO DATA SET"),
        Reason::NotOwner => sink.put(b"NOT OWNER"),
        Reason::NoUnit => sink.put(b"NO UNIT"),
        Reason::InStream => sink.put(b"IN STREAM"),
        Reason::SpoolUnit => sink.put(b"SPOOL UNIT"),
        Reason::Mode => sink.put(b"MODE"),
    }
}
