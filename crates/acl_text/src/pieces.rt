//! Where the entries stand in a text: between commas, or on lines that may end in a comment.
ghost use Rattle.std.specs.Prelude.{◌≡◌, ◌<◌, ◌∷◌, [], false, MatchOption, IfSome, option_copied};
ghost use Rattle.std.specs.List.{list_all, list_any};
ghost use Rattle.acl_text.specs.Texts.{is_gap, is_hash, without_comment};
ghost use Rattle.acl_text.specs.inner.Building.{pieces_left, left, separator_of};
ghost use Rattle.acl_text.specs.declared.pieces.Form.TheVariants as form;

use crate::fields::{cut, is_gap};

/// The text forms of a permission list.
#[derive(Clone, Copy)]
pub(crate) enum Form {
    /// Entries with commas between them.
    Short,
    /// An entry a line, with comments.
    Long,
}

impl Form {
    /// Whether a text may have comments: then it has `#` somewhere. It is looked through at once, so that lines need not be.
    pub(crate) fn has_comments(self, text: &[u8]) -> bool
        ensures { result ≡ list_any is_hash text.now }
    {
        let mut found = false;
        for byte in text {
            found |= *byte == b'#';
        }
        found
    }

    /// What stands between entries.
    pub(crate) fn separator(self) -> u8
        ensures { result ≡ separator_of self }
    {
        match self {
            Form::Short => b',',
            Form::Long => b'\n',
        }
    }
}

/// A line up to its comment, where it is not known that no line has one.
#[inline(always)]
#[tactic(auto, using(crate::proofs::Clean::no_comment))]
fn entry_on(commented: bool, line: &[u8]) -> &[u8]
    requires { commented ≡ false → list_any is_hash line.now ≡ false }
    ensures { result.now ≡ without_comment line.now }
{
    if commented { cut(line, b'#').0 } else { line }
}

/// Whether a line has nothing but gaps.
fn is_blank(line: &[u8]) -> bool
    ensures { result ≡ list_all is_gap line.now }
{
    line.iter().all(|byte| is_gap(*byte))
}

/// The next line that has an entry, without its comment, and the lines behind it. Where there are no comments none is looked for.
pub(crate) fn next_filled_line(
    commented: bool,
    lines: Option<&[u8]>,
) -> Option<(&[u8], Option<&[u8]>)>
    requires { commented ≡ false → IfSome (option_copied lines) (λ text. list_any is_hash text ≡ false) }
    ensures next { MatchOption result (pieces_left form.Long (option_copied lines.entry) ≡ []) (λ p. pieces_left form.Long (option_copied lines.entry) ≡ p.0.now ∷ pieces_left form.Long (option_copied p.1)) }
    ensures shorter { IfSome result (λ p. left (option_copied p.1) < left (option_copied lines.entry)) }
    ensures clean { commented ≡ false → IfSome result (λ p. IfSome (option_copied p.1) (λ text. list_any is_hash text ≡ false)) }
{
    let mut rest = lines;
    while let Some(lines) = rest {
        let (line, after) = cut(lines, b'\n');
        let entry = entry_on(commented, line);
        if !is_blank(entry) {
            return Some((entry, after));
        }
        rest = after;
    }
    None
}
