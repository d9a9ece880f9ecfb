//! Cards that list records, which are most of a stream: such a card is read in one pass.
ghost use Rattle.std.specs.Prelude.{◌≡◌, ◌∷◌, ◌++◌, codes, true, IfSome, None};
ghost use Rattle.std.specs.Option.{option_or};
ghost use Rattle.mon_text.specs.Names.{is_name};
ghost use Rattle.deck_lines.specs.declared.command.Command.TheVariants as commands;
ghost use Rattle.deck_syntax.specs.declared.request.Request.TheVariants as request;
ghost use Rattle.deck_lines.specs.Refusing.{line_refusal};
ghost use Rattle.deck_syntax.specs.Requests.{request_on, stream_refusal};
ghost use Rattle.deck_syntax.specs.inner.Listed.{Lists};

use deck_lines::from_blank;
use mon_text::{Name, read_name};

/// What a card lists: the records of a data set, for an account.
#[derive(Drop)]
pub struct Listing {
    pub account: Name,
    pub name: Name,
}

/// What a card lists, where its words stand each behind one blank. Any other line is left to whoever reads all cards.
#[inline(always)]
#[tactic(auto, using(crate::proofs::CardWords::asks_well))]
pub(crate) fn listing_on(text: &[u8]) -> Option<Listing>
    ensures good { IfSome result (λ listing. option_or (line_refusal 200 text.now) (stream_refusal text.now) ≡ None) }
    ensures value { IfSome result (λ listing. request.Asks (commands.List listing.account listing.name) ≡ request_on text.now) }
{
    let (account, name) = words_on(text)?;
    let account = name_in(account)?;
    let name = name_in(name)?;
    Some(Listing { account, name })
}

// The name that a word is, if it is one.
#[inline(always)]
fn name_in(word: &[u8]) -> Option<Name>
    ensures value { IfSome result (λ name. name ≡ word.now) }
    ensures named { IfSome result (λ name. is_name word.now ≡ true) }
{
    match read_name(word) {
        Ok(name) => Some(name),
        Err(_) => None,
    }
}

// The account and the data set on a card that lists records, where one blank stands before each. They need not be names.
#[inline(always)]
fn words_on(text: &[u8]) -> Option<(&[u8], &[u8])>
    ensures { IfSome result (λ words. Lists text.now words.0.now words.1.now) }
{
    let words = behind_list(text)?;
    let behind = from_blank(words);
    let [_, name @ ..] = behind else {
        return None;
    };
    Some((&words[..words.len() - behind.len()], name))
}

// What stands behind the word and a blank.
#[inline(always)]
fn behind_list(text: &[u8]) -> Option<&[u8]>
    ensures { IfSome result (λ words. text.now ≡ codes "$LIST" ++ 32 ∷ words.now) }
{
    match text {
        [dollar, l, i, s, t, blank, words @ ..]
            if *dollar == b'$'
                && *l == b'L'
                && *i == b'I'
                && *s == b'S'
                && *t == b'T'
                && *blank == b' ' => { Some(words) }
        _ => None,
    }
}
