//! Cutting a text at a separator, and skipping the gaps (spaces and tabs) round a field.
ghost use Rattle.std.specs.Prelude.{◌≡◌, ◌<◌, ◌==◌, ◌∷◌, false, length, reverse, position, IfSome, option_copied};
ghost use Rattle.std.specs.List.{list_any, slice_split};
ghost use Rattle.acl_text.specs.Texts.{is_gap, is_hash, trimmed};
ghost use Rattle.acl_text.specs.inner.Building.{parts_behind};
ghost use Rattle.mon_text.specs.Beginnings.{without_leading};

/// Whether a byte is a space or a tab.
pub(crate) fn is_gap(byte: u8) -> bool
    ensures { result ≡ is_gap byte }
{
    byte == b' ' || byte == b'\t'
}

/// The text without the gaps before it.
fn without_leading_gaps(text: &[u8]) -> &[u8]
    ensures { result.now ≡ without_leading is_gap text.now }
{
    let mut text = text;
    while let [first, rest @ ..] = text {
        if !is_gap(*first) {
            break;
        }
        text = rest;
    }
    text
}

/// The text without the gaps behind it.
fn without_trailing_gaps(text: &[u8]) -> &[u8]
    ensures { result.now ≡ reverse (without_leading is_gap (reverse text.now)) }
{
    let mut text = text;
    while let [rest @ .., last] = text {
        if !is_gap(*last) {
            break;
        }
        text = rest;
    }
    text
}

/// The text without the gaps round it.
pub(crate) fn trimmed(text: &[u8]) -> &[u8]
    ensures { result.now ≡ trimmed text.now }
{
    without_trailing_gaps(without_leading_gaps(text))
}

/// Where the first separator stands.
fn first_place(text: &[u8], separator: u8) -> Option<usize>
    ensures { result ≡ position (λ b. b == separator) text.now }
{
    text.iter().position(|byte| *byte == separator)
}

/// What stands before the first separator, and what behind it, where there is one.
#[tactic(auto, using(crate::proofs::Clean::any_take, crate::proofs::Clean::any_drop))]
pub(crate) fn cut(text: &[u8], separator: u8) -> (&[u8], Option<&[u8]>)
    ensures parts { slice_split (λ b. b == separator) text.now ≡ result.0.now ∷ parts_behind (λ b. b == separator) (option_copied result.1) }
    ensures shorter { IfSome result.1 (λ rest. length rest.now < length text.now) }
    ensures clean { list_any is_hash text.now ≡ false → (list_any is_hash result.0.now ≡ false) × IfSome (option_copied result.1) (λ rest. list_any is_hash rest ≡ false) }
{
    match first_place(text, separator) {
        Some(i) => (&text[..i], Some(&text[i + 1..])),
        None => (text, None),
    }
}
