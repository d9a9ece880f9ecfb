//! Texts, which are shared.
ghost use Rattle.std.specs.Prelude.{◌≡◌, ◌==◌, ◌<◌, ◌≤◌, ◌+◌, ◌*◌, ◌++◌, [], length, take, drop, nat_eq, refl, vec_len, vec_capacity, Some, IfOk, OnErr};
ghost use Rattle.std.specs.Option.{MatchOption};
ghost use Rattle.std.specs.List.{repeat};
ghost use Rattle.std.specs.Fmt.{signed_decimal};
ghost use Rattle.std.specs.Ordering.{nat_cmp};
ghost use Rattle.std.specs.Hash as fed;
ghost use Rattle.std.specs.Cmp.Lexicographic.{pointwise, slice_cmp, nat_list_eq_equiv, nat_list_cmp_total, texts_ties, texts_po};
ghost use Rattle.std.specs.Cmp.{partial_equiv_from_equiv};
ghost use Rattle.std.specs.Cmp.Rules.{hashing};
ghost use Rattle.std.proofs.Common.{rules};
ghost use Rattle.mon_text.specs.Lines.{IsLine};
ghost use Rattle.sno_text.specs.Texts.{without_trailing_blanks};

use itoa::Buffer;
use mon_text::Line;
use std::alloc::{AllocError, Global};
use std::cmp::Ordering;
use std::hash::{Hash, Hasher};
use std::marker::Model;
use std::rc::Rc;

/// A text of ASCII 32 to 126, which contracts see as the list of its bytes.
///
/// Its copies share the bytes, and the null text takes no memory.
#[derive(Drop)]
pub struct Text {
    bytes: Option<Rc<Vec<u8>>>,
}

impl Model for Text {
    ghost use Rattle.std.specs.Prelude.{List, ℕ, [], length, ◌<◌, IfSome};
    ghost use Rattle.std.specs.Option.{option_map_or};
    ghost use Rattle.mon_text.specs.Lines.{IsLine};

    ghost Value = { List ℕ };

    ghost view = { λ t. option_map_or (λ r. r.value.items) t.bytes [] };

    ghost invariant = { λ t. IsLine (option_map_or (λ r. r.value.items) t.bytes []) × IfSome t.bytes (λ r. 0 < length r.value.items) };
}

// Below how many characters a text that is repeated is put character by character.
const SHORT: usize = 8;

/// A text without the blanks at its end.
pub fn without_trailing_blanks(text: &[u8]) -> &[u8]
    ensures { result.now ≡ without_trailing_blanks text.now }
{
    let mut end = text.len();
    while end > 0 && text[end - 1] == b' ' {
        end -= 1;
    }
    &text[..end]
}

/// Room for so many bytes and so many more.
fn room_for(alloc: Global, bytes: usize, more: usize) -> Result<Vec<u8>, AllocError>
    ensures empty { IfOk result (λ room. room.items ≡ []) }
    ensures wide { IfOk result (λ room. bytes + more ≤ vec_capacity room) }
    ensures memory { OnErr result (0 < bytes + more) }
{
    match bytes.checked_add(more) {
        Some(all) => Vec::with_capacity(alloc, all),
        None => Err(AllocError),
    }
}

// Puts a text so many times behind others, for which there is room.
fn put_repeated(bytes: &mut Vec<u8>, text: &[u8], times: usize)
    requires { vec_len bytes.old + times * length text.now ≤ vec_capacity bytes.old }
    ensures { bytes.new.items ≡ bytes.old.items ++ repeat times text.now }
{
    if text.len() < SHORT {
        put_short(bytes, text, times);
    } else {
        put_long(bytes, text, times);
    }
}

// The same by single characters, which needs no call for each time.
#[inline(always)]
fn put_short(bytes: &mut Vec<u8>, text: &[u8], times: usize)
    requires { vec_len bytes.old + times * length text.now ≤ vec_capacity bytes.old }
    ensures { bytes.new.items ≡ bytes.old.items ++ repeat times text.now }
{
    for _ in 0..times {
        put_each(bytes, text);
    }
}

// Puts the characters of a text behind others, for which there is room, one by one.
#[inline(always)]
fn put_each(bytes: &mut Vec<u8>, text: &[u8])
    requires { vec_len bytes.old + length text.now ≤ vec_capacity bytes.old }
    ensures value { bytes.new.items ≡ bytes.old.items ++ text.now }
    ensures len { vec_len bytes.new ≡ vec_len bytes.old + length text.now }
    ensures room { vec_capacity bytes.new ≡ vec_capacity bytes.old }
{
    for byte in text {
        bytes.push_reserved(*byte);
    }
}

// The same by all characters at once each time.
fn put_long(bytes: &mut Vec<u8>, text: &[u8], times: usize)
    requires { vec_len bytes.old + times * length text.now ≤ vec_capacity bytes.old }
    ensures { bytes.new.items ≡ bytes.old.items ++ repeat times text.now }
{
    for _ in 0..times {
        bytes.extend_from_slice(text).unwrap();
    }
}

impl Text {
    /// The null string.
    pub fn null() -> Text
        ensures { result ≡ [] }
    {
        Text { bytes: None }
    }

    /// The text that bytes are.
    ///
    /// # Errors
    ///
    /// Where a growth was refused. The null string takes no memory; so it is for each call here.
    pub fn of_bytes(alloc: Global, bytes: Vec<u8>) -> Result<Text, AllocError>
        requires { IsLine bytes.items }
        ensures value { IfOk result (λ text. text ≡ bytes.items) }
        ensures memory { OnErr result (0 < length bytes.items) }
    {
        if bytes.is_empty() {
            return Ok(Text::null());
        }
        let bytes = Rc::new(alloc, bytes)?;
        Ok(Text { bytes: Some(bytes) })
    }

    /// The text that bytes are, which are copied.
    ///
    /// # Errors
    ///
    /// Where a growth was refused.
    pub fn of_slice(alloc: Global, bytes: &[u8]) -> Result<Text, AllocError>
        requires { IsLine bytes.now }
        ensures value { IfOk result (λ text. text ≡ bytes.now) }
        ensures memory { OnErr result (0 < length bytes.now) }
    {
        let mut copied = room_for(alloc, bytes.len(), 0)?;
        copied.extend_from_slice(bytes).unwrap();
        Text::of_bytes(alloc, copied)
    }

    /// The text of a line.
    ///
    /// # Errors
    ///
    /// Where a growth was refused.
    pub fn of_line(alloc: Global, line: &Line) -> Result<Text, AllocError>
        ensures value { IfOk result (λ text. text ≡ line.now) }
        ensures memory { OnErr result (0 < length line.now) }
    {
        Text::of_slice(alloc, line.as_bytes())
    }

    /// A number in decimal, with `-` before it if it is negative.
    ///
    /// # Errors
    ///
    /// Where a growth was refused.
    pub fn of_number(alloc: Global, number: i64) -> Result<Text, AllocError>
        ensures { IfOk result (λ text. text ≡ signed_decimal number) }
    {
        let mut buffer = Buffer::new();
        Text::of_slice(alloc, buffer.format(number).as_bytes())
    }

    /// The characters of the text.
    pub fn as_bytes(&self) -> &[u8]
        ensures value { result.now ≡ self.now }
        ensures printable { IsLine self.now }
    {
        match &self.bytes {
            Some(bytes) => bytes.as_slice(),
            None => &[],
        }
    }

    /// How many characters the text has.
    pub fn len(&self) -> usize
        ensures { result ≡ length self.now }
    {
        self.as_bytes().len()
    }

    /// Whether it is the null string.
    pub fn is_null(&self) -> bool
        ensures { result ≡ (length self.now == 0) }
    {
        self.as_bytes().is_empty()
    }

    /// The same text once more. It takes no memory.
    ///
    /// # Errors
    ///
    /// Where as many share it as can be counted. The null string is never shared.
    pub fn copy(&self) -> Result<Text, AllocError>
        ensures value { IfOk result (λ text. text ≡ self.now) }
        ensures memory { OnErr result (0 < length self.now) }
    {
        match &self.bytes {
            Some(bytes) => {
                let bytes = bytes.clone()?;
                Ok(Text { bytes: Some(bytes) })
            }
            None => Ok(Text { bytes: None }),
        }
    }

    /// The text with other characters in place of those from one place up to another.
    ///
    /// # Errors
    ///
    /// Where a growth was refused.
    pub fn replaced(
        &self,
        alloc: Global,
        from: usize,
        to: usize,
        new: &Text,
    ) -> Result<Text, AllocError>
        requires ordered { from ≤ to }
        requires within { to ≤ length self.now }
        ensures value { IfOk result (λ text. text ≡ take from self.now ++ (new.now ++ drop to self.now)) }
        ensures memory { OnErr result (0 < length (take from self.now ++ (new.now ++ drop to self.now))) }
    {
        let old = self.as_bytes();
        let mut bytes = room_for(alloc, old.len() - (to - from), new.len())?;
        bytes.extend_from_slice(&old[..from]).unwrap();
        bytes.extend_from_slice(new.as_bytes()).unwrap();
        bytes.extend_from_slice(&old[to..]).unwrap();
        Text::of_bytes(alloc, bytes)
    }

    /// The text with a number in decimal behind it, where both have at most so many characters.
    ///
    /// # Errors
    ///
    /// Where a growth was refused.
    pub fn with_number(
        &self,
        alloc: Global,
        number: i64,
        most: u64,
    ) -> Result<Option<Text>, AllocError>
        ensures value { IfOk result (λ joined. MatchOption joined (most < length (self.now ++ signed_decimal number)) (λ text. (text ≡ self.now ++ signed_decimal number) × (length text ≤ most))) }
        ensures memory { OnErr result (length (self.now ++ signed_decimal number) ≤ most) }
    {
        let mut buffer = Buffer::new();
        let digits = buffer.format(number).as_bytes();
        let text = self.as_bytes();
        if (text.len() + digits.len()) as u64 > most {
            return Ok(None);
        }
        let mut bytes = room_for(alloc, text.len(), digits.len())?;
        bytes.extend_from_slice(text).unwrap();
        bytes.extend_from_slice(digits).unwrap();
        let joined = Text::of_bytes(alloc, bytes)?;
        Ok(Some(joined))
    }

    /// So many of a text, one after the other.
    ///
    /// # Errors
    ///
    /// Where a growth was refused.
    pub fn repeated(alloc: Global, text: &[u8], times: usize) -> Result<Text, AllocError>
        requires { IsLine text.now }
        ensures value { IfOk result (λ all. all ≡ repeat times text.now) }
        ensures memory { OnErr result (0 < times * length text.now) }
    {
        if text.is_empty() {
            return Ok(Text::null());
        }
        let all = text.len().checked_mul(times).ok_or(AllocError)?;
        let mut bytes = Vec::with_capacity(alloc, all)?;
        put_repeated(&mut bytes, text, times);
        Text::of_bytes(alloc, bytes)
    }

    /// The text without the blanks at its end.
    ///
    /// # Errors
    ///
    /// Where a growth was refused.
    pub fn trimmed(&self, alloc: Global) -> Result<Text, AllocError>
        ensures value { IfOk result (λ text. text ≡ without_trailing_blanks self.now) }
        ensures memory { OnErr result (0 < length (without_trailing_blanks self.now)) }
    {
        let kept = without_trailing_blanks(self.as_bytes());
        if kept.len() == self.len() {
            return self.copy();
        }
        Text::of_slice(alloc, kept)
    }
}

impl PartialEq for Text {
    ghost eq = { pointwise nat_eq };

    ghost laws = { partial_equiv_from_equiv nat_list_eq_equiv };

    fn eq(&self, other: &Self) -> bool {
        self.as_bytes() == other.as_bytes()
    }
}

impl Eq for Text {
    ghost laws = { nat_list_eq_equiv };
}

impl PartialOrd for Text {
    ghost partial_cmp = { λ x y. Some (slice_cmp nat_cmp x y) };

    ghost laws = { texts_po };

    fn partial_cmp(&self, other: &Self) -> Option<Ordering> {
        Some(self.cmp(other))
    }
}

impl Ord for Text {
    ghost cmp = { slice_cmp nat_cmp };

    ghost total = { nat_list_cmp_total };

    ghost matches_partial_cmp = { λ x y. refl };

    ghost matches_eq = { texts_ties };

    fn cmp(&self, other: &Self) -> Ordering {
        self.as_bytes().cmp(other.as_bytes())
    }
}

impl Hash for Text {
    ghost hash_input = { fed.slice fed.u8 };

    ghost respects_eq = { Prim.search (hashing, rules) };

    fn hash<H: Hasher>(&self, state: &mut H) {
        self.as_bytes().hash(state);
    }
}
