//! Names of files: which are claimed, and how a name is told.
ghost use Rattle.std.specs.Prelude.{◌≡◌};
ghost use Rattle.std.specs.List.{list_all};
ghost use Rattle.site_plan.specs.Names.{is_claimed, is_plain, is_shown, shown_name};

/// How many characters a file's name has at the most to be shown.
const MOST_SHOWN: usize = 64;

/// Whether a file of this name is claimed from a box: it is hidden where the name begins with a point, and a copy that an editor keeps where
/// it ends with a tilde.
pub fn is_claimed(name: &[u8]) -> bool
    ensures { result ≡ is_claimed name.now }
{
    !name.starts_with(b".".as_slice()) && !name.ends_with(b"~".as_slice())
}

/// The name of a file as it is shown: itself where it is 1 to 64 letters, digits, points, underscores and hyphens, and else a hyphen.
pub fn shown_name(name: &[u8]) -> &[u8]
    ensures { result.now ≡ shown_name name.now }
{
    if is_shown(name) { name } else { b"-" }
}

fn is_shown(name: &[u8]) -> bool
    ensures { result ≡ is_shown name.now }
{
    are_plain(name) && (1..=MOST_SHOWN).contains(&name.len())
}

fn are_plain(name: &[u8]) -> bool
    ensures { result ≡ list_all is_plain name.now }
{
    name.iter().all(|byte| is_plain(*byte))
}

fn is_plain(byte: u8) -> bool
    ensures { result ≡ is_plain byte }
{
    byte.is_ascii_alphanumeric() || byte == b'.' || byte == b'_' || byte == b'-'
}
