//! A worked case, as its text says.

/// What stands before a case.
pub const HEAD: &str = "\n$CASE ";

/// The parts of a case, each as its text.
#[derive(Clone, Copy)]
pub struct Case<'a> {
    /// What it is about.
    pub kind: &'a str,
    pub name: &'a str,
    /// What stands behind the name.
    pub further: &'a str,
    /// The lines that are given.
    pub given: &'a str,
    /// The lines that are wanted.
    pub wanted: &'a str,
}

impl<'a> Case<'a> {
    /// Takes the text behind `$CASE ` apart.
    pub fn read(text: &'a str) -> Option<Case<'a>> {
        let (front, wanted) = text.split_once("\n$WANTED\n")?;
        let (head, given) = front.split_once('\n').unwrap_or((front, ""));
        let (kind, words) = head.split_once(' ')?;
        let (name, further) = words.split_once(' ').unwrap_or((words, ""));
        Some(Case {
            kind,
            name,
            further,
            given,
            wanted,
        })
    }
}
