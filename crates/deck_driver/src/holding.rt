//! Which job holds most, as far as a deck was read.
ghost use Rattle.std.specs.Prelude.{◌≡◌, ◌==◌, if◌then◌else◌};
ghost use Rattle.deck_driver.specs.Holding.{most_at};

use crate::feed::DeckFeed;
use crate::section::{DeckState, Section};
use deck_syntax::StreamReader;
use mon_monitor::Holder;

impl DeckFeed {
    /// How many commands were counted.
    pub fn commands(&self) -> u64
        ensures { result ≡ self.now.counts.commands }
    {
        self.counts.commands
    }

    /// Notes which job in a slot holds most of its printout, where a card of the stream is due and so many commands are counted
    /// still. Before a further line of a permission list or of a job what was noted stays, since within these no job has a turn. It
    /// takes no memory.
    pub fn note_most(&self, commands: u64, noted: &mut Option<Holder>)
        ensures { noted.new ≡ (if self.now.counts.commands == commands then most_at self.now.state noted.old else noted.old) }
    {
        // The state is asked first: most lines of a long catalogue are none of a stream.
        if let DeckState::Reading(Section::Stream(StreamReader::Cards, monitor)) = &self.state {
            if self.counts.commands == commands {
                *noted = monitor.holds_most();
            }
        }
    }
}
