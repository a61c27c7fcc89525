//! Readers, and what they look at. No call here takes memory or waits.
ghost use Rattle.std.specs.Prelude.{◌≡◌, ◌≤◌, max};
ghost use Rattle.rule_publish.specs.Shown.{seen_by, looked_at, told_by};

use crate::note::Note;
use crate::numbered::Numbered;
use crate::post::Post;

/// A reader that isn't looking. It keeps the value of the greatest number that it saw or was told of.
#[derive(Drop)]
pub struct Looker<V: Numbered + Drop> {
    pub(crate) post: Post<V>,
}

/// A reader with the value that it looks at. It holds up no writer.
#[derive(Drop)]
pub struct Look<V: Numbered + Drop> {
    pub(crate) looker: Looker<V>,
}

impl<V: Numbered + Drop> Looker<V> {
    /// Looks at the board. Where the board refuses, or its Teller has ended, the value that was kept is shown.
    pub fn enter(self) -> Look<V>
        ensures number { V.number (seen_by self) ≤ V.number (looked_at result) }
        ensures name { V.name (looked_at result) ≡ V.name (seen_by self) }
    {
        let post = self.post.looking();
        Look {
            looker: Looker { post },
        }
    }

    /// Takes in what the Teller told: later looks show no less than the note.
    pub fn learn(self, note: Note<V>) -> Looker<V>
        requires name { V.name (told_by note) ≡ V.name (seen_by self) }
        ensures number { V.number (seen_by result) ≡ max (V.number (seen_by self)) (V.number (told_by note)) }
        ensures name { V.name (seen_by result) ≡ V.name (seen_by self) }
    {
        if note.post.kept().number() <= self.post.kept().number() {
            return self;
        }
        Looker { post: note.post }
    }

    /// The greatest number that it saw or was told of.
    pub fn seen(&self) -> u64
        ensures number { result ≡ V.number (seen_by self.now) }
    {
        self.post.kept().number()
    }
}

impl<V: Numbered + Drop> Look<V> {
    /// What is looked at.
    pub fn value(&self) -> &V
        ensures value { result.now ≡ looked_at self.now }
    {
        self.looker.post.kept()
    }

    /// Ends the look. What was seen is kept.
    pub fn leave(self) -> Looker<V>
        ensures seen { seen_by result ≡ looked_at self }
    {
        self.looker
    }
}
