//! What may go to a thread of its own: readers, looks and notes, where threads may share the value. Nothing is called here;
//! each function says it, since it proves only where it holds.

use crate::look::{Look, Looker};
use crate::note::Note;
use crate::numbered::Numbered;

fn is_sent<T: Send>(_value: &T) {}

fn sent_looker<V: Numbered + Drop + Send + Sync>(looker: &Looker<V>) {
    is_sent(looker);
}

fn sent_look<V: Numbered + Drop + Send + Sync>(look: &Look<V>) {
    is_sent(look);
}

fn sent_note<V: Numbered + Drop + Send + Sync>(note: &Note<V>) {
    is_sent(note);
}
