//! What a Teller tells a Looker.

use crate::numbered::Numbered;
use crate::post::Post;

/// The value that a Teller showed when it told, with a seat at the board that knows it.
#[derive(Drop)]
pub struct Note<V: Numbered + Drop> {
    pub(crate) post: Post<V>,
}
