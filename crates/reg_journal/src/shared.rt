//! What threads may share: sections. Nothing is called here; each function says it, since it proves only where it holds.

use crate::lists::SectionList;

fn is_shared<T: Send + Sync>(_value: &T) {}

fn shared_sections(sections: &SectionList) {
    is_shared(sections);
}
