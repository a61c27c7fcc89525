//! What threads may share: lists of bytes. Nothing is called here; each function says it, since it proves only where it
//! holds.

use crate::bytes::Bytes;

fn is_shared<T: Send + Sync>(_value: &T) {}

fn shared_bytes(bytes: &Bytes) {
    is_shared(bytes);
}
