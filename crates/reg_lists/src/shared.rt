//! What threads may share: the lists of what they may share. Nothing is called here; each function says it, since it proves
//! only where it holds.

use crate::few::Few;
use crate::seq::Seq;

fn is_shared<T: Send + Sync>(_value: &T) {}

fn shared_seq<T: Drop + Send + Sync>(list: &Seq<T>) {
    is_shared(list);
}

fn shared_few<T: Copy + Send + Sync, const N: usize>(list: &Few<T, N>) {
    is_shared(list);
}
