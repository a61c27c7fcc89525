//! What threads may share: databases. Nothing is called here; each function says it, since it proves only where it holds.

use crate::database::Db;

fn is_shared<T: Send + Sync>(_value: &T) {}

fn shared_db(db: &Db) {
    is_shared(db);
}
