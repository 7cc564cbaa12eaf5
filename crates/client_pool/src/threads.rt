//! What crosses threads: a pool is shared by them, and each client goes to one.

use crate::client::Client;
use crate::pool::Pool;
use cx_base::Object;

const fn goes_to_a_thread<T: Send>() {}

const fn is_shared_by_threads<T: Sync>() {}

/// A check by the compiler, which does nothing: a client may go to another thread; a pool may go to another thread and be shared by threads where its
/// object may.
pub const fn cross_threads<O: Object + Send + Sync>() {
    goes_to_a_thread::<Client>();
    goes_to_a_thread::<Pool<O>>();
    is_shared_by_threads::<Pool<O>>();
}
