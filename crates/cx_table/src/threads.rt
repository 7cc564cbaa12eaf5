//! What crosses threads: a table is shared by them, and each seat goes to one.

use crate::seat::CallerSeat;
use crate::shared::Shared;
use cx_base::Object;

const fn goes_to_a_thread<T: Send>() {}

const fn is_shared_by_threads<T: Sync>() {}

/// A seat may go to another thread. A table may too, and may be shared, where its object may.
pub const fn cross_threads<O: Object + Send + Sync>() {
    goes_to_a_thread::<CallerSeat>();
    goes_to_a_thread::<Shared<O>>();
    is_shared_by_threads::<Shared<O>>();
}
