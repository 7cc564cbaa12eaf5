//! What crosses threads: a service is shared by them, and each caller goes to one.

use crate::callers::{Caller, Linked, Stopped};
use crate::service::Service;
use cx_base::Object;

const fn goes_to_a_thread<T: Send>() {}

const fn is_shared_by_threads<T: Sync>() {}

/// A caller may go to another thread, in each of its states. A service may too, and may be shared, where its object may.
pub const fn cross_threads<O: Object + Send + Sync>() {
    goes_to_a_thread::<Caller>();
    goes_to_a_thread::<Linked>();
    goes_to_a_thread::<Stopped>();
    goes_to_a_thread::<Service<O>>();
    is_shared_by_threads::<Service<O>>();
}
