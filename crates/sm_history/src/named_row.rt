//! The row of a name with its service.

use crate::service::Service;
use sm_values::{Name, drop_fields};

/// A name and its service.
pub struct NamedRow {
    pub name: Name,
    pub service: Service,
}

impl Drop for NamedRow {
    fn drop(self) {
        drop_fields!(self: name, service);
    }
}
