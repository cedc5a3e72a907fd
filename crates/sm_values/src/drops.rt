//! The body of a `drop` that is written by hand.

/// Takes `self` apart in its own `drop`, as `drop_fields!(self: words, shape)`, so that each field is dropped. Every
/// field has to be named.
#[macro_export]
macro_rules! drop_fields {
    ($value:ident: $($field:ident),+) => {
        let Self { $($field: _),+ } = $value;
    };
}
