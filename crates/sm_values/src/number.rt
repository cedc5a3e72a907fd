//! Numbers of clients, administrators and objects.

/// A client's number. Clients are numbered from 1 in the order of connecting, and a number is never used again.
#[derive(Clone, Copy, PartialEq, Eq, PartialOrd, Ord)]
pub struct ClientId(pub u32);

/// An administrator's number.
#[derive(Clone, Copy, PartialEq, Eq, PartialOrd, Ord)]
pub struct AdminId(pub u32);

/// A binder object: the client that owns it, and that client's own number for it.
#[derive(Clone, Copy, PartialEq, Eq, PartialOrd, Ord)]
pub struct Node {
    pub owner: ClientId,
    pub object: u32,
}

/// A reference in a client's request, as in binder's `flat_binder_object`.
#[derive(Clone, Copy, PartialEq, Eq)]
pub enum ObjRef {
    /// An object of the client's own, by its number for it (`BINDER_TYPE_BINDER`).
    Own(u32),
    /// An object of another client, by the client's handle for it (`BINDER_TYPE_HANDLE`).
    Handle(u32),
    Null,
}
