// The layer: a store, and the table of what last went into it.
use crate::recent::Recent;

mod layer;

/// A store over a store, which answers a row that went below lately with the block that it already is.
#[derive(Drop)]
pub struct Sharing<S> {
    below: S,
    recent: Recent,
}
