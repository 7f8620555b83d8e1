//! What a controller is.

use crate::rows::Row;
use proto_model::Body;
use rv_base::Items;

/// The controller of a process: its body, and its rows in order.
#[derive(Debug, Drop)]
pub struct Controller {
    pub body: Body,
    pub rows: Items<Row>,
}
