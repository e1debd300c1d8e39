//! The types that every crate speaks of: texts, lists, kinds, faults, shapes, labels and cells.
#![tactic(auto)]

mod attr;
mod axis;
mod elem;
mod fault;
mod integers;
mod items;
mod kind;
mod limits;
mod operation;
mod shape;
mod shared;
mod status;
mod text;

pub use attr::{Attr, NcType};
pub use axis::{Axis, Calendar, Label, LabelList, Labels, TimeCoding, TimeUnit, Units};
pub use elem::Elem;
pub use fault::{CallFault, CdfKind, ComputeFault, Fault, NoMemory, NodeId};
pub use integers::{Integers, IntegersForm};
pub use items::{ByteList, DeepCopy, Items, copy_all};
pub use kind::{DType, is_unsigned, promote, wrap, wrap_is_the_one};
pub use limits::{
    MOST_CELLS, MOST_CHUNKS, MOST_DIMENSIONS, MOST_FILE_BYTES, MOST_OPEN_BRACKETS,
    MOST_SCRIPT_BYTES, MOST_STATEMENT_ELEMENTS, MOST_STATEMENTS, MOST_VARIABLES, MOST_WORKERS,
};
pub use operation::{FoldKind, How, Near, OpKind};
pub use shape::Shape;
pub use shared::Shared;
pub use status::{ScriptFault, ScriptKind, Status};
pub use text::{Name, TextBytes};
